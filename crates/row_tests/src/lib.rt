//! Tests of the program's one call: tables of texts and words, and the status and output that must come of each.
#![tactic(auto)]

#[cfg(test)]
mod barriers;
#[cfg(test)]
mod driver;
#[cfg(test)]
mod further;
#[cfg(test)]
mod moves;
#[cfg(test)]
mod refusals;
#[cfg(test)]
mod requests;
#[cfg(test)]
mod rules;
#[cfg(test)]
mod stages;
#[cfg(test)]
mod tests;
#[cfg(test)]
mod traces;
