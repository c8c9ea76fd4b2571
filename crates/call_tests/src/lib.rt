//! Tests of calls that no contract settles and no text reaches: plans to their end, both stores by the same calls, real
//! readers and writers, and single calls that may want memory.
#![tactic(auto)]

#[cfg(test)]
mod calls;
#[cfg(test)]
mod driver;
#[cfg(test)]
mod plans;
#[cfg(test)]
mod readers_and_writers;
#[cfg(test)]
mod stores;
