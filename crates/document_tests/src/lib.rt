//! Tests of documents: changes of one document, whole texts, and what is answered.
#![tactic(auto)]

#[cfg(test)]
mod documents;
#[cfg(test)]
mod rows;
