//! Tallies of a quorum: which of a request's targets have answered and which have refused.
//!
//! A tally is an array of nine places and takes no memory.
#![tactic(auto)]

mod tally;

pub use tally::{Mark, Place, Standing, Tally, Verdict};
