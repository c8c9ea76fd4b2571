//! Reads that write back what they found, so that later reads never go back.
#![tactic(auto)]

mod data;
mod found;
mod kept;
mod laws;

pub use data::{Repaired, RepairedList};
pub use found::repaired_reads;
pub use laws::{law_monotone, law_reads_are_found};
