//! The cluster as the shared book keeps it: an opening, and the log with the first state of each version. What the book
//! asks of entries and of lists of them is proved of the cluster's own.
#![tactic(auto)]

mod adding;
mod entries;
mod opening;
mod world;

pub use opening::first_state;
pub use world::RunWorld;
