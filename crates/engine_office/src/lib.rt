//! The office of a worker: its actors' entries are added by it, so that the messages of each wait in the outboxes of
//! their addressees, once for each draw of the storm, in the order of their places.
#![tactic(auto)]

mod letters;
mod office;

pub use office::Office;
