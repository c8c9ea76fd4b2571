//! A store that keeps the cells of a table in sorted runs, one for each tablet.
#![tactic(auto)]

mod chunks;
mod regrouping;
mod run;
mod runs;
mod store;
mod table;
mod tables;

pub use store::RunStore;
