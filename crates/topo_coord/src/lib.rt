//! The part of a topology coordinator in each event: what it sees of the log, what it asks of hosts and hears from
//! them, and which commands it may propose.
#![tactic(auto)]

mod coordinator;
mod data;
mod laws;
mod rules;

pub use coordinator::{Prepared, TopoCore};
pub use data::{TopoInput, TopoOut};
pub use laws::{law_planned_move_is_allowed, law_planned_resize_is_allowed};
