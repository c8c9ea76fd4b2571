//! A plan of moves that evens out how many tablets each member has.
#![tactic(auto)]

mod data;
mod laws;
mod loads;
mod moves;
mod next;
mod planning;

pub use data::{Move, MoveList, Plan, PlanError};
pub use laws::law_plans_even_out;
pub use loads::load;
pub use planning::plan;
