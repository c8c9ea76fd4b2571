//! The lines that two commands write after the report of a journal: one for each repaired read, and those of a plan that
//! evens out the tablets. What each line is stands in specs/.
#![tactic(auto)]

mod laws;
mod plans;
mod reads;

pub use laws::law_plans_are_made;
pub use plans::add_balance;
pub use reads::add_repaired;
