//! What a topology coordinator does next to carry out a decision to resize a table.
#![tactic(auto)]

mod plan;

pub use plan::plan_resize;
