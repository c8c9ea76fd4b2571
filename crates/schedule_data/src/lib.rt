//! A schedule as plain data: an opening, and lines that each say an event or a shorthand. Which schedules can be played
//! stands in specs/.
#![tactic(auto)]

mod data;

pub use data::{LineAct, LineEvent, LineRef, SchedLine, SchedLineList, Schedule, Shorthand};
