//! What a JSON value may be, as data: forms, what a value of a form tells, and the first path in it at fault.
#![tactic(auto)]

mod faults;
mod members;
mod values;

pub use faults::{Fault, FaultAt, FileRule, ReadError};
pub use members::{count_member, count_member_or, number_member, number_member_or};
pub use values::{
    count, here, list, need, number, number_below, object, spelled, spelled_line, text, under,
    under_item, whole,
};
