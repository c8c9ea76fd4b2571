//! The tablets of a table: which replicas each has, and which of them moves.
#![tactic(auto)]

mod errors;
mod laws;
mod lists;
mod map;
mod tablet;

pub use errors::{MergeError, SplitError};
pub use laws::{
    law_counts_are_of_hosts, law_counts_in_transition, law_merge_keeps_sets,
    law_same_sets_count_the_same, law_split_keeps_replicas, law_split_then_merge,
};
pub use map::TabletMap;
pub use tablet::{Tablet, Transition};
