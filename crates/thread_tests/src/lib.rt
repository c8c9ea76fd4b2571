//! Tests with threads: seats of a book over a small world, and passes of a mailbox.
#![tactic(auto)]

mod diary;
mod mail;
mod notes;
mod pair;
mod pins;
#[cfg(test)]
mod tests;

pub use diary::{Diary, Line};
pub use mail::{Clerk, Trio, by_ones, mailed, outputs_of, take_rest};
pub use notes::{note_both, notes_of, read_all};
pub use pair::{Pair, closed, opened};
pub use pins::{idle, meet, pin, publish, publish_middle, quiet, reach, unpin};
