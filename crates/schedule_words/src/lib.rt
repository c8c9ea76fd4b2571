//! The words of a schedule text: what may stand at the place of a word, what it tells, and how it is read. What the
//! words are stands in specs/.
#![tactic(auto)]

mod cells;
mod counts;
mod labels;
mod numbers;
mod places;
mod verbs;

pub use cells::{cell, cell_text};
pub use counts::{Counts, Format};
pub use labels::{Labels, label_of, reference};
pub use numbers::{number, token};
pub use places::{
    any_host, any_replica, host, lane, log2, next_replica, operation_number, session, table_number,
    tablet_number, version,
};
pub use verbs::{HeaderVerb, header_word, level_in, resize_kind, target, word};
