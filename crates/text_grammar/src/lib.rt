//! What the words and lines of a text may look like, as data: places for words and shapes for lines, what each of them
//! tells, and the first fault of a text. Beside them the cuts that a reader makes, none of which copies a byte.
#![tactic(auto)]

mod faults;
mod lines;
mod numbers;
mod words;

pub use faults::{Fault, LineError, TextRule};
pub use lines::{first_line, passed};
pub use numbers::{digits, hex_digit_of, unsigned_of};
pub use words::{cut_at, is_end, next_word, no_word, parts};
