//! The text of a schedule: which bytes are one, what it says, and where any other bytes are first at fault.
#![tactic(auto)]

mod errors;
mod laws;
mod lines;
mod reader;
mod state;

pub use errors::ParseError;
pub use laws::{law_second_format_says_the_same, law_texts_are_read, law_texts_say_one_schedule};
pub use reader::parse;
