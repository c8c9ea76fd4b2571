//! The words of the program: which lists of words ask for which command.
#![tactic(auto)]

mod numbers;
mod program;
mod texts;
mod words;

pub use words::{Command, is_command, read_words};
