//! The commands of the program: `play` reads a schedule, plays it and writes its report; `gen N` plays a schedule that it
//! makes; `reads` and `balance` play as `play` does, and write the repaired reads, or a plan of moves, after the report.
//! Where the text comes from and where the report goes is the caller's: a source and a sink.
#![tactic(auto)]

mod endings;
mod further;
mod laws;
mod opening;
mod outcome;
mod plays;
mod program;
mod sources;
mod status;
mod texts;

pub use further::{balance_main, reads_main};
pub use laws::law_calls_end_one_way;
pub use outcome::Outcome;
pub use program::{Words, cluster_main, gen_main, play_main};
pub use status::Status;
