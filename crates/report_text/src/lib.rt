//! The report of a journal as lines of text: what clients were told, what became of each proposal, which pulls are done
//! and what cleanups came to, and an end line. What each line is stands in specs/.
#![tactic(auto)]

mod entries;
mod report;
mod texts;

pub use report::{LineList, Tally, end_tally, lines, report_lines};
