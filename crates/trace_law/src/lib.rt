//! The law of the trace: the written form of a legal run is the text of a schedule whose play is that run.
#![tactic(auto)]

mod laws;

pub use laws::{law_entries_are_played, law_written_run_is_a_trace, law_written_runs_are_traces};
