//! What it is for a run to carry out a plan: what each entry must be by the history before it, how a coordinator's
//! proposals make up its moves, which messages a worker puts into mailboxes, and what an actor took and made no entry of.
#![tactic(auto)]

mod skips;
mod standing;

pub use skips::{Skip, SkipCause};
pub use standing::{Ending, Standing};
