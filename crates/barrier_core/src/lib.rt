//! What a topology coordinator asks of hosts, and the facts that it has heard: when they show that a version is left
//! behind on all hosts, by one kind of fact and never by a mixture of both.
#![tactic(auto)]

mod data;
mod evidence;

pub use data::{Ask, Fact, Mode, Told, What};
pub use evidence::{Evidence, lesser_host};
