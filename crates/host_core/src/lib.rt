//! A host: what it does at each of its events, over any store.
#![tactic(auto)]

mod data;
mod effects;
mod grouping;
mod host;
mod making;
mod pulls;

pub use data::{HostInput, HostOut};
pub use host::{HostCore, Prepared};
