//! A host at its desk: it takes messages, follows the log, and pulls.
#![tactic(auto)]

mod log;
mod notes;
mod pulling;
mod taking;
mod turn;
mod way;

pub use log::{Publishing, Quieting, host_apply, host_publish, host_quiet};
pub use notes::Notes;
pub use pulling::{Pulling, host_pull};
pub use taking::{Taken, host_take};
pub use turn::host_event;
pub use way::Way;
