//! Every replica of a tablet gets what any of them holds.
#![tactic(auto)]

mod counted;
mod laws;
mod repair;

pub use counted::{GotList, repair_counted};
pub use laws::{law_exact, law_repair};
pub use repair::{Repair, repair_all};
