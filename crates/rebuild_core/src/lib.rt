//! A lost host's tablet is rebuilt on another host, from all the replicas that remain.
#![tactic(auto)]

mod laws;
mod rebuild;
mod tablets;

pub use laws::{law_covers, law_exact, law_rebuild, law_rebuilt_covers};
pub use rebuild::{Rebuild, rebuild_all};
pub use tablets::{LostTablet, rebuild_tablets};
