//! What clients see of a cluster, and the laws on it: barriers, lag and freeze at each point of a legal run, what every
//! client may rely on, and that what clients see is a run of the register machine. They hold of every legal run,
//! whatever program keeps it.
#![tactic(auto)]

mod laws;
mod seen;

pub use laws::{
    law_barrier, law_cover, law_freeze, law_headline, law_lag, law_loss, law_quorum_reads,
    law_refine, law_stream,
};
pub use seen::client_events;
