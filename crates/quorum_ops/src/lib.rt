// The requests of a lane: what they ask of replicas, what those answer, and when answers decide a request.
#![tactic(auto)]

mod data;
mod follow;
mod laws;
mod read_op;
mod refusal;
mod taking;
mod write_op;

pub use data::{Answer, ReadAsk, ReadAskList, Reply, Said, WriteAsk, WriteAskList};
pub use follow::{Follow, follow_up};
pub use laws::{decision_laws, idle_laws};
pub use read_op::ReadOp;
pub use taking::Taking;
pub use write_op::WriteOp;
