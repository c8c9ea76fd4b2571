//! What a topology coordinator does next to move a tablet, or to take the way back.
#![tactic(auto)]

mod laws;
mod next;
mod plan;
mod session;

pub use laws::{law_barrier_is_awaited, law_planned_advance_is_judged, law_target_is_a_move};
pub use next::Next;
pub use plan::{awaited_barrier, plan_next};
pub use session::{cleaned_host, streamed_host, transition_of};
