//! A host pulls.
ghost use Rattle.std.specs.Prelude.{◌≡◌, ◌+◌, IfOk, OnErr, OnOk, nat_le};
ghost use Rattle.engine_hosts.specs.Turns.{HasNoMore, IsAtHost, IsPull, IsStill};

use crate::notes::Notes;
use crate::turn::host_event;
use base_ids::{EventRule, HostId, Session};
use cluster_history::Event;
use engine_desk::{Chair, Desk, Mail, Refused};
use host_core::{HostCore, HostInput};
use replica_store::Store;
use run_plan::RunPlan;
use std::alloc::Global;
use std::sync::Wait;

/// What became of a host's turn to pull.
#[derive(Debug, Clone, Copy, PartialEq, Eq)]
pub enum Pulling {
    /// It has asked for the next chunk.
    Asked,
    /// It had asked as often as it has taken chunks of the session, and as the plan's patience says beyond.
    Spent,
    /// The session streams nothing to it, or it has pulled all of it.
    Broken(EventRule),
}

/// Whether the pulls are as many as the chunks and the patience together.
fn is_spent(pulls: usize, chunks: usize, patience: u32) -> bool
    ensures { result ≡ nat_le (chunks + patience) pulls }
{
    pulls >= chunks && pulls - chunks >= patience as usize
}

/// A host begins the pull of a session, or asks again for its next chunk, as long as it has not asked too often. After
/// an error the host itself is lost.
pub fn host_pull<C: Chair, M: Mail, S: Store, R: Wait>(
    rt: &R,
    alloc: Global,
    plan: &RunPlan,
    desk: &mut Desk<C, M>,
    core: &mut HostCore<S>,
    notes: &mut Notes,
    host: HostId,
    session: Session,
) -> Result<Pulling, Refused>
    requires { IsAtHost plan.now host desk.old core.old.core notes.old }
    ensures still { IsStill plan.now desk.old desk.new }
    ensures at_host { OnOk result (IsAtHost plan.now host desk.new core.new.core notes.new) }
    ensures pull { IfOk result (λ pull. IsPull plan.now desk.old core.old.core session pull desk.new) }
    ensures lost { OnErr result (HasNoMore desk.old.known desk.new.known) }
{
    let pulls = notes.pulls(session);
    let chunks = notes.chunks(session);
    if is_spent(pulls, chunks, plan.patience) {
        return Ok(Pulling::Spent);
    }
    let input = HostInput::Pull(session);
    if let Err(rule) = core.check(&input) {
        return Ok(Pulling::Broken(rule));
    }
    notes.note_input(&input)?;
    let event = Event::Pull { host, session };
    host_event(rt, alloc, plan, desk, core, host, event, input)?;
    Ok(Pulling::Asked)
}
