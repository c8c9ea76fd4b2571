//! A host takes a message.
ghost use Rattle.std.specs.Prelude.{◌≡◌, ◌+◌, ◌≤◌, IfOk, None, OnErr, OnOk, Some};
ghost use Rattle.cluster_history.specs.History.{message_at};
ghost use Rattle.engine_desk.specs.Desks.{IsDesk, IsSameDesk};
ghost use Rattle.engine_players.specs.Hosts.{IsHost};
ghost use Rattle.engine_hosts.specs.Notes.{IsNoted};
ghost use Rattle.engine_hosts.specs.Turns.{HasNoMore, IsAtHost, IsStill, IsTake, IsTaken};

use crate::notes::Notes;
use crate::turn::host_event;
use crate::way::{Way, event_by, input_by, pull_in, way_for};
use base_ids::{HostId, MsgRef, Session};
use cluster_history::Message;
use engine_desk::{Chair, Desk, Mail, Refused, most_takes};
use host_core::HostCore;
use plan_facts::SkipCause;
use replica_store::Store;
use run_plan::RunPlan;
use std::alloc::Global;
use std::sync::Wait;

/// A message that a host took.
#[derive(Debug, Clone, Copy)]
pub struct Taken {
    /// The message.
    pub at: MsgRef,
    /// The session whose pull it speaks of: that of a chunk, or of an ask whether the pull is done.
    pub session: Option<Session>,
    /// By which event it was taken, or why by none.
    pub became: Result<Way, SkipCause>,
}

/// A host makes an entry of the message that it holds, or skips it: it is another's, or was taken as often as the plan
/// allows, or asks whether something is so that is not. After an error the host itself is lost.
fn receive<C: Chair, M: Mail, S: Store, R: Wait>(
    rt: &R,
    alloc: Global,
    plan: &RunPlan,
    desk: &mut Desk<C, M>,
    core: &mut HostCore<S>,
    notes: &mut Notes,
    host: HostId,
    at: MsgRef,
    message: Message,
) -> Result<Result<Way, SkipCause>, Refused>
    requires desk { IsDesk plan.now desk.old }
    requires host { IsHost desk.old.known core.old.core }
    requires named { host ≡ core.old.core.host }
    requires noted { IsNoted desk.old.known host notes.old }
    requires held { desk.old.held ≡ Some at }
    requires found { message_at desk.old.known.seen at ≡ Some message }
    ensures still { IsStill plan.now desk.old desk.new }
    ensures at_host { OnOk result (IsAtHost plan.now host desk.new core.new.core notes.new) }
    ensures taken { IfOk result (λ became. IsTaken desk.old core.old.core at message became desk.new) }
    ensures lost { OnErr result (HasNoMore desk.old.known desk.new.known) }
{
    let Some(way) = way_for(&message, host) else {
        desk.skip(SkipCause::Wrong);
        return Ok(Err(SkipCause::Wrong));
    };
    if desk.taken(at) >= most_takes(plan) {
        desk.skip(SkipCause::Repeat);
        return Ok(Err(SkipCause::Repeat));
    }
    let input = input_by(message);
    if let Err(_broken) = core.check(&input) {
        desk.skip(SkipCause::NotTrue);
        return Ok(Err(SkipCause::NotTrue));
    }
    notes.note_input(&input)?;
    let event = event_by(way, host, at);
    host_event(rt, alloc, plan, desk, core, host, event, input)?;
    Ok(Ok(way))
}

/// A host asks for a message, and makes an entry of it or skips it; tells which message it was, whose pull it speaks
/// of, and what became of it. `None` tells that there was none. After an error the host itself is lost.
pub fn host_take<C: Chair, M: Mail, S: Store, R: Wait>(
    rt: &R,
    alloc: Global,
    plan: &RunPlan,
    desk: &mut Desk<C, M>,
    core: &mut HostCore<S>,
    notes: &mut Notes,
    host: HostId,
) -> Result<Option<Taken>, Refused>
    requires { IsAtHost plan.now host desk.old core.old.core notes.old }
    ensures desk { IsDesk plan.now desk.new }
    ensures same { IsSameDesk desk.old desk.new }
    ensures takes { OnOk result (desk.new.takes ≡ desk.old.takes + 1) }
    ensures at_host { OnOk result (IsAtHost plan.now host desk.new core.new.core notes.new) }
    ensures taken { IfOk result (λ taken. IsTake desk.old core.old.core taken desk.new) }
    ensures lost { OnErr result (HasNoMore desk.old.known desk.new.known) }
{
    let Some((at, message)) = desk.next(rt, alloc)? else {
        return Ok(None);
    };
    let session = pull_in(&message);
    let became = receive(rt, alloc, plan, desk, core, notes, host, at, message)?;
    Ok(Some(Taken {
        at,
        session,
        became,
    }))
}
