//! A host follows the log: it applies commands, publishes versions, and tells that the older ones are quiet.
ghost use Rattle.std.specs.Prelude.{◌≡◌, IfOk, OnErr, OnOk};
ghost use Rattle.engine_desk.specs.Desks.{DeskNoted};
ghost use Rattle.engine_hosts.specs.Turns.{HasNoMore, IsApplying, IsAtHost, IsPublish, IsQuiet, IsStill};

use crate::notes::Notes;
use crate::turn::host_event;
use base_ids::{HostId, Version};
use cluster_history::Event;
use engine_desk::{Chair, Desk, Mail, Refused};
use host_core::{HostCore, HostInput};
use replica_store::Store;
use run_plan::RunPlan;
use std::alloc::Global;
use std::sync::Wait;

/// A host applies the next command of the log; `false` tells that the log has none. After an error the host itself is
/// lost.
pub fn host_apply<C: Chair, M: Mail, S: Store, R: Wait>(
    rt: &R,
    alloc: Global,
    plan: &RunPlan,
    desk: &mut Desk<C, M>,
    core: &mut HostCore<S>,
    notes: &Notes,
    host: HostId,
) -> Result<bool, Refused>
    requires { IsAtHost plan.now host desk.old core.old.core notes.now }
    ensures still { IsStill plan.now desk.old desk.new }
    ensures at_host { OnOk result (IsAtHost plan.now host desk.new core.new.core notes.now) }
    ensures applied { IfOk result (λ applied. IsApplying desk.old.known core.old.core applied desk.new.known) }
    ensures lost { OnErr result (HasNoMore desk.old.known desk.new.known) }
{
    let _notes = notes;
    let number = core.applied() + 1;
    let Some(command) = desk.command(rt, number)? else {
        return Ok(false);
    };
    let event = Event::Apply { host };
    host_event(
        rt,
        alloc,
        plan,
        desk,
        core,
        host,
        event,
        HostInput::Apply(command),
    )?;
    Ok(true)
}

/// What became of a host's turn to publish a version.
#[derive(Debug, Clone, Copy, PartialEq, Eq)]
pub enum Publishing {
    /// It has published the next version.
    Published,
    /// It had published the version that it has reached.
    Newest,
    /// Pins of an older version stand in its way.
    Pinned,
}

/// A host publishes the next version, where it has reached it.
pub fn host_publish<C: Chair, M: Mail, S: Store>(
    plan: &RunPlan,
    desk: &mut Desk<C, M>,
    core: &HostCore<S>,
    notes: &mut Notes,
    host: HostId,
) -> Publishing
    requires { IsAtHost plan.now host desk.old core.now.core notes.old }
    ensures still { IsStill plan.now desk.old desk.new }
    ensures at_host { IsAtHost plan.now host desk.new core.now.core notes.new }
    ensures noted { DeskNoted desk.old desk.new }
    ensures published { IsPublish desk.old core.now.core result desk.new }
{
    let _plan = plan;
    let _host = host;
    let published = notes.published();
    if published.0 >= core.state().version().0 {
        return Publishing::Newest;
    }
    let next = Version(published.0 + 1);
    if !desk.publish(next) {
        return Publishing::Pinned;
    }
    notes.note_published(next);
    Publishing::Published
}

/// What became of a host's turn to tell that older versions are quiet.
#[derive(Debug, Clone, Copy, PartialEq, Eq)]
pub enum Quieting {
    /// It has told that nothing below the version that it published last is in use.
    Quieted,
    /// Its floor had reached that version.
    Reached,
    /// It has not reached that version.
    Ahead,
    /// A lane pins an older version.
    Older,
}

/// A host tells that its lanes begin nothing below the version that it published last, where none of them pins an older
/// one. After an error the host itself is lost.
pub fn host_quiet<C: Chair, M: Mail, S: Store, R: Wait>(
    rt: &R,
    alloc: Global,
    plan: &RunPlan,
    desk: &mut Desk<C, M>,
    core: &mut HostCore<S>,
    notes: &Notes,
    host: HostId,
) -> Result<Quieting, Refused>
    requires { IsAtHost plan.now host desk.old core.old.core notes.now }
    ensures still { IsStill plan.now desk.old desk.new }
    ensures at_host { OnOk result (IsAtHost plan.now host desk.new core.new.core notes.now) }
    ensures quiet { IfOk result (λ quiet. IsQuiet desk.old core.old.core quiet desk.new) }
    ensures lost { OnErr result (HasNoMore desk.old.known desk.new.known) }
{
    let version = notes.published();
    if core.floor().0 >= version.0 {
        return Ok(Quieting::Reached);
    }
    if core.state().version().0 < version.0 {
        return Ok(Quieting::Ahead);
    }
    if !desk.idle_below(version) {
        return Ok(Quieting::Older);
    }
    let event = Event::Quiet { host, version };
    host_event(
        rt,
        alloc,
        plan,
        desk,
        core,
        host,
        event,
        HostInput::Quiet(version),
    )?;
    Ok(Quieting::Quieted)
}
