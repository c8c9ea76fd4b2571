//! A coordinator looks at the log.
ghost use Rattle.std.specs.Prelude.{◌≡◌, ◌≤◌, ◌+◌, IfOk, OnOk, length};
ghost use Rattle.cluster_history.specs.Topology.{log_of};
ghost use Rattle.engine_desk.specs.Desks.{DeskTurned, IsDesk, IsSameDesk, IsSeated};
ghost use Rattle.engine_topos.specs.Looks.{IsReached};
ghost use Rattle.engine_topos.specs.Turns.{IsAtTopo, SentStays, WaysStay};

use crate::notes::Notes;
use base_ids::{HostId, NoMemory};
use engine_desk::{Chair, Desk, Mail, Refused};
use run_plan::RunPlan;
use std::alloc::Global;
use std::sync::Wait;
use topo_coord::{TopoCore, TopoInput};
use topo_state::TopoState;

/// Carries out the command of the log behind the first `count`.
fn apply_next<C: Chair, M: Mail, R: Wait>(
    rt: &R,
    alloc: Global,
    desk: &mut Desk<C, M>,
    state: &mut TopoState,
    count: u64,
) -> Result<(), NoMemory>
    requires seated { IsSeated desk.old.known }
    requires more { count + 1 ≤ length (log_of desk.old.known.seen) }
    requires reached { IsReached desk.old.known.opening count state.old desk.old.known.seen }
    ensures turned { DeskTurned desk.old desk.new }
    ensures reached { OnOk result (IsReached desk.new.known.opening (count + 1) state.new desk.new.known.seen) }
{
    let Some(command) = desk.command(rt, count + 1)? else {
        unreachable!()
    };
    state.apply(alloc, command.get(), count + 1)?;
    Ok(())
}

/// Carries out the commands of the log behind the first `from`, up to the first `commands`.
fn catch_up<C: Chair, M: Mail, R: Wait>(
    rt: &R,
    alloc: Global,
    desk: &mut Desk<C, M>,
    state: &mut TopoState,
    from: u64,
    commands: u64,
) -> Result<(), NoMemory>
    requires seated { IsSeated desk.old.known }
    requires from { from ≤ commands }
    requires there { commands ≤ length (log_of desk.old.known.seen) }
    requires reached { IsReached desk.old.known.opening from state.old desk.old.known.seen }
    ensures turned { DeskTurned desk.old desk.new }
    ensures reached { OnOk result (IsReached desk.new.known.opening commands state.new desk.new.known.seen) }
{
    let mut count = from;
    'commands: while count < commands {
        apply_next(rt, alloc, desk, state, count)?;
        count += 1;
    }
    Ok(())
}

/// A coordinator looks at the log and takes up the state that the log leads to there. It does so only where it has asked
/// or proposed something since its last look; `false` tells that it has not.
pub fn topo_look<C: Chair, M: Mail, R: Wait>(
    rt: &R,
    alloc: Global,
    plan: &RunPlan,
    desk: &mut Desk<C, M>,
    core: &mut TopoCore,
    notes: &mut Notes,
    topo: HostId,
) -> Result<bool, Refused>
    requires named { topo ≡ core.old.core.host }
    requires at_topo { IsAtTopo plan.now desk.old core.old.core notes.old }
    ensures looked { IfOk result (λ looked. looked ≡ notes.old.acted) }
    ensures same { IsSameDesk desk.old desk.new }
    ensures desk { IsDesk plan.now desk.new }
    ensures at_topo { OnOk result (IsAtTopo plan.now desk.new core.new.core notes.new) }
    ensures named { OnOk result (topo ≡ core.new.core.host) }
    ensures ways { WaysStay desk.old.known topo desk.new.known }
    ensures sent { SentStays desk.old.known topo desk.new.known }
    ensures takes { desk.new.takes ≡ desk.old.takes }
{
    if !notes.acted() {
        return Ok(false);
    }
    let mut state = core.state().clone_in(alloc)?;
    let from = core.look();
    let len = desk.look(rt, topo)?;
    notes.note_look();
    catch_up(rt, alloc, desk, &mut state, from, len)?;
    let prepared = core.prepare(TopoInput::Look { len, state })?;
    core.settle(prepared);
    Ok(true)
}
