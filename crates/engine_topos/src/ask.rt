//! A coordinator asks a host what its move waits for.
ghost use Rattle.std.specs.Prelude.{◌≡◌, ◌*◌, ◌^◌, ◌<◌, ◌≤◌, IfOk, OnErr, OnOk, length};
ghost use Rattle.plan_facts.specs.Plan.{moves_of};
ghost use Rattle.plan_facts.specs.declared.standing.Standing.{Standing};
ghost use Rattle.engine_desk.specs.Desks.{IsDesk, IsSameDesk};
ghost use Rattle.engine_topos.specs.Deeds.{DeedSends, IsDeed, WayGoes, barrier_question, moment_at, must_wait, question};
ghost use Rattle.engine_topos.specs.Turns.{IsAtTopo, SentStays, WaysStay};
ghost use Rattle.run_plan.specs.declared.plan.MoveAsk.{MoveAsk};

use crate::clock::Clock;
use crate::deed::{Deed, Silence};
use crate::notes::{Asked, Notes};
use crate::turn::topo_ask;
use barrier_core::{Evidence, Mode, What};
use base_ids::{HostId, Session};
use engine_desk::{Chair, Desk, Mail, Refused};
use migrate_core::Next;
use run_plan::RunPlan;
use std::alloc::Global;
use std::sync::Wait;
use topo_coord::TopoCore;
use topo_state::TopoState;

/// What is asked at a barrier. `None` where every host has told that it refuses requests below the version.
fn barrier_question(host: HostId, state: &TopoState, evidence: &Evidence) -> Option<Asked>
    ensures { result ≡ barrier_question host state.now evidence.now.facts }
{
    let version = state.version();
    if state.fence().0 < version.0 {
        return Some(Asked {
            to: host,
            what: What::Drain(version),
        });
    }
    let to = evidence.first_without(Mode::Fenced, version, state.members(), state.before())?;
    Some(Asked {
        to,
        what: What::Fence(version),
    })
}

/// What a host is asked for the next act, and which host. `None` exactly where there is nothing to ask.
fn question(
    next: &Next,
    state: &TopoState,
    evidence: &Evidence,
    begun: Option<u64>,
) -> Option<Asked>
    ensures { result ≡ question next.now state.now evidence.now.facts begun }
{
    let (to, what) = match next {
        Next::Barrier(host) => return barrier_question(*host, state, evidence),
        Next::Stream(host) => (*host, What::Done(Session(begun?))),
        Next::Clean(host) => (*host, What::Clean(Session(begun?))),
        Next::Ready(host) => (*host, What::Ready(Session(begun?))),
        Next::Propose(_) | Next::Nothing => return None,
    };
    Some(Asked { to, what })
}

/// Whether the host was asked this before, and has more time to answer.
fn must_wait(plan: &RunPlan, notes: &Notes, clock: Clock, takes: u64, asked: Asked) -> bool
    requires inquired { clock.asked ≤ takes }
    ensures { result ≡ must_wait plan.now.drain notes.now clock takes asked }
{
    notes.asked(asked.to, asked.what) > 0 && takes - clock.asked < plan.drain as u64
}

/// A coordinator asks what the next act waits for, or tells why it does not.
pub(crate) fn ask_next<C: Chair, M: Mail, R: Wait>(
    rt: &R,
    alloc: Global,
    plan: &RunPlan,
    desk: &mut Desk<C, M>,
    core: &mut TopoCore,
    notes: &mut Notes,
    moves: u64,
    hosts: u16,
    topo: HostId,
    next: &Next,
    clock: Clock,
    takes: u64,
) -> Result<Deed, Refused>
    requires named { topo ≡ core.old.core.host }
    requires at_topo { IsAtTopo plan.now desk.old core.old.core notes.old }
    requires moves { moves ≡ length (moves_of plan.now topo) }
    requires few { plan.now.patience * moves < 2 ^ 64 }
    requires hosts { hosts ≡ desk.old.known.opening.hosts }
    requires inquired { clock.asked ≤ takes }
    ensures deed { let moment = moment_at plan.now core.old.core notes.old clock takes moves hosts in
        IfOk result (λ deed. IsDeed moment next.now deed) }
    ensures desk { IsDesk plan.now desk.new }
    ensures at_topo { OnOk result (IsAtTopo plan.now desk.new core.new.core notes.new) }
    ensures named { OnOk result (topo ≡ core.new.core.host) }
    ensures goes { (ask : MoveAsk) (standing : Standing) →
        IfOk result (λ deed. WayGoes desk.old.known topo ask standing deed standing desk.new.known) }
    ensures lost { OnErr result (WaysStay desk.old.known topo desk.new.known) }
    ensures sends { IfOk result (λ deed. DeedSends desk.old.known topo deed desk.new.known) }
    ensures unsent { OnErr result (SentStays desk.old.known topo desk.new.known) }
    ensures same { IsSameDesk desk.old desk.new }
    ensures takes { desk.new.takes ≡ desk.old.takes }
{
    let Some(asked) = question(next, core.state(), core.evidence(), notes.begun()) else {
        return Ok(Deed::Silent(Silence::Unasked));
    };
    if asked.to.0 >= hosts {
        return Ok(Deed::Silent(Silence::Absent));
    }
    if must_wait(plan, notes, clock, takes, asked) {
        return Ok(Deed::Silent(Silence::Waiting));
    }
    match topo_ask(
        rt, alloc, plan, desk, core, notes, moves, topo, asked.to, asked.what,
    )? {
        None => Ok(Deed::Silent(Silence::Spent)),
        Some(number) => Ok(Deed::Inquired(number, asked)),
    }
}
