//! A coordinator's turn for the move that is under way.
ghost use Rattle.std.specs.Prelude.{◌≡◌, ◌+◌, ◌*◌, ◌^◌, ◌<◌, ◌≤◌, ◌||◌, ◌∷◌, IfOk, IfSome, List, None, OnErr, OnOk, Some, false, is_some, length, nat_le, slice_get, ℕ};
ghost use Rattle.plan_facts.specs.Plan.{moves_of};
ghost use Rattle.engine_desk.specs.Desks.{IsDesk, IsSameDesk};
ghost use Rattle.engine_topos.specs.Acts.{is_illegal, next_act};
ghost use Rattle.engine_topos.specs.Clocks.{IsTimed};
ghost use Rattle.engine_topos.specs.Courses.{EndsIn, IsLate, IsPatient, IsTurn, KeepsCourse, Leaves, TurnSends, first_way, is_inquiry, is_over, stage_of, unfinished_in};
ghost use Rattle.engine_topos.specs.Deeds.{DeedSends, IsDeed, moment_at};
ghost use Rattle.engine_topos.specs.Turns.{IsAtTopo, SentStays, WaysStay};
ghost use Rattle.engine_topos.specs.declared.deed.MoveEnd.{MoveEnd};

use crate::act::{Acted, topo_act, topo_fence};
use crate::clock::{Clock, asked_now, fence_now, give_up, moved_on};
use crate::course::{Course, move_at};
use crate::deed::{Deed, MoveEnd};
use crate::look::topo_look;
use crate::notes::Notes;
use crate::standing::stage_in;
use crate::turn::topo_take;
use base_ids::{Appended, HostId, NoMemory};
use engine_desk::{Chair, Desk, Mail, Refused};
use migrate_core::awaited_barrier;
use plan_facts::Standing;
use run_plan::{MoveAsk, RunPlan};
use stage_graph::Stage;
use std::alloc::Global;
use std::sync::Wait;
use topo_coord::TopoCore;
use topo_state::{Rule, TopoState};

/// How the move under way stands, in which stage, and since when.
#[derive(Debug, Clone, Copy)]
pub struct Way {
    /// How it stands.
    pub standing: Standing,
    /// In which stage its tablet was last seen.
    pub stage: Option<Stage>,
    /// Since when.
    pub clock: Clock,
}

/// What a coordinator did for a move, and what became of the fence that it proposed then.
#[derive(Debug, Clone, Copy)]
pub struct Went {
    /// What it did.
    pub deed: Deed,
    /// What became of the fence. `None` where it proposed none.
    pub fence: Option<Appended<Rule>>,
}

/// What a coordinator did in a turn, beside hearing a message.
#[derive(Debug, Clone, Copy)]
pub enum Turn {
    /// It has no move left.
    Through,
    /// It left the move under way, which ended so.
    Left(MoveEnd),
    /// It did this for the move under way.
    Did(Went),
}

impl Way {
    /// A move that is not begun.
    pub fn new(clock: Clock) -> Way
        ensures { result ≡ first_way clock }
    {
        Way {
            standing: Standing::Before,
            stage: None,
            clock,
        }
    }
}

/// The stage in which the tablet of a move was seen. `None` where the move is none of a tablet, or not begun.
fn stage_of(standing: Standing, state: &TopoState) -> Option<Stage>
    ensures { result ≡ stage_of standing state.now }
{
    match standing {
        Standing::Going(session) => stage_in(state, session),
        _ => None,
    }
}

/// The move as it is seen now. Its clock begins anew where it is in another stage.
fn seen(way: Way, state: &TopoState, takes: u64) -> Way
    requires since { way.clock.since ≤ takes }
    requires barrier { way.clock.barrier ≤ takes }
    ensures standing { result.standing ≡ way.standing }
    ensures stage { result.stage ≡ stage_of way.standing state.now }
    ensures timed { (patience : ℕ) (drain : ℕ) (given : ℕ) →
        IsTimed patience drain given takes way.clock → IsTimed patience drain given takes result.clock }
{
    let stage = stage_of(way.standing, state);
    let clock = if stage == way.stage {
        way.clock
    } else {
        moved_on(way.clock, takes)
    };
    Way {
        standing: way.standing,
        stage,
        clock,
    }
}

/// How a move ends, and the clock of the next one. `None` exactly where it is not over and has patience left.
fn end_of(way: Way, patience: u32, takes: u64) -> Option<(MoveEnd, Clock)>
    requires since { way.clock.since ≤ takes }
    requires barrier { way.clock.barrier ≤ takes }
    ensures late { is_some result ≡ (is_over way.standing || nat_le (way.clock.since + patience) takes) }
    ensures ends { IfSome result (λ left. EndsIn way.standing way.stage left.0) }
    ensures timed { IfSome result (λ left. (drain : ℕ) (ends : List MoveEnd) →
        IsTimed patience drain (unfinished_in ends) takes way.clock →
        IsTimed patience drain (unfinished_in (left.0 ∷ ends)) takes left.1) }
{
    match way.standing {
        Standing::Over(ending) => Some((MoveEnd::Ended(ending), moved_on(way.clock, takes))),
        _ => {
            let clock = give_up(way.clock, patience, takes)?;
            Some((MoveEnd::Unfinished(way.stage), clock))
        }
    }
}

/// A coordinator leaves its move where it is over, or the plan's patience has run out. Gives its end, and `None` exactly
/// where it goes on.
pub fn topo_leave(
    plan: &RunPlan,
    core: &TopoCore,
    course: &mut Course,
    takes: u64,
) -> Result<Option<MoveEnd>, NoMemory>
    requires patient { IsPatient plan.now takes course.old }
    ensures leaves { IfOk result (λ end. Leaves core.now.core.state course.old end course.new) }
    ensures stays { OnErr result (Leaves core.now.core.state course.old None course.new) }
    ensures late { IfOk result (λ end. IsLate plan.now takes end course.new) }
    ensures patient { IsPatient plan.now takes course.new }
{
    let way = seen(course.way(), core.state(), takes);
    course.set_way(way);
    let Some((end, clock)) = end_of(way, plan.patience, takes) else {
        return Ok(None);
    };
    course.leave(end, clock)?;
    Ok(Some(end))
}

/// How the move stands after what was done for it. Its clock begins anew where a proposal was accepted.
fn went_on(way: Way, acted: Acted, takes: u64) -> Way
    requires since { way.clock.since ≤ takes }
    requires barrier { way.clock.barrier ≤ takes }
    ensures standing { result.standing ≡ acted.standing }
    ensures stage { result.stage ≡ way.stage }
    ensures timed { (patience : ℕ) (drain : ℕ) (given : ℕ) →
        IsTimed patience drain given takes way.clock → IsTimed patience drain given takes result.clock }
{
    let clock = match acted.deed {
        Deed::Inquired(_, _) => asked_now(way.clock, takes),
        Deed::Proposed(Appended::Accepted { .. }) => moved_on(way.clock, takes),
        _ => way.clock,
    };
    Way {
        standing: acted.standing,
        stage: way.stage,
        clock,
    }
}

fn is_inquiry(deed: &Deed) -> bool
    ensures { result ≡ is_inquiry deed.now }
{
    matches!(deed, Deed::Inquired(_, _))
}

/// The coordinator waits at a barrier, and there was time to drain.
fn may_fence(core: &TopoCore, clock: Clock, drain: u32, takes: u64) -> Option<Clock>
    requires waited { clock.barrier ≤ takes }
    ensures { IfSome result (λ after. (patience : ℕ) (given : ℕ) →
        IsTimed patience drain given takes clock → IsTimed patience drain given takes after) }
{
    match awaited_barrier(core.evidence(), core.state()) {
        None => None,
        Some(_) => fence_now(clock, drain, takes),
    }
}

/// A coordinator sets the fence where it waits at a barrier and there was time to drain.
fn fence_next<C: Chair, M: Mail, R: Wait>(
    rt: &R,
    plan: &RunPlan,
    desk: &mut Desk<C, M>,
    core: &TopoCore,
    notes: &mut Notes,
    topo: HostId,
    course: &mut Course,
    takes: u64,
) -> Result<Option<Appended<Rule>>, Refused>
    requires named { topo ≡ core.now.core.host }
    requires at_topo { IsAtTopo plan.now desk.old core.now.core notes.old }
    requires patient { IsPatient plan.now takes course.old }
    ensures desk { IsDesk plan.now desk.new }
    ensures at_topo { OnOk result (IsAtTopo plan.now desk.new core.now.core notes.new) }
    ensures ways { WaysStay desk.old.known topo desk.new.known }
    ensures sent { SentStays desk.old.known topo desk.new.known }
    ensures legal { IfOk result (λ outcome. IfSome outcome (λ outcome. is_illegal outcome ≡ false)) }
    ensures patient { IsPatient plan.now takes course.new }
    ensures ends { course.new.ends ≡ course.old.ends }
    ensures standing { course.new.way.standing ≡ course.old.way.standing }
    ensures same { IsSameDesk desk.old desk.new }
    ensures takes { desk.new.takes ≡ desk.old.takes }
{
    let way = course.way();
    let Some(clock) = may_fence(core, way.clock, plan.drain, takes) else {
        return Ok(None);
    };
    let outcome = topo_fence(rt, plan, desk, core, notes, topo)?;
    if outcome.is_some() {
        course.set_way(Way {
            standing: way.standing,
            stage: way.stage,
            clock,
        });
    }
    Ok(outcome)
}

/// A coordinator does what its move is to do next, and sets the fence where that is due.
pub fn topo_move<C: Chair, M: Mail, R: Wait>(
    rt: &R,
    alloc: Global,
    plan: &RunPlan,
    desk: &mut Desk<C, M>,
    core: &mut TopoCore,
    notes: &mut Notes,
    moves: u64,
    hosts: u16,
    topo: HostId,
    ask: &MoveAsk,
    course: &mut Course,
    takes: u64,
) -> Result<Went, Refused>
    requires named { topo ≡ core.old.core.host }
    requires at_topo { IsAtTopo plan.now desk.old core.old.core notes.old }
    requires moves { moves ≡ length (moves_of plan.now topo) }
    requires few { plan.now.patience * moves < 2 ^ 64 }
    requires hosts { hosts ≡ desk.old.known.opening.hosts }
    requires there { slice_get (moves_of plan.now topo) (length course.old.ends) ≡ Some ask.now }
    requires course { KeepsCourse plan.now desk.old.known topo course.old }
    requires patient { IsPatient plan.now takes course.old }
    ensures deed { let core = core.old.core in let way = course.old.way in
        let next = next_act ask.now way.standing core.state core.facts in
        let moment = moment_at plan.now core notes.old way.clock takes moves hosts in
        IfOk result (λ went. IsDeed moment next went.deed) }
    ensures legal { IfOk result (λ went. IfSome went.fence (λ outcome. is_illegal outcome ≡ false)) }
    ensures desk { IsDesk plan.now desk.new }
    ensures at_topo { OnOk result (IsAtTopo plan.now desk.new core.new.core notes.new) }
    ensures named { OnOk result (topo ≡ core.new.core.host) }
    ensures course { KeepsCourse plan.now desk.new.known topo course.new }
    ensures ends { course.new.ends ≡ course.old.ends }
    ensures patient { IsPatient plan.now takes course.new }
    ensures sends { IfOk result (λ went. DeedSends desk.old.known topo went.deed desk.new.known) }
    ensures unsent { OnErr result (SentStays desk.old.known topo desk.new.known) }
    ensures same { IsSameDesk desk.old desk.new }
    ensures takes { desk.new.takes ≡ desk.old.takes }
{
    let way = course.way();
    let acted = topo_act(
        rt, alloc, plan, desk, core, notes, moves, hosts, topo, ask, way, takes,
    )?;
    course.set_way(went_on(way, acted, takes));
    let deed = acted.deed;
    if is_inquiry(&deed) {
        return Ok(Went { deed, fence: None });
    }
    let fence = fence_next(rt, plan, desk, core, notes, topo, course, takes)?;
    Ok(Went { deed, fence })
}

/// A coordinator hears one message and looks at the log. Then it leaves its move where that has ended, or does what the
/// move is to do next. It is told how often it has then asked for messages.
pub fn topo_turn<C: Chair, M: Mail, R: Wait>(
    rt: &R,
    alloc: Global,
    plan: &RunPlan,
    desk: &mut Desk<C, M>,
    core: &mut TopoCore,
    notes: &mut Notes,
    moves: u64,
    hosts: u16,
    topo: HostId,
    course: &mut Course,
    takes: u64,
) -> Result<Turn, Refused>
    requires named { topo ≡ core.old.core.host }
    requires at_topo { IsAtTopo plan.now desk.old core.old.core notes.old }
    requires moves { moves ≡ length (moves_of plan.now topo) }
    requires few { plan.now.patience * moves < 2 ^ 64 }
    requires hosts { hosts ≡ desk.old.known.opening.hosts }
    requires taken { takes ≡ desk.old.takes + 1 }
    requires course { KeepsCourse plan.now desk.old.known topo course.old }
    requires patient { IsPatient plan.now desk.old.takes course.old }
    ensures turn { IfOk result (λ turn. IsTurn plan.now topo core.new.core.state course.old turn course.new) }
    ensures desk { IsDesk plan.now desk.new }
    ensures at_topo { OnOk result (IsAtTopo plan.now desk.new core.new.core notes.new) }
    ensures named { OnOk result (topo ≡ core.new.core.host) }
    ensures course { KeepsCourse plan.now desk.new.known topo course.new }
    ensures patient { IsPatient plan.now takes course.new }
    ensures sends { IfOk result (λ turn. TurnSends desk.old.known topo turn desk.new.known) }
    ensures unsent { OnErr result (SentStays desk.old.known topo desk.new.known) }
    ensures same { IsSameDesk desk.old desk.new }
    ensures takes { OnOk result (desk.new.takes ≡ takes) }
{
    topo_take(rt, alloc, plan, desk, core, notes, topo)?;
    let Some(ask) = move_at(plan, topo, course.done()) else {
        return Ok(Turn::Through);
    };
    topo_look(rt, alloc, plan, desk, core, notes, topo)?;
    if let Some(end) = topo_leave(plan, core, course, takes)? {
        return Ok(Turn::Left(end));
    }
    let went = topo_move(
        rt, alloc, plan, desk, core, notes, moves, hosts, topo, ask, course, takes,
    )?;
    Ok(Turn::Did(went))
}
