//! A coordinator does for its move what is next.
ghost use Rattle.std.specs.Prelude.{◌≡◌, ◌<◌, ◌≤◌, ◌*◌, ◌^◌, IfOk, IfSome, MatchOption, None, OnErr, OnOk, Some, false, is_some, length, true};
ghost use Rattle.topo_state.specs.Rules.{IsFit};
ghost use Rattle.plan_facts.specs.Moves.{advanced_stage, due_command};
ghost use Rattle.plan_facts.specs.Own.{raises};
ghost use Rattle.plan_facts.specs.Plan.{moves_of};
ghost use Rattle.engine_desk.specs.Desks.{IsDesk, IsSameDesk};
ghost use Rattle.engine_players.specs.Coordinators.{IsProposable, IsSafe};
ghost use Rattle.engine_topos.specs.Acts.{CanFence, can_fence, is_drained, is_illegal, next_act};
ghost use Rattle.engine_topos.specs.Deeds.{DeedSends, HasGone, IsDeed, IsProposing, WayGoes, advance_rule, moment_at};
ghost use Rattle.engine_topos.specs.Turns.{IsAtTopo, SentStays, WaysStay};

use crate::ask::ask_next;
use crate::deed::{Deed, Hindrance};
use crate::notes::Notes;
use crate::standing::{advanced_stage, first_command, planned, standing_by};
use crate::way::Way;
use base_ids::{Appended, HostId, NoMemory, Version};
use engine_desk::{Chair, Desk, Mail, Refused};
use engine_players::topo_propose;
use migrate_core::{Next, awaited_barrier};
use plan_facts::Standing;
use run_plan::{MoveAsk, RunPlan};
use std::alloc::Global;
use std::sync::Wait;
use topo_coord::TopoCore;
use topo_state::{Command, Rule, TopoState};

/// What a coordinator did for its move, and how the move stands then.
#[derive(Debug, Clone, Copy)]
pub struct Acted {
    /// What it did.
    pub deed: Deed,
    /// How the move stands.
    pub standing: Standing,
}

/// What became of a proposal, and how the move stands then.
#[derive(Debug, Clone, Copy)]
pub struct Gone {
    /// What became of it.
    pub outcome: Appended<Rule>,
    /// How the move stands.
    pub standing: Standing,
}

/// A coordinator proposes the command that is due of its move, and tells what became of it and how the move stands.
pub fn topo_go<C: Chair, M: Mail, R: Wait>(
    rt: &R,
    alloc: Global,
    plan: &RunPlan,
    desk: &mut Desk<C, M>,
    core: &TopoCore,
    notes: &mut Notes,
    topo: HostId,
    ask: &MoveAsk,
    standing: Standing,
    command: Command,
) -> Result<Gone, Refused>
    requires named { topo ≡ core.now.core.host }
    requires at_topo { IsAtTopo plan.now desk.old core.now.core notes.old }
    requires due { IsProposable desk.old core.now.core command }
    requires raising { raises command ≡ true }
    requires next { due_command ask.now standing (advanced_stage core.now.core.state command) ≡ Some command }
    requires safe { IsSafe core.now.core.state command }
    ensures desk { IsDesk plan.now desk.new }
    ensures at_topo { OnOk result (IsAtTopo plan.now desk.new core.now.core notes.new) }
    ensures goes { let old = desk.old.known in let new = desk.new.known in
        IfOk result (λ gone. HasGone old topo ask.now standing gone.standing gone.outcome new) }
    ensures lost { OnErr result (WaysStay desk.old.known topo desk.new.known) }
    ensures sent { SentStays desk.old.known topo desk.new.known }
    ensures same { IsSameDesk desk.old desk.new }
    ensures takes { desk.new.takes ≡ desk.old.takes }
{
    let stage = advanced_stage(core.state(), &command);
    let same = command.clone_in(alloc)?;
    let outcome = topo_propose(rt, desk, core, topo, same)?;
    notes.note_proposal(&command, &outcome);
    let after = standing_by(ask, standing, &command, stage, &outcome);
    Ok(Gone {
        outcome,
        standing: after,
    })
}

fn is_drained(drained: Option<Version>, version: Version) -> bool
    ensures { result ≡ is_drained drained version }
{
    match drained {
        None => false,
        Some(drained) => drained.0 == version.0,
    }
}

/// The version to which the fence may be set. `None` exactly where it may be set to none.
fn fence_version(core: &TopoCore, notes: &Notes) -> Option<Version>
    ensures { MatchOption result (can_fence core.now.core notes.now ≡ false)
        (λ version. CanFence core.now.core notes.now version) }
{
    let version = core.state().version();
    let fence = core.state().fence();
    if notes.looked() && fence.0 < version.0 && is_drained(notes.drained(), version) {
        Some(version)
    } else {
        None
    }
}

/// A coordinator sets the fence to the version that it has seen, once it has asked some host to drain it. `None` exactly
/// where the fence is there, or it has not asked, or not looked since its last proposal.
pub fn topo_fence<C: Chair, M: Mail, R: Wait>(
    rt: &R,
    plan: &RunPlan,
    desk: &mut Desk<C, M>,
    core: &TopoCore,
    notes: &mut Notes,
    topo: HostId,
) -> Result<Option<Appended<Rule>>, Refused>
    requires named { topo ≡ core.now.core.host }
    requires at_topo { IsAtTopo plan.now desk.old core.now.core notes.old }
    ensures desk { IsDesk plan.now desk.new }
    ensures at_topo { OnOk result (IsAtTopo plan.now desk.new core.now.core notes.new) }
    ensures ways { WaysStay desk.old.known topo desk.new.known }
    ensures sent { SentStays desk.old.known topo desk.new.known }
    ensures due { IfOk result (λ fence. is_some fence ≡ can_fence core.now.core notes.old) }
    ensures legal { IfOk result (λ outcome. IfSome outcome (λ outcome. is_illegal outcome ≡ false)) }
    ensures same { IsSameDesk desk.old desk.new }
    ensures takes { desk.new.takes ≡ desk.old.takes }
{
    let Some(version) = fence_version(core, notes) else {
        return Ok(None);
    };
    let outcome = topo_propose(rt, desk, core, topo, Command::SetFence(version))?;
    notes.note_proposal(&Command::SetFence(version), &outcome);
    Ok(Some(outcome))
}

/// The rule that an advance breaks in the state that was seen. `None` for every other command.
fn advance_rule(state: &TopoState, command: &Command) -> Option<Rule>
    requires { IsFit command.now }
    ensures { result ≡ advance_rule state.now command.now }
{
    match command {
        Command::Advance { .. } => state.judge(command).err(),
        _ => None,
    }
}

/// What a move is to do next, by what the coordinator has seen and heard.
fn next_act(
    alloc: Global,
    ask: &MoveAsk,
    standing: Standing,
    core: &TopoCore,
) -> Result<Next, NoMemory>
    ensures { let topo = core.now.core in
        IfOk result (λ next. next ≡ next_act ask.now standing topo.state topo.facts) }
{
    match standing {
        Standing::Before => match awaited_barrier(core.evidence(), core.state()) {
            Some(host) => Ok(Next::Barrier(host)),
            None => Ok(Next::Propose(first_command(alloc, &ask.act)?)),
        },
        Standing::Going(session) => Ok(planned(ask, session, core.state(), core.evidence())),
        Standing::Over(_) => Ok(Next::Nothing),
    }
}

fn hindered(hindrance: Hindrance, standing: Standing) -> Acted
    ensures deed { result.deed ≡ Deed.Hindered hindrance }
    ensures standing { result.standing ≡ standing }
{
    Acted {
        deed: Deed::Hindered(hindrance),
        standing,
    }
}

/// A coordinator proposes the command that is due, or tells what tells against it.
fn propose_next<C: Chair, M: Mail, R: Wait>(
    rt: &R,
    alloc: Global,
    plan: &RunPlan,
    desk: &mut Desk<C, M>,
    core: &TopoCore,
    notes: &mut Notes,
    topo: HostId,
    ask: &MoveAsk,
    standing: Standing,
    command: Command,
) -> Result<Acted, Refused>
    requires named { topo ≡ core.now.core.host }
    requires at_topo { IsAtTopo plan.now desk.old core.now.core notes.old }
    requires raising { raises command ≡ true }
    requires next { due_command ask.now standing (advanced_stage core.now.core.state command) ≡ Some command }
    ensures deed { IfOk result (λ acted. IsProposing core.now.core notes.old command acted.deed) }
    ensures desk { IsDesk plan.now desk.new }
    ensures at_topo { OnOk result (IsAtTopo plan.now desk.new core.now.core notes.new) }
    ensures goes { let old = desk.old.known in let new = desk.new.known in
        IfOk result (λ acted. WayGoes old topo ask.now standing acted.deed acted.standing new) }
    ensures lost { OnErr result (WaysStay desk.old.known topo desk.new.known) }
    ensures sent { SentStays desk.old.known topo desk.new.known }
    ensures same { IsSameDesk desk.old desk.new }
    ensures takes { desk.new.takes ≡ desk.old.takes }
{
    if !notes.looked() {
        return Ok(hindered(Hindrance::Unseen, standing));
    }
    if !command.is_fit() {
        return Ok(hindered(Hindrance::Unfit, standing));
    }
    if let Err(broken) = core.check_command(&command) {
        return Ok(hindered(Hindrance::Early(broken), standing));
    }
    if let Some(broken) = advance_rule(core.state(), &command) {
        return Ok(hindered(Hindrance::Unsafe(broken), standing));
    }
    let gone = topo_go(
        rt, alloc, plan, desk, core, notes, topo, ask, standing, command,
    )?;
    Ok(Acted {
        deed: Deed::Proposed(gone.outcome),
        standing: gone.standing,
    })
}

/// A coordinator does what its move is to do next, or tells why it does not, and how the move stands then.
pub fn topo_act<C: Chair, M: Mail, R: Wait>(
    rt: &R,
    alloc: Global,
    plan: &RunPlan,
    desk: &mut Desk<C, M>,
    core: &mut TopoCore,
    notes: &mut Notes,
    moves: u64,
    hosts: u16,
    topo: HostId,
    ask: &MoveAsk,
    way: Way,
    takes: u64,
) -> Result<Acted, Refused>
    requires named { topo ≡ core.old.core.host }
    requires at_topo { IsAtTopo plan.now desk.old core.old.core notes.old }
    requires moves { moves ≡ length (moves_of plan.now topo) }
    requires few { plan.now.patience * moves < 2 ^ 64 }
    requires hosts { hosts ≡ desk.old.known.opening.hosts }
    requires inquired { way.clock.asked ≤ takes }
    ensures deed { let core = core.old.core in let next = next_act ask.now way.standing core.state core.facts in
        let moment = moment_at plan.now core notes.old way.clock takes moves hosts in
        IfOk result (λ acted. IsDeed moment next acted.deed) }
    ensures desk { IsDesk plan.now desk.new }
    ensures at_topo { OnOk result (IsAtTopo plan.now desk.new core.new.core notes.new) }
    ensures named { OnOk result (topo ≡ core.new.core.host) }
    ensures goes { let old = desk.old.known in let new = desk.new.known in
        IfOk result (λ acted. WayGoes old topo ask.now way.standing acted.deed acted.standing new) }
    ensures lost { OnErr result (WaysStay desk.old.known topo desk.new.known) }
    ensures sends { IfOk result (λ acted. DeedSends desk.old.known topo acted.deed desk.new.known) }
    ensures unsent { OnErr result (SentStays desk.old.known topo desk.new.known) }
    ensures same { IsSameDesk desk.old desk.new }
    ensures takes { desk.new.takes ≡ desk.old.takes }
{
    let standing = way.standing;
    let deed = match next_act(alloc, ask, standing, core)? {
        Next::Propose(command) => {
            return propose_next(
                rt, alloc, plan, desk, core, notes, topo, ask, standing, command,
            );
        }
        Next::Nothing => Deed::Idle,
        next => ask_next(
            rt, alloc, plan, desk, core, notes, moves, hosts, topo, &next, way.clock, takes,
        )?,
    };
    Ok(Acted { deed, standing })
}
