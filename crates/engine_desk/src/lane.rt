//! A lane plays its events.
ghost use Rattle.std.specs.Prelude.{◌≡◌, ◌≤◌, ◌+◌, IfOk, MatchOption, OnOk, OnErr, None, Some, slice_get, true};
ghost use Rattle.base_ids.specs.Names.{same_lane};
ghost use Rattle.cluster_history.specs.History.{message_at};
ghost use Rattle.cluster_history.specs.declared.data.Message.{Message as MessageSent};
ghost use Rattle.lane_core.specs.declared.data.LaneInput.{LaneInput as LaneIn};
ghost use Rattle.lane_core.specs.Lane.{IsFor, lane_after, lane_out, lane_rule};
ghost use Rattle.lane_ties.specs.LaneTies.{begin_input, lane_outputs};
ghost use Rattle.plan_facts.specs.Plan.{loses, script_of};
ghost use Rattle.plan_facts.specs.Skips.{is_others};
ghost use Rattle.plan_facts.specs.Suits.{Suits};
ghost use Rattle.engine_desk.specs.Desks.{HasSent, IsDesk, IsSameDesk, IsSeated};
ghost use Rattle.engine_desk.specs.Lanes.{MayBegin, IsLane, IsLaneDue, IsLanePlayed, lane_entry};

use crate::chair::{Chair, Refused};
use crate::desk::Desk;
use crate::mail::Mail;
use crate::outputs::lane_outputs;
use crate::plan::most_takes;
use base_ids::{Actor, LaneId, MsgRef, NoMemory, OpId, Version};
use cluster_history::{Entry, Event, Message, Operation};
use lane_core::{LaneCore, LaneInput};
use meta_snap::Snapshot;
use plan_facts::SkipCause;
use quorum_ops::Answer;
use run_plan::RunPlan;
use shared_value::Shared;
use std::alloc::Global;
use std::sync::Wait;

/// A lane plays an event, which has then this entry. `NoMemory` may come after it was played.
fn played_entry(
    alloc: Global,
    core: &mut LaneCore,
    event: Event,
    input: LaneInput,
) -> Result<Entry, NoMemory>
    requires rule { lane_rule core.old.core input ≡ None }
    requires fits { IsFor core.old.core input }
    ensures entry { IfOk result (λ entry. entry ≡ lane_entry core.old.core event input) }
    ensures core { OnOk result (core.new.core ≡ lane_after core.old.core input) }
{
    let prepared = core.prepare(input)?;
    let out = core.settle(prepared);
    let outputs = lane_outputs(alloc, out)?;
    Ok(Entry { event, outputs })
}

/// A lane plays an event that is enabled in what it has seen. After an error the lane itself is lost.
pub fn play_lane<C: Chair, M: Mail, R: Wait>(
    rt: &R,
    alloc: Global,
    desk: &mut Desk<C, M>,
    core: &mut LaneCore,
    event: Event,
    input: LaneInput,
) -> Result<u64, Refused>
    requires seated { IsSeated desk.old.known }
    requires lane { IsLane desk.old.known core.old.core }
    requires due { IsLaneDue desk.old core.old.core event input }
    ensures { IsLanePlayed desk.old core.old.core event input result desk.new core.new.core }
{
    let entry = played_entry(alloc, core, event, input)?;
    desk.commit(rt, entry)
}

/// A lane plays an event that suits the plan.
pub fn lane_event<C: Chair, M: Mail, R: Wait>(
    rt: &R,
    alloc: Global,
    plan: &RunPlan,
    desk: &mut Desk<C, M>,
    core: &mut LaneCore,
    event: Event,
    input: LaneInput,
) -> Result<u64, Refused>
    requires desk { IsDesk plan.now desk.old }
    requires lane { IsLane desk.old.known core.old.core }
    requires due { IsLaneDue desk.old core.old.core event input }
    requires suits { Suits plan.now desk.old.known.opening desk.old.known.seen event }
    ensures same { IsSameDesk desk.old desk.new }
    ensures desk { IsDesk plan.now desk.new }
    ensures lane { OnOk result (IsLane desk.new.known core.new.core) }
    ensures free { OnOk result (desk.new.held ≡ None) }
    ensures takes { desk.new.takes ≡ desk.old.takes }
    ensures sent { IfOk result (λ number. HasSent desk.old.known number
        (lane_outputs (lane_out core.old.core input)) desk.new.known) }
{
    play_lane(rt, alloc, desk, core, event, input)
}

/// The answer of a message that the lane may take.
fn answer_for(message: &Message, lane: LaneId) -> Option<Answer>
    ensures { MatchOption result (is_others (Actor.Lane lane) (Some message.now) ≡ true)
        (λ answer. (message.now ≡ MessageSent.Answer answer) × (same_lane answer.lane lane ≡ true)) }
{
    match message {
        Message::Answer(answer) => {
            if is_same_lane(answer.lane, lane) {
                Some(*answer)
            } else {
                None
            }
        }
        _ => None,
    }
}

fn is_same_lane(a: LaneId, b: LaneId) -> bool
    ensures { result ≡ same_lane a b }
{
    a == b
}

/// A lane makes an entry of the message that it holds, or skips it.
fn hear<C: Chair, M: Mail, R: Wait>(
    rt: &R,
    alloc: Global,
    plan: &RunPlan,
    desk: &mut Desk<C, M>,
    core: &mut LaneCore,
    at: MsgRef,
    message: Message,
) -> Result<(), Refused>
    requires desk { IsDesk plan.now desk.old }
    requires lane { IsLane desk.old.known core.old.core }
    requires held { desk.old.held ≡ Some at }
    requires found { message_at desk.old.known.seen at ≡ Some message }
    ensures same { IsSameDesk desk.old desk.new }
    ensures desk { IsDesk plan.now desk.new }
    ensures lane { OnOk result (IsLane desk.new.known core.new.core) }
    ensures free { OnOk result (desk.new.held ≡ None) }
    ensures takes { desk.new.takes ≡ desk.old.takes }
{
    let lane = core.lane();
    let Some(answer) = answer_for(&message, lane) else {
        desk.skip(SkipCause::Wrong);
        return Ok(());
    };
    if desk.taken(at) >= most_takes(plan) {
        desk.skip(SkipCause::Repeat);
        return Ok(());
    }
    let event = Event::Take { lane, at };
    lane_event(rt, alloc, plan, desk, core, event, LaneInput::Take(answer))?;
    Ok(())
}

/// A lane asks for a message, and makes an entry of it or skips it.
pub fn lane_take<C: Chair, M: Mail, R: Wait>(
    rt: &R,
    alloc: Global,
    plan: &RunPlan,
    desk: &mut Desk<C, M>,
    core: &mut LaneCore,
) -> Result<(), Refused>
    requires desk { IsDesk plan.now desk.old }
    requires lane { IsLane desk.old.known core.old.core }
    requires free { desk.old.held ≡ None }
    ensures same { IsSameDesk desk.old desk.new }
    ensures desk { IsDesk plan.now desk.new }
    ensures lane { OnOk result (IsLane desk.new.known core.new.core) }
    ensures free { OnOk result (desk.new.held ≡ None) }
    ensures takes { OnOk result (desk.new.takes ≡ desk.old.takes + 1) }
    ensures more { desk.old.takes ≤ desk.new.takes }
{
    match desk.next(rt, alloc)? {
        None => Ok(()),
        Some((at, message)) => hear(rt, alloc, plan, desk, core, at, message),
    }
}

/// The input of a begin with the topology that the request uses.
fn begin_with(operation: &Operation, snapshot: Shared<Snapshot>) -> LaneInput
    ensures { result ≡ begin_input operation.now snapshot }
{
    match operation {
        Operation::Write {
            table,
            token,
            cell,
            level,
        } => LaneInput::Write {
            table: *table,
            token: *token,
            cell: *cell,
            level: *level,
            snapshot,
        },
        Operation::Read {
            table,
            token,
            level,
        } => LaneInput::Read {
            table: *table,
            token: *token,
            level: *level,
            snapshot,
        },
    }
}

/// A lane begins the next operation of its script at a version that it pins.
pub fn lane_begin<C: Chair, M: Mail, R: Wait>(
    rt: &R,
    alloc: Global,
    plan: &RunPlan,
    desk: &mut Desk<C, M>,
    core: &mut LaneCore,
    operation: Operation,
    version: Version,
    snapshot: Shared<Snapshot>,
) -> Result<(), Refused>
    requires desk { IsDesk plan.now desk.old }
    requires lane { IsLane desk.old.known core.old.core }
    requires may { MayBegin desk.old core.old.core version snapshot }
    requires scripted { slice_get (script_of plan.now core.old.core.lane) core.old.core.begun ≡ Some operation }
    ensures desk { IsDesk plan.now desk.new }
    ensures lane { OnOk result (IsLane desk.new.known core.new.core) }
    ensures free { OnOk result (desk.new.held ≡ None) }
    ensures takes { desk.new.takes ≡ desk.old.takes }
{
    let lane = core.lane();
    let input = begin_with(&operation, snapshot);
    let event = Event::Begin {
        lane,
        operation,
        version,
    };
    lane_event(rt, alloc, plan, desk, core, event, input)?;
    Ok(())
}

/// A lane gives up a live request, where messages may be lost.
pub fn lane_timeout<C: Chair, M: Mail, R: Wait>(
    rt: &R,
    alloc: Global,
    plan: &RunPlan,
    desk: &mut Desk<C, M>,
    core: &mut LaneCore,
    op: OpId,
) -> Result<(), Refused>
    requires desk { IsDesk plan.now desk.old }
    requires lane { IsLane desk.old.known core.old.core }
    requires free { desk.old.held ≡ None }
    requires live { lane_rule core.old.core (LaneIn.Timeout op) ≡ None }
    requires loses { loses plan.now ≡ true }
    ensures desk { IsDesk plan.now desk.new }
    ensures lane { OnOk result (IsLane desk.new.known core.new.core) }
    ensures free { OnOk result (desk.new.held ≡ None) }
    ensures takes { desk.new.takes ≡ desk.old.takes }
{
    let event = Event::Timeout {
        lane: core.lane(),
        op,
    };
    lane_event(rt, alloc, plan, desk, core, event, LaneInput::Timeout(op))?;
    Ok(())
}
