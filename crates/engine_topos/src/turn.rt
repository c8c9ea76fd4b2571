//! A coordinator hears and asks.
ghost use Rattle.std.specs.Prelude.{◌≡◌, ◌+◌, ◌*◌, ◌<◌, ◌≤◌, ◌^◌, IfOk, MatchOption, None, OnErr, OnOk, Some, length, true};
ghost use Rattle.base_ids.specs.Names.{same_host};
ghost use Rattle.cluster_history.specs.History.{message_at};
ghost use Rattle.topo_coord.specs.Topo.{topo_after, topo_out, topo_rule};
ghost use Rattle.plan_facts.specs.Plan.{moves_of};
ghost use Rattle.plan_facts.specs.Skips.{is_others};
ghost use Rattle.plan_facts.specs.Suits.{IsAbout, Suits};
ghost use Rattle.engine_desk.specs.Desks.{IsDesk, IsSameDesk};
ghost use Rattle.engine_players.specs.Coordinators.{IsTopo};
ghost use Rattle.engine_topos.specs.Notes.{IsNoted};
ghost use Rattle.engine_topos.specs.Turns.{AskComes, IsAtTopo, IsHeard, IsTopoDue, IsTopoPlayed, SentStays, WaysStay, ask_of, plain_outputs, topo_entry};

use crate::notes::Notes;
use barrier_core::{Fact, What};
use base_ids::{Actor, HostId, Items, MsgRef, NoMemory};
use cell_merge::{Body, Cell};
use cluster_history::{Entry, Event, Message, Output, OutputList};
use engine_desk::{Chair, Desk, Mail, Refused, most_takes};
use plan_facts::SkipCause;
use quorum_ops::{Answer, Said};
use run_plan::RunPlan;
use std::alloc::Global;
use std::sync::Wait;
use stream_core::{ChunkAsk, ChunkMsg};
use topo_coord::{TopoCore, TopoInput, TopoOut};

/// What a coordinator gives out, as outputs.
fn outputs_of(alloc: Global, out: TopoOut) -> Result<OutputList, NoMemory>
    ensures { IfOk result (λ outputs. outputs ≡ plain_outputs out) }
{
    let _inside: Option<(&Message, &Answer, &Said, &Cell, &Body, &ChunkMsg)> = None;
    let _asks: Option<(&ChunkAsk, &Fact, &What)> = None;
    let mut outputs = Items::new(alloc);
    if let TopoOut::Ask(ask) = &out {
        outputs.push(Output::Sent(Message::Ask(*ask)))?;
    }
    Ok(outputs)
}

/// A coordinator plays an event, which has then this entry. `NoMemory` may come after it was played.
fn played_entry(
    alloc: Global,
    core: &mut TopoCore,
    event: Event,
    input: TopoInput,
) -> Result<Entry, NoMemory>
    requires rule { topo_rule core.old.core input ≡ None }
    ensures entry { IfOk result (λ entry. entry ≡ topo_entry core.old.core event input) }
    ensures core { OnOk result (core.new.core ≡ topo_after core.old.core input) }
{
    let prepared = core.prepare(input)?;
    let out = core.settle(prepared);
    let outputs = outputs_of(alloc, out)?;
    Ok(Entry { event, outputs })
}

/// A coordinator plays an event, no proposal, that suits the plan. After an error the coordinator itself is lost.
pub fn topo_event<C: Chair, M: Mail, R: Wait>(
    rt: &R,
    alloc: Global,
    plan: &RunPlan,
    desk: &mut Desk<C, M>,
    core: &mut TopoCore,
    event: Event,
    input: TopoInput,
) -> Result<u64, Refused>
    requires desk { IsDesk plan.now desk.old }
    requires topo { IsTopo desk.old.known core.old.core }
    requires due { IsTopoDue desk.old core.old.core event input }
    requires suits { Suits plan.now desk.old.known.opening desk.old.known.seen event }
    ensures desk { IsDesk plan.now desk.new }
    ensures played { IsTopoPlayed desk.old core.old.core event input result desk.new core.new.core }
    ensures same { IsSameDesk desk.old desk.new }
    ensures takes { desk.new.takes ≡ desk.old.takes }
{
    let entry = played_entry(alloc, core, event, input)?;
    desk.commit(rt, entry)
}

fn is_same_host(a: HostId, b: HostId) -> bool
    ensures { result ≡ same_host a b }
{
    a == b
}

/// What hearing a message gives the coordinator that may hear it.
fn report_for(message: &Message, topo: HostId) -> Option<TopoInput>
    ensures { MatchOption result (is_others (Actor.Topo topo) (Some message.now) ≡ true)
        (λ input. IsHeard topo message.now input) }
{
    match message {
        Message::Fact(fact) => {
            if is_same_host(fact.to, topo) {
                Some(TopoInput::Hear(*fact))
            } else {
                None
            }
        }
        Message::NotMine { to, .. } => {
            if is_same_host(*to, topo) {
                Some(TopoInput::HearNotMine)
            } else {
                None
            }
        }
        _ => None,
    }
}

/// A coordinator makes an entry of the message that it holds, or skips it.
fn hear<C: Chair, M: Mail, R: Wait>(
    rt: &R,
    alloc: Global,
    plan: &RunPlan,
    desk: &mut Desk<C, M>,
    core: &mut TopoCore,
    notes: &Notes,
    topo: HostId,
    at: MsgRef,
    message: Message,
) -> Result<(), Refused>
    requires named { topo ≡ core.old.core.host }
    requires desk { IsDesk plan.now desk.old }
    requires topo_is { IsTopo desk.old.known core.old.core }
    requires noted { IsNoted desk.old.known.seen topo notes.now }
    requires held { desk.old.held ≡ Some at }
    requires found { message_at desk.old.known.seen at ≡ Some message }
    ensures desk { IsDesk plan.now desk.new }
    ensures at_topo { OnOk result (IsAtTopo plan.now desk.new core.new.core notes.now) }
    ensures named { OnOk result (topo ≡ core.new.core.host) }
    ensures ways { WaysStay desk.old.known topo desk.new.known }
    ensures sent { SentStays desk.old.known topo desk.new.known }
    ensures same { IsSameDesk desk.old desk.new }
    ensures takes { desk.new.takes ≡ desk.old.takes }
{
    let Some(input) = report_for(&message, topo) else {
        desk.skip(SkipCause::Wrong);
        return Ok(());
    };
    if desk.taken(at) >= most_takes(plan) {
        desk.skip(SkipCause::Repeat);
        return Ok(());
    }
    let event = Event::Hear { topo, at };
    topo_event(rt, alloc, plan, desk, core, event, input)?;
    Ok(())
}

/// A coordinator asks for a message, and hears it or skips it.
pub fn topo_take<C: Chair, M: Mail, R: Wait>(
    rt: &R,
    alloc: Global,
    plan: &RunPlan,
    desk: &mut Desk<C, M>,
    core: &mut TopoCore,
    notes: &Notes,
    topo: HostId,
) -> Result<(), Refused>
    requires named { topo ≡ core.old.core.host }
    requires at_topo { IsAtTopo plan.now desk.old core.old.core notes.now }
    ensures desk { IsDesk plan.now desk.new }
    ensures at_topo { OnOk result (IsAtTopo plan.now desk.new core.new.core notes.now) }
    ensures named { OnOk result (topo ≡ core.new.core.host) }
    ensures ways { WaysStay desk.old.known topo desk.new.known }
    ensures sent { SentStays desk.old.known topo desk.new.known }
    ensures same { IsSameDesk desk.old desk.new }
    ensures takes { OnOk result (desk.new.takes ≡ desk.old.takes + 1) }
{
    let Some((at, message)) = desk.next(rt, alloc)? else {
        return Ok(());
    };
    hear(rt, alloc, plan, desk, core, notes, topo, at, message)
}

/// A coordinator asks a host, as long as it has not asked it this too often. Gives the number of the entry, and `None`
/// exactly where it has.
pub fn topo_ask<C: Chair, M: Mail, R: Wait>(
    rt: &R,
    alloc: Global,
    plan: &RunPlan,
    desk: &mut Desk<C, M>,
    core: &mut TopoCore,
    notes: &mut Notes,
    moves: u64,
    topo: HostId,
    to: HostId,
    what: What,
) -> Result<Option<u64>, Refused>
    requires named { topo ≡ core.old.core.host }
    requires at_topo { IsAtTopo plan.now desk.old core.old.core notes.old }
    requires moves { moves ≡ length (moves_of plan.now topo) }
    requires few { plan.now.patience * moves < 2 ^ 64 }
    requires there { to.0 < desk.old.known.opening.hosts }
    requires about { IsAbout core.old.core.state notes.old.begun what }
    ensures comes { let asked = ask_of to what in let most = plan.now.patience * moves in
        IfOk result (λ number. AskComes most desk.old topo notes.old asked number desk.new notes.new) }
    ensures desk { IsDesk plan.now desk.new }
    ensures at_topo { OnOk result (IsAtTopo plan.now desk.new core.new.core notes.new) }
    ensures named { OnOk result (topo ≡ core.new.core.host) }
    ensures ways { WaysStay desk.old.known topo desk.new.known }
    ensures unsent { OnErr result (SentStays desk.old.known topo desk.new.known) }
    ensures same { IsSameDesk desk.old desk.new }
    ensures takes { desk.new.takes ≡ desk.old.takes }
{
    let asked = notes.asked(to, what) as u64;
    if asked >= plan.patience as u64 * moves {
        return Ok(None);
    }
    notes.note_ask(to, what)?;
    let event = Event::Ask {
        topo,
        host: to,
        what,
    };
    let number = topo_event(
        rt,
        alloc,
        plan,
        desk,
        core,
        event,
        TopoInput::Ask { to, what },
    )?;
    Ok(Some(number))
}
