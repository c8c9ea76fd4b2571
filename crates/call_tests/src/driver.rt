//! A machine that is given events one by one.
ghost use Rattle.std.specs.Prelude.{IsTrue};
ghost use Rattle.cluster_history.specs.Legal.{HasActor, IsFitEvent};
ghost use Rattle.cluster_history.specs.Openings.{HasLane};

use barrier_core::What;
use base_ids::{Actor, HostId, LaneId, MsgRef, Session};
use cluster_history::{Event, Message, Opening, Operation, Output};
use cluster_machine::{Machine, StepError};
use migrate_core::Next;
use quorum_ops::Reply;
use schedule_text::parse;
use std::alloc::Global;
use std::test::Fail;

/// The host of the coordinator and of the lane of the tests.
pub(crate) const ACTING: HostId = HostId(2);

/// The lane of the tests.
const LANE: LaneId = LaneId {
    host: ACTING,
    lane: 0,
};

/// A machine with the opening of a text, which has three hosts.
pub(crate) fn machine_of(alloc: Global, text: &[u8]) -> Result<Machine, Fail> {
    let schedule = parse(alloc, text)?;
    Ok(Machine::new(alloc, schedule.opening)?)
}

/// Whether the opening has the lane.
fn has_lane(opening: &Opening, lane: LaneId) -> bool
    ensures { IsTrue result → HasLane opening.now lane }
{
    lane.host.0 < opening.hosts && lane.lane < opening.lanes
}

/// Whether whom the event names is in the opening, and what it would create is of a fit size.
fn is_fit(opening: &Opening, event: &Event) -> bool
    ensures actor { IsTrue result → HasActor opening.now event.now }
    ensures fit { IsTrue result → IsFitEvent opening.now event.now }
{
    match event {
        Event::Begin { lane, .. } | Event::Take { lane, .. } | Event::Timeout { lane, .. } => {
            has_lane(opening, *lane)
        }
        Event::Apply { host }
        | Event::Quiet { host, .. }
        | Event::Serve { host, .. }
        | Event::Answer { host, .. }
        | Event::Clean { host, .. }
        | Event::Pull { host, .. }
        | Event::TakeChunk { host, .. } => host.0 < opening.hosts,
        Event::Look { topo } | Event::Hear { topo, .. } => topo.0 < opening.hosts,
        Event::Ask { topo, host, .. } => topo.0 < opening.hosts && host.0 < opening.hosts,
        Event::Propose { topo, command } => topo.0 < opening.hosts && command.is_fit(),
        Event::Restart { actor } => match actor {
            Actor::Lane(lane) => has_lane(opening, *lane),
            Actor::Host(host) | Actor::Topo(host) => host.0 < opening.hosts,
        },
    }
}

/// Gives the machine an event, and names its first output.
pub(crate) fn give(machine: &mut Machine, event: Event) -> Result<MsgRef, Fail> {
    if !is_fit(&machine.journal().opening, &event) {
        return Err(Fail::from("the event is not fit"));
    }
    match machine.step(event) {
        Ok(event) => Ok(MsgRef { event, out: 0 }),
        Err(StepError::NotEnabled { rule }) => Err(Fail::from(rule.word())),
        Err(StepError::Limit { name }) => Err(Fail::from(name.word())),
        Err(StepError::NoMemory) => Err(Fail::from("no memory")),
    }
}

/// What came of the last event.
fn last_outputs(machine: &Machine) -> &[Output] {
    match machine.journal().entries.as_slice() {
        [.., entry] => entry.outputs.as_slice(),
        [] => &[],
    }
}

/// A host applies the commands of the log that it has not applied.
pub(crate) fn catch_up(machine: &mut Machine, host: HostId) -> Result<(), Fail> {
    if machine.journal().opening.hosts <= host.0 {
        return Err(Fail::from("no such host"));
    }
    for _ in machine.host(host).applied()..machine.log().len() {
        give(machine, Event::Apply { host })?;
    }
    Ok(())
}

/// Each host applies the commands of the log.
pub(crate) fn catch_up_all(machine: &mut Machine) -> Result<(), Fail> {
    for host in 0..3 {
        catch_up(machine, HostId(host))?;
    }
    Ok(())
}

/// The coordinator looks at the log.
pub(crate) fn look(machine: &mut Machine) -> Result<(), Fail> {
    give(machine, Event::Look { topo: ACTING })?;
    Ok(())
}

/// A host answers what the coordinator asks, or cleans, and the coordinator hears it.
fn answer(machine: &mut Machine, host: HostId, what: What) -> Result<(), Fail> {
    let topo = ACTING;
    let at = give(machine, Event::Ask { topo, host, what })?;
    let event = match what {
        What::Clean(_) => Event::Clean { host, at },
        _ => Event::Answer { host, at },
    };
    let at = give(machine, event)?;
    give(machine, Event::Hear { topo, at })?;
    Ok(())
}

/// A host drains the coordinator's version, and tells it.
fn drain(machine: &mut Machine, host: HostId) -> Result<(), Fail> {
    if machine.journal().opening.hosts <= ACTING.0 {
        return Err(Fail::from("no such host"));
    }
    let version = machine.topo(ACTING).state().version();
    give(machine, Event::Quiet { host, version })?;
    answer(machine, host, What::Drain(version))
}

/// A host pulls the next chunk of a session. Whether it was the last one.
fn pull(machine: &mut Machine, host: HostId, session: Session) -> Result<bool, Fail> {
    let at = give(machine, Event::Pull { host, session })?;
    let Some(Output::Sent(Message::ChunkAsk(ask))) = last_outputs(machine).first() else {
        return Err(Fail::from("nobody is asked for a chunk"));
    };
    let from = ask.to;
    let at = give(machine, Event::Serve { host: from, at })?;
    give(machine, Event::TakeChunk { host, at })?;
    match last_outputs(machine).first() {
        Some(Output::Pulled { .. }) => Ok(true),
        _ => Ok(false),
    }
}

/// A host pulls all of a session, and tells it.
fn stream(machine: &mut Machine, host: HostId, session: Session) -> Result<(), Fail> {
    for _ in 0..8 {
        if pull(machine, host, session)? {
            return answer(machine, host, What::Done(session));
        }
    }
    Err(Fail::from("the pull does not end"))
}

/// What was planned for a session is done.
pub(crate) fn act(machine: &mut Machine, next: Next, session: Session) -> Result<(), Fail> {
    catch_up_all(machine)?;
    match next {
        Next::Barrier(host) => drain(machine, host),
        Next::Stream(host) => stream(machine, host, session),
        Next::Clean(host) => answer(machine, host, What::Clean(session)),
        Next::Ready(host) => answer(machine, host, What::Ready(session)),
        Next::Propose(command) => {
            let topo = ACTING;
            give(machine, Event::Propose { topo, command })?;
            look(machine)
        }
        Next::Nothing => Err(Fail::from("nothing is planned")),
    }
}

/// Whom the last event asks to write or to read, in order.
fn asked_hosts(alloc: Global, machine: &Machine) -> Result<Vec<HostId>, Fail> {
    let mut hosts = Vec::new(alloc);
    for output in last_outputs(machine) {
        match output {
            Output::Sent(Message::Write(ask)) => hosts.push(ask.to.host)?,
            Output::Sent(Message::Read(ask)) => hosts.push(ask.to.host)?,
            _ => {}
        }
    }
    Ok(hosts)
}

/// The reply that the last event gave.
fn last_reply(machine: &Machine) -> Option<Reply> {
    match last_outputs(machine).first() {
        Some(Output::Reply { reply, .. }) => Some(*reply),
        _ => None,
    }
}

/// The lane begins a request at its host's version, and each target serves it and is heard. The reply.
pub(crate) fn request(
    alloc: Global,
    machine: &mut Machine,
    operation: Operation,
) -> Result<Option<Reply>, Fail> {
    if machine.journal().opening.hosts <= ACTING.0 {
        return Err(Fail::from("no such host"));
    }
    let version = machine.version(ACTING);
    let mut at = give(
        machine,
        Event::Begin {
            lane: LANE,
            operation,
            version,
        },
    )?;
    let mut reply = None;
    for host in asked_hosts(alloc, machine)? {
        let served = give(machine, Event::Serve { host, at })?;
        give(
            machine,
            Event::Take {
                lane: LANE,
                at: served,
            },
        )?;
        reply = reply.or(last_reply(machine));
        at.out = at.out.saturating_add(1);
    }
    Ok(reply)
}
