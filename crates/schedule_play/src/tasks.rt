//! Tasks: what a shorthand has still to do.
ghost use Rattle.std.specs.Prelude.{◌≡◌, ◌≤◌, ◌++◌, length, reverse, option_copied, option_to_list, OnOk, IfOk};
ghost use Rattle.cluster_history.specs.Held.{has_done};
ghost use Rattle.cluster_history.specs.Legal.{IsLegalRun, history_of};
ghost use Rattle.cluster_history.specs.Openings.{HasHost, HasLane};
ghost use Rattle.cluster_machine.specs.Step.{most_entries};
ghost use Rattle.schedule_play.specs.Fits.{AreFit, IsFitTask, IsFitNext, IsNextOf};
ghost use Rattle.schedule_play.specs.Tasks.{ask_at, asked_by, asked_in, behind, follow_of, is_behind, newest, target_of, turn, written_back};

use base_ids::{HostId, Items, LaneId, MsgRef, NoMemory, OpId, Session, TableId};
use cell_merge::Cell;
use cluster_history::{Event, Message, Operation, Output};
use cluster_machine::Machine;
use host_ties::law_host_pulls;
use quorum_ops::{Follow, follow_up};
use stage_graph::Level;
use token_ring::Token;

/// A target of a request that was begun.
#[derive(Clone, Copy, Debug)]
pub(crate) struct Target {
    /// The lane.
    pub(crate) lane: LaneId,
    /// The number of the entry that began the request.
    pub(crate) begun: u64,
    /// Which target it is, from 0.
    pub(crate) place: u32,
}

/// What a host pulls from another.
#[derive(Clone, Copy, Debug)]
pub(crate) struct Streaming {
    /// The host that pulls.
    pub(crate) host: HostId,
    /// The host that serves.
    pub(crate) from: HostId,
    /// The session.
    pub(crate) session: Session,
}

/// A read whose cell is to be written back.
#[derive(Clone, Copy, Debug)]
pub(crate) struct RepairedRead {
    /// The lane that read.
    pub(crate) lane: LaneId,
    /// The table that was read.
    pub(crate) table: TableId,
    /// The token that was read.
    pub(crate) token: Token,
}

/// What a shorthand has still to do.
#[derive(Debug, Drop)]
pub(crate) enum Task {
    /// This event.
    Play(Event),
    /// A host applies until it has applied the whole log.
    CatchUp(HostId),
    /// A host answers the newest message.
    AnswerNewest(HostId),
    /// A host cleans for the newest message.
    CleanNewest(HostId),
    /// A coordinator hears the newest message.
    HearNewest(HostId),
    /// Each target from this one on serves its ask, and the lane takes the answer, until the request is decided.
    ServeTarget(Target),
    /// The lane takes the newest message, and the targets behind this one follow.
    TakeAnswer(Target),
    /// Where the newest entry's reply is that of a read which found a cell, the lane begins to write it back, and the
    /// targets of that write follow.
    WriteBack(RepairedRead),
    /// A host pulls chunk by chunk until its pull is done.
    PullOn(Streaming),
    /// The other host serves the newest message, and the pull goes on.
    ServeChunk(Streaming),
    /// The host takes the chunk that is the newest message, and the pull goes on.
    TakeNewestChunk(Streaming),
}

/// Tasks one after the other.
pub(crate) type TaskList = Items<Task>;

/// The message that the newest entry sent first.
fn newest(machine: &Machine) -> MsgRef
    ensures { result ≡ newest machine.now }
{
    MsgRef {
        event: machine.journal().entries.as_slice().len() as u64,
        out: 0,
    }
}

/// Whether a host has not applied the whole log.
fn is_behind(machine: &Machine, host: HostId) -> bool
    requires { HasHost machine.now.opening host }
    ensures { result ≡ is_behind machine.now host }
{
    machine.host(host).applied() < machine.log().len()
}

/// Whether a host has pulled all of a session.
fn has_done(machine: &Machine, host: HostId, session: Session) -> bool
    requires { HasHost machine.now.opening host }
    ensures { result ≡ has_done machine.now.opening (history_of machine.now) host session }
{
    law_host_pulls();
    machine.host(host).has_done(session)
}

/// The number of the request that a message asks for, and the host that it asks.
fn asked_in(message: &Message) -> Option<(OpId, HostId)>
    ensures { result ≡ asked_in message.now }
{
    match message {
        Message::Write(ask) => Some((ask.op, ask.to.host)),
        Message::Read(ask) => Some((ask.op, ask.to.host)),
        Message::Answer(_)
        | Message::ChunkAsk(_)
        | Message::Chunk(_)
        | Message::Ask(_)
        | Message::Fact(_)
        | Message::NotMine { .. } => None,
    }
}

/// The same of an output, if there is one.
fn asked_by(output: Option<&Output>) -> Option<(OpId, HostId)>
    ensures { result ≡ asked_by (option_copied output.entry) }
{
    match output {
        Some(Output::Sent(message)) => asked_in(message),
        Some(Output::Reply { .. }) | Some(Output::Pulled { .. }) | Some(Output::Proposed(_)) =>
            None,
        None => None,
    }
}

/// The next event of a pull, as long as it is not done.
fn pull_turn(machine: &Machine, pull: Streaming) -> Option<(Event, Option<Task>)>
    requires { HasHost machine.now.opening pull.host }
    ensures { result ≡ turn machine.now (Task.PullOn pull) }
{
    let Streaming { host, session, .. } = pull;
    if has_done(machine, host, session) {
        None
    } else {
        Some((Event::Pull { host, session }, Some(Task::ServeChunk(pull))))
    }
}

/// The ask of a target.
fn ask_at(target: Target) -> MsgRef
    ensures { result ≡ ask_at target }
{
    MsgRef {
        event: target.begun,
        out: target.place,
    }
}

/// The target behind this one.
fn behind(target: Target) -> Target
    requires { target.place ≤ most_entries }
    ensures { result ≡ behind target }
{
    Target {
        lane: target.lane,
        begun: target.begun,
        place: target.place + 1,
    }
}

/// The host of a target, where there is such a target and the request is not decided.
fn target_of(machine: &Machine, target: Target) -> Option<HostId>
    requires { HasLane machine.now.opening target.lane }
    ensures { result ≡ target_of machine.now target }
{
    let (op, host) = asked_by(machine.output_at(ask_at(target)))?;
    if machine.is_live(target.lane, op) {
        Some(host)
    } else {
        None
    }
}

/// What follows an output of a read: nothing where it is no reply.
fn follow_of(output: Option<&Output>) -> Follow
    ensures { result ≡ follow_of (option_copied output.entry) }
{
    match output {
        Some(Output::Reply { reply, .. }) => follow_up(reply),
        Some(Output::Sent(_)) | Some(Output::Pulled { .. }) | Some(Output::Proposed(_)) => {
            Follow::Ended
        }
        None => Follow::Ended,
    }
}

/// The write of the cell that a read found.
fn written_back(read: RepairedRead, cell: &Cell) -> Operation
    ensures { result ≡ written_back read cell.now }
{
    Operation::Write {
        table: read.table,
        token: read.token,
        cell: *cell,
        level: Level::Quorum,
    }
}

/// The begin of the write that repairs a read, with its targets behind it, where the read found a cell.
fn write_back_turn(machine: &Machine, read: RepairedRead) -> Option<(Event, Option<Task>)>
    requires { HasLane machine.now.opening read.lane }
    ensures { result ≡ turn machine.now (Task.WriteBack read) }
{
    match follow_of(machine.output_at(newest(machine))) {
        Follow::WriteBack(ref cell) => {
            let lane = read.lane;
            let operation = written_back(read, cell);
            let version = machine.version(lane.host);
            let begun = machine.journal().entries.as_slice().len() as u64 + 1;
            Some((
                Event::Begin {
                    lane,
                    operation,
                    version,
                },
                Some(Task::ServeTarget(Target {
                    lane,
                    begun,
                    place: 0,
                })),
            ))
        }
        Follow::Answered | Follow::Ended => None,
    }
}

/// The next event of a task, and what is then left of the task; `None` where nothing is left of it.
fn turn(machine: &Machine, first: Task) -> Option<(Event, Option<Task>)>
    requires fit { IsFitTask machine.now.opening (length machine.now.entries) first }
    requires within { length machine.now.entries ≤ most_entries }
    ensures turn { result ≡ turn machine.now first }
    ensures legal { IsLegalRun machine.now }
{
    let at = newest(machine);
    let _journal = machine.journal();
    match first {
        Task::Play(event) => Some((event, None)),
        Task::CatchUp(host) => {
            if is_behind(machine, host) {
                Some((Event::Apply { host }, Some(Task::CatchUp(host))))
            } else {
                None
            }
        }
        Task::AnswerNewest(host) => Some((Event::Answer { host, at }, None)),
        Task::CleanNewest(host) => Some((Event::Clean { host, at }, None)),
        Task::HearNewest(topo) => Some((Event::Hear { topo, at }, None)),
        Task::ServeTarget(target) => {
            let host = target_of(machine, target)?;
            let at = ask_at(target);
            Some((Event::Serve { host, at }, Some(Task::TakeAnswer(target))))
        }
        Task::TakeAnswer(target) => {
            let lane = target.lane;
            Some((
                Event::Take { lane, at },
                Some(Task::ServeTarget(behind(target))),
            ))
        }
        Task::WriteBack(read) => write_back_turn(machine, read),
        Task::PullOn(pull) => pull_turn(machine, pull),
        Task::ServeChunk(pull) => {
            let host = pull.from;
            Some((Event::Serve { host, at }, Some(Task::TakeNewestChunk(pull))))
        }
        Task::TakeNewestChunk(pull) => {
            let host = pull.host;
            Some((Event::TakeChunk { host, at }, Some(Task::PullOn(pull))))
        }
    }
}

/// Puts what is left of a task back.
fn put_back(left: &mut TaskList, later: Option<Task>) -> Result<(), NoMemory>
    ensures { OnOk result (left.new ≡ left.old ++ option_to_list later) }
{
    match later {
        Some(later) => left.push(later),
        None => Ok(()),
    }
}

/// The next event of tasks, whose next one stands at the end; `None` where nothing is left of them.
pub(crate) fn next(machine: &Machine, left: &mut TaskList) -> Result<Option<Event>, NoMemory>
    requires fit { AreFit machine.now.opening (length machine.now.entries) (reverse left.old) }
    requires within { length machine.now.entries ≤ most_entries }
    ensures next { IfOk result (λ event. IsNextOf machine.now (reverse left.old) event (reverse left.new)) }
    ensures fit { IfOk result (λ event. IsFitNext machine.now event (reverse left.new)) }
{
    while let Some(first) = left.pop() {
        match turn(machine, first) {
            Some((event, later)) => {
                put_back(left, later)?;
                return Ok(Some(event));
            }
            None => {}
        }
    }
    Ok(None)
}
