//! What an event gives to its actor.
ghost use Rattle.std.specs.Prelude.{◌≡◌, ◌+◌, ◌<◌, ◌-◌, ◌^◌, IfOk, None, Option, Some, option_copied, option_map, reverse};
ghost use Rattle.topo_state.specs.State.{Topology};
ghost use Rattle.cluster_history.specs.Held.{chunk_in};
ghost use Rattle.cluster_history.specs.History.{message_at};
ghost use Rattle.host_core.specs.declared.data.HostInput.{HostInput};
ghost use Rattle.host_ties.specs.HostTies.{ask_in, host_input, served_input};
ghost use Rattle.lane_core.specs.declared.data.LaneInput.{LaneInput};
ghost use Rattle.lane_ties.specs.LaneTies.{begin_input, take_input};
ghost use Rattle.topo_ties.specs.TopoTies.{heard_input};
ghost use Rattle.group0_log.specs.Log.{command_at};
ghost use Rattle.cluster_machine.specs.Inputs.{host_input_by, lane_input_by, topo_input_by};
ghost use Rattle.snapshot_log.specs.First.{first_with};

use crate::lookup::message_at;
use barrier_core::Ask;
use base_ids::{NoMemory, Version};
use cluster_history::{Entry, Event, Message, Operation};
use group0_log::Log;
use host_core::HostInput;
use lane_core::LaneInput;
use meta_snap::Snapshot;
use shared_value::Shared;
use snapshot_log::SnapshotLog;
use std::alloc::Global;
use topo_coord::TopoInput;

/// The next command that a host applies, after so many.
fn apply_input(log: &Log, applied: u64) -> Result<Option<HostInput>, NoMemory>
    requires { applied < 2 ^ 64 - 1 }
    ensures { IfOk result (λ input. input ≡ option_map HostInput.Apply (command_at log.now.commands (applied + 1))) }
{
    match log.entry(applied + 1) {
        None => Ok(None),
        Some(command) => Ok(Some(HostInput::Apply(command.share()?))),
    }
}

/// The input of a message that a host serves.
fn served_input(message: Option<&Message>) -> Option<HostInput>
    ensures { result ≡ served_input (option_copied message.entry) }
{
    match message {
        Some(Message::Write(ask)) => Some(HostInput::Write(*ask)),
        Some(Message::Read(ask)) => Some(HostInput::Read(*ask)),
        Some(Message::ChunkAsk(ask)) => Some(HostInput::SendChunk(*ask)),
        _ => None,
    }
}

/// A coordinator's ask in a message.
fn ask_in(message: Option<&Message>) -> Option<Ask>
    ensures { result ≡ ask_in (option_copied message.entry) }
{
    match message {
        Some(Message::Ask(ask)) => Some(*ask),
        _ => None,
    }
}

/// The chunk in a message, as a host takes it.
fn chunk_input(message: Option<&Message>) -> Result<Option<HostInput>, NoMemory>
    ensures { IfOk result (λ input. input ≡ option_map HostInput.TakeChunk (chunk_in (option_copied message.entry))) }
{
    match message {
        Some(Message::Chunk(chunk)) => Ok(Some(HostInput::TakeChunk(chunk.share()?))),
        _ => Ok(None),
    }
}

/// What an event gives to a host that has applied so many commands; nothing where it is no event of a host, or a
/// restart.
pub(crate) fn host_input(
    entries: &[Entry],
    log: &Log,
    applied: u64,
    event: &Event,
) -> Result<Option<HostInput>, NoMemory>
    requires { applied < 2 ^ 64 - 1 }
    ensures { IfOk result (λ input. input ≡ host_input_by log.now.commands applied (reverse entries.now) event.now) }
{
    match event {
        Event::Apply { .. } => apply_input(log, applied),
        Event::Quiet { version, .. } => Ok(Some(HostInput::Quiet(*version))),
        Event::Serve { at, .. } => Ok(served_input(message_at(entries, *at))),
        Event::Answer { at, .. } => Ok(ask_in(message_at(entries, *at)).map(HostInput::Answer)),
        Event::Clean { at, .. } => Ok(ask_in(message_at(entries, *at)).map(HostInput::Clean)),
        Event::Pull { session, .. } => Ok(Some(HostInput::Pull(*session))),
        Event::TakeChunk { at, .. } => chunk_input(message_at(entries, *at)),
        _ => Ok(None),
    }
}

/// The input of a begin with the topology that the request uses.
fn begin_with(operation: &Operation, snapshot: Shared<Snapshot>) -> LaneInput
    ensures { result ≡ begin_input operation.now snapshot }
{
    match operation {
        Operation::Write {
            table,
            token,
            cell,
            level,
        } => LaneInput::Write {
            table: *table,
            token: *token,
            cell: *cell,
            level: *level,
            snapshot,
        },
        Operation::Read {
            table,
            token,
            level,
        } => LaneInput::Read {
            table: *table,
            token: *token,
            level: *level,
            snapshot,
        },
    }
}

/// The input of a begin at a version.
fn begin_input(
    log: &SnapshotLog,
    operation: &Operation,
    version: Version,
) -> Result<Option<LaneInput>, NoMemory>
    ensures { IfOk result (λ input. input ≡ option_map (begin_input operation.now) (first_with log.now version)) }
{
    match log.snapshot(version) {
        None => Ok(None),
        Some(snapshot) => {
            let shared = snapshot.share()?;
            Ok(Some(begin_with(operation, shared)))
        }
    }
}

/// The answer in a message.
fn take_input(message: Option<&Message>) -> Option<LaneInput>
    ensures { result ≡ take_input (option_copied message.entry) }
{
    match message {
        Some(Message::Answer(answer)) => Some(LaneInput::Take(*answer)),
        _ => None,
    }
}

/// What an event gives to a lane; nothing where it is no event of a lane, or a restart.
pub(crate) fn lane_input(
    entries: &[Entry],
    log: &SnapshotLog,
    event: &Event,
) -> Result<Option<LaneInput>, NoMemory>
    ensures { IfOk result (λ input. input ≡ lane_input_by log.now (reverse entries.now) event.now) }
{
    match event {
        Event::Begin {
            operation,
            version,
            ..
        } => begin_input(log, operation, *version),
        Event::Take { at, .. } => Ok(take_input(message_at(entries, *at))),
        Event::Timeout { op, .. } => Ok(Some(LaneInput::Timeout(*op))),
        _ => Ok(None),
    }
}

/// What a coordinator hears in a message.
fn heard_input(message: Option<&Message>) -> Option<TopoInput>
    ensures { result ≡ heard_input (option_copied message.entry) }
{
    match message {
        Some(Message::Fact(fact)) => Some(TopoInput::Hear(*fact)),
        Some(Message::NotMine { .. }) => Some(TopoInput::HearNotMine),
        _ => None,
    }
}

/// What an event gives to a coordinator; nothing where it is no event of a coordinator, a proposal or a restart.
pub(crate) fn topo_input(
    alloc: Global,
    entries: &[Entry],
    log: &Log,
    event: &Event,
) -> Result<Option<TopoInput>, NoMemory>
    ensures { IfOk result (λ input. input ≡ topo_input_by log.now (reverse entries.now) event.now) }
{
    match event {
        Event::Look { .. } => Ok(Some(TopoInput::Look {
            len: log.len(),
            state: log.state().clone_in(alloc)?,
        })),
        Event::Ask { host, what, .. } => Ok(Some(TopoInput::Ask {
            to: *host,
            what: *what,
        })),
        Event::Hear { at, .. } => Ok(heard_input(message_at(entries, *at))),
        _ => Ok(None),
    }
}
