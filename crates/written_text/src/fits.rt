//! What code holds fits the types that code has for it. A specification has numbers and lists of any size in their
//! place, so each call here reads what its contract speaks of.
ghost use Rattle.std.specs.List.{AllByRecursion};
ghost use Rattle.std.specs.Prelude.{◌<◌, ◌^◌};
ghost use Rattle.written_text.specs.Fits.{FitsBody, FitsCell, FitsCommand, FitsEntry, FitsEvent, FitsJournal, FitsOperation, FitsReference, FitsReplica, FitsSigned, FitsTable, FitsWhat};

use barrier_core::What;
use base_ids::{HostId, MsgRef, OpId, Replica, Session, TableId, Version};
use cell_merge::{Body, Cell};
use cluster_history::{Entry, Event, Journal, Operation};
use token_ring::TabletId;
use topo_state::{Command, Table};

/// The number of a table.
fn table_fits(table: &TableId)
    ensures { table.now.0 < 2 ^ 32 }
{
    let _number = table.0;
}

/// The number of a tablet.
fn tablet_fits(tablet: &TabletId)
    ensures { tablet.now.0 < 2 ^ 32 }
{
    let _number = tablet.0;
}

/// The number of a host.
fn host_fits(host: &HostId)
    ensures { host.now.0 < 2 ^ 16 }
{
    let _number = host.0;
}

/// A version.
fn version_fits(version: &Version)
    ensures { version.now.0 < 2 ^ 64 }
{
    let _number = version.0;
}

/// A session.
fn session_fits(session: &Session)
    ensures { session.now.0 < 2 ^ 64 }
{
    let _number = session.0;
}

/// The number of a request.
fn op_fits(op: &OpId)
    ensures { op.now.0 < 2 ^ 64 }
{
    let _number = op.0;
}

/// A reference to a message.
fn reference_fits(at: &MsgRef)
    ensures { FitsReference at.now }
{
    let _event = at.event;
    let _out = at.out;
}

/// A replica.
fn replica_fits(replica: &Replica)
    ensures { FitsReplica replica.now }
{
    let _host = replica.host.0;
    let _shard = replica.shard.0;
}

/// Each replica of a list.
fn replicas_fit(replicas: &[Replica])
    ensures { AllByRecursion FitsReplica replicas.now }
{
    for replica in replicas {
        replica_fits(replica);
    }
}

/// A signed number.
fn signed_fits(number: i64)
    ensures { FitsSigned number }
{}

/// Each byte of a value.
fn bytes_fit(bytes: &[u8])
    ensures { AllByRecursion (λ byte. byte < 256) bytes.now }
{}

/// What a cell stores.
fn body_fits(body: &Body)
    ensures { FitsBody body.now }
{
    match body {
        Body::Live(bytes) => bytes_fit(bytes.as_slice()),
        Body::Dead(time) => {
            let _time = *time;
        }
    }
}

/// A cell.
fn cell_fits(cell: &Cell)
    ensures { FitsCell cell.now }
{
    signed_fits(cell.timestamp);
    body_fits(&cell.body);
}

/// What a client asks.
fn operation_fits(operation: &Operation)
    ensures { FitsOperation operation.now }
{
    match operation {
        Operation::Write { table, cell, .. } => {
            table_fits(table);
            cell_fits(cell);
        }
        Operation::Read { table, .. } => table_fits(table),
    }
}

/// What a coordinator asks.
fn what_fits(what: &What)
    ensures { FitsWhat what.now }
{
    match what {
        What::Drain(version) | What::Fence(version) => version_fits(version),
        What::Done(session) | What::Clean(session) | What::Ready(session) => session_fits(session),
    }
}

/// A command.
fn command_fits(command: &Command)
    ensures { FitsCommand command.now }
{
    match command {
        Command::CreateTable {
            table,
            replicas,
            ..
        } => {
            table_fits(table);
            replicas_fit(replicas.as_slice());
        }
        Command::Start {
            table,
            tablet,
            leaving,
            pending,
        } => {
            table_fits(table);
            tablet_fits(tablet);
            replica_fits(leaving);
            replica_fits(pending);
        }
        Command::Advance { session, .. } => session_fits(session),
        Command::SetFence(version) => version_fits(version),
        Command::Join(host) | Command::Leave(host) => host_fits(host),
        Command::Resize { table, .. } => table_fits(table),
        Command::FinalizeResize { table, seq } => {
            table_fits(table);
            session_fits(seq);
        }
    }
}

/// What an event names beside actors.
fn event_fits(event: &Event)
    ensures { FitsEvent event.now }
{
    match event {
        Event::Begin {
            operation,
            version,
            ..
        } => {
            operation_fits(operation);
            version_fits(version);
        }
        Event::Timeout { op, .. } => op_fits(op),
        Event::Quiet { version, .. } => version_fits(version),
        Event::Pull { session, .. } => session_fits(session),
        Event::Ask { what, .. } => what_fits(what),
        Event::Propose { command, .. } => command_fits(command),
        Event::Take { at, .. }
        | Event::Serve { at, .. }
        | Event::Answer { at, .. }
        | Event::Clean { at, .. }
        | Event::TakeChunk { at, .. }
        | Event::Hear { at, .. } => reference_fits(at),
        Event::Apply { .. } | Event::Look { .. } | Event::Restart { .. } => {}
    }
}

/// Each entry of a list.
fn entries_fit(entries: &[Entry])
    ensures { AllByRecursion FitsEntry entries.now }
{
    for entry in entries {
        event_fits(&entry.event);
    }
}

/// Each table of a list.
fn tables_fit(tables: &[Table])
    ensures { AllByRecursion FitsTable tables.now }
{
    for table in tables {
        table_fits(&table.id);
    }
}

/// Whatever a journal that code holds names fits its type, so that its written form can be read. It reads each entry
/// once, and takes no memory.
pub fn law_journals_fit(journal: &Journal)
    ensures { FitsJournal journal.now }
{
    tables_fit(journal.opening.tables.as_slice());
    entries_fit(journal.entries.as_slice());
}
