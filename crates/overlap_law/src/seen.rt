// The client events of a journal.
ghost use Rattle.std.specs.Prelude.{◌≡◌, ◌+◌, ◌<◌, ◌^◌, ◌++◌, ◌∷◌, [], IfOk, IfSome, OnOk, if◌then◌else◌};
ghost use Rattle.base_ids.specs.declared.ids.LaneId.{LaneId};
ghost use Rattle.base_ids.specs.Names.{same_lane};
ghost use Rattle.cluster_history.specs.History.{History};
ghost use Rattle.cluster_history.specs.Legal.{IsLegalHistory, IsLegalRun, history_of};
ghost use Rattle.cluster_history.specs.Messages.{key_of};
ghost use Rattle.cluster_history.specs.Openings.{IsValidOpening, opening_state};
ghost use Rattle.cluster_history.specs.Topology.{accepted_command};
ghost use Rattle.topo_state.specs.Views.{view};
ghost use Rattle.overlap_law.specs.ClientEvents.{named_request, reply_event, reply_events, seen_of, client_events};
ghost use Rattle.overlap_law.specs.Counts.{CanFollow, IsCounted, IsCountedEntry, IsSeenOf, IsSize, accepted_index, asked_size, blind_by, count_at, is_answered, next_begin, next_number, size_of, sized_begin, strength_by, with_accepted};

use base_ids::{Appended, Items, LaneId, NoMemory, OpId, TableId};
use cell_merge::{Body, Cell};
use cluster_history::{Entry, Event, Journal, Opening, Operation, Output};
use quorum_ops::Reply;
use register_model::{ClientEvent, ClientEventList, Key, Request};
use stage_graph::{Level, base};
use std::alloc::Global;
use std::collections::BTreeMap;
use std::marker::Model;
use token_ring::{Token, tablet_of};
use topo_state::{Table, TableList, TopoState};

/// How many requests each lane has begun.
#[derive(Drop)]
struct Counts {
    counts: BTreeMap<LaneId, u64>,
}

impl Model for Counts {
    ghost use Rattle.std.specs.Prelude.{ℕ, List};
    ghost use Rattle.base_ids.specs.declared.ids.LaneId.{LaneId};

    ghost Value = { List (LaneId × ℕ) };

    ghost view = { λ c. c.counts.entries };
}

impl Counts {
    /// No lane has begun a request.
    fn new(alloc: Global) -> Counts
        ensures { result ≡ [] }
    {
        Counts {
            counts: BTreeMap::new(alloc),
        }
    }

    /// How many requests the lane has begun.
    fn get(&self, lane: LaneId) -> u64
        ensures { result ≡ count_at self.now lane }
    {
        match self.counts.get(&lane) {
            Some(count) => *count,
            None => 0,
        }
    }

    /// The number of the lane's next request, which is then counted.
    fn next(&mut self, lane: LaneId) -> Result<OpId, NoMemory>
        requires { count_at self.old lane + 1 < 2 ^ 64 }
        ensures number { IfOk result (λ op. op ≡ next_number self.old lane) }
        ensures counted { OnOk result (IsCounted self.old self.new lane) }
    {
        let number = self.get(lane) + 1;
        self.counts.insert(lane, number)?;
        Ok(OpId(number))
    }
}

/// How strong a write of the level is, where its tablet has so many replicas.
fn strength_by(level: Level, size: Option<u8>) -> u8
    requires { IfSome size IsSize }
    ensures { result ≡ strength_by level size }
{
    match size {
        None => 0,
        Some(n) => base(level, n),
    }
}

/// What a read of the level is blind to, where its tablet has so many replicas.
fn blind_by(level: Level, size: Option<u8>) -> u8
    requires { IfSome size IsSize }
    ensures { result ≡ blind_by level size }
{
    match size {
        None => 0,
        Some(n) => n.saturating_sub(base(level, n)),
    }
}

/// What a client does that begins a request, where its tablet has so many replicas.
fn sized_begin(request: Request, operation: &Operation, size: Option<u8>) -> ClientEvent
    requires { IfSome size IsSize }
    ensures { result ≡ sized_begin request operation.now size }
{
    match operation {
        Operation::Write {
            table,
            token,
            cell,
            level,
        } => ClientEvent::WriteBegun {
            request,
            key: Key {
                table: *table,
                token: *token,
            },
            cell: *cell,
            strength: strength_by(*level, size),
        },
        Operation::Read {
            table,
            token,
            level,
        } => ClientEvent::ReadBegun {
            request,
            key: Key {
                table: *table,
                token: *token,
            },
            blind: blind_by(*level, size),
        },
    }
}

/// How many replicas the tablet of a key has. `None` where the table is not there.
fn size_in(state: &TopoState, table: TableId, token: Token) -> Option<u8>
    ensures size { result ≡ size_of (view state.now table token.value) }
    ensures within { IfSome result IsSize }
{
    let found = state.table(table)?;
    let tablet = tablet_of(found.map.log2(), token);
    Some(found.map.replicas(tablet).len() as u8)
}

/// That of the key of an operation.
fn key_size(state: &TopoState, operation: &Operation) -> Option<u8>
    ensures size { result ≡ size_of (view state.now (key_of operation.now).table (key_of operation.now).token.value) }
    ensures within { IfSome result IsSize }
{
    match operation {
        Operation::Write { table, token, .. } => size_in(state, *table, *token),
        Operation::Read { table, token, .. } => size_in(state, *table, *token),
    }
}

/// Whether the outputs of a begin answer it at once.
fn is_answered(outputs: &[Output]) -> bool
    ensures { result ≡ is_answered outputs.now }
{
    match outputs {
        [Output::Reply { .. }, ..] => true,
        _ => false,
    }
}

/// How many replicas the tablet of a request's key has, where it is not answered at once.
fn asked_size(state: &TopoState, operation: &Operation, outputs: &[Output]) -> Option<u8>
    ensures size { result ≡ asked_size state.now operation.now outputs.now }
    ensures within { IfSome result IsSize }
{
    if is_answered(outputs) {
        None
    } else {
        key_size(state, operation)
    }
}

/// What a reply means to its client.
fn reply_event(request: Request, reply: &Reply) -> ClientEvent
    ensures { result ≡ reply_event request reply.now }
{
    match reply {
        Reply::Ok => ClientEvent::WriteAcked { request },
        Reply::Read(cell) => ClientEvent::ReadOk {
            request,
            cell: *cell,
        },
        Reply::Stale { .. } | Reply::Timeout { .. } | Reply::NoTable | Reply::NotMember => {
            ClientEvent::Ended { request }
        }
    }
}

/// Adds one event.
fn add(seen: &mut ClientEventList, event: ClientEvent) -> Result<(), NoMemory>
    ensures { OnOk result (seen.new ≡ seen.old ++ event ∷ []) }
{
    // The check wants the types inside an event named in a function that moves one.
    let _inside: Option<(&Cell, &Body)> = None;
    seen.push(event)
}

/// Adds what clients see of one output of a lane.
fn add_output(lane: LaneId, output: &Output, seen: &mut ClientEventList) -> Result<(), NoMemory>
    ensures { OnOk result (seen.new ≡ seen.old ++ reply_events lane (output.now ∷ [])) }
{
    match output {
        Output::Reply { op, reply, .. } => {
            add(seen, reply_event(Request { lane, op: *op }, reply))
        }
        _ => Ok(()),
    }
}

/// Adds what clients see of a lane's outputs.
fn add_replies(lane: LaneId, outputs: &[Output], seen: &mut ClientEventList) -> Result<(), NoMemory>
    ensures { OnOk result (seen.new ≡ seen.old ++ reply_events lane outputs.now) }
{
    for output in outputs {
        add_output(lane, output, seen)?;
    }
    Ok(())
}

/// Adds that a lane's next request begins, and counts it.
fn add_begin(
    lane: LaneId,
    operation: &Operation,
    size: Option<u8>,
    counts: &mut Counts,
    seen: &mut ClientEventList,
) -> Result<(), NoMemory>
    requires number { count_at counts.old lane + 1 < 2 ^ 64 }
    requires size { IfSome size IsSize }
    ensures events { OnOk result (seen.new ≡ seen.old ++ next_begin counts.old lane operation.now size ∷ []) }
    ensures counted { OnOk result (IsCounted counts.old counts.new lane) }
{
    let op = counts.next(lane)?;
    add(seen, sized_begin(Request { lane, op }, operation, size))
}

/// Adds what clients see of an entry, and counts the request that it begins.
fn add_entry(
    entry: &Entry,
    state: &TopoState,
    counts: &mut Counts,
    seen: &mut ClientEventList,
) -> Result<(), NoMemory>
    requires { (lane : LaneId) → count_at counts.old lane + 1 < 2 ^ 64 }
    ensures events { OnOk result (IsSeenOf counts.old state.now entry.now seen.old seen.new) }
    ensures counted { OnOk result (IsCountedEntry entry.now counts.old counts.new) }
{
    match &entry.event {
        Event::Begin {
            lane,
            operation,
            ..
        } => {
            let size = asked_size(state, operation, entry.outputs.as_slice());
            add_begin(*lane, operation, size, counts, seen)?;
            add_replies(*lane, entry.outputs.as_slice(), seen)
        }
        Event::Take { lane, .. } | Event::Timeout { lane, .. } => {
            add_replies(*lane, entry.outputs.as_slice(), seen)
        }
        _ => Ok(()),
    }
}

/// The state goes on with the command that an entry adds to the log, where it adds one.
fn follow(alloc: Global, entry: &Entry, state: &mut TopoState) -> Result<(), NoMemory>
    requires { CanFollow state.old (accepted_command entry.now.event entry.now.outputs) }
    ensures { OnOk result (state.new ≡ with_accepted state.old
        (accepted_command entry.now.event entry.now.outputs)
        (accepted_index entry.now.outputs)) }
{
    if let Event::Propose { command, .. } = &entry.event {
        if let [Output::Proposed(Appended::Accepted { index }), ..] = entry.outputs.as_slice() {
            state.apply(alloc, command, *index)?;
        }
    }
    Ok(())
}

/// Equal tables.
fn clones(alloc: Global, tables: &[Table]) -> Result<TableList, NoMemory>
    ensures { IfOk result (λ copies. copies ≡ tables.now) }
{
    let mut copies = Items::new(alloc);
    'tables: for table in tables {
        copies.push(table.clone_in(alloc)?)?;
    }
    Ok(copies)
}

/// The topology at the opening.
fn first_state(alloc: Global, opening: &Opening) -> Result<TopoState, NoMemory>
    requires { IsValidOpening opening.now }
    ensures { IfOk result (λ state. state ≡ opening_state opening.now) }
{
    let members = opening.members.clone_in(alloc)?;
    let tables = clones(alloc, opening.tables.as_slice())?;
    TopoState::new(alloc, opening.hosts, opening.shards, members, tables)
}

/// What clients saw of a journal with a valid opening, in order.
fn all_events(alloc: Global, journal: &Journal) -> Result<ClientEventList, NoMemory>
    requires valid { IsValidOpening journal.now.opening }
    requires legal { IsLegalHistory journal.now.opening (history_of journal.now) }
    ensures { IfOk result (λ events. events ≡ client_events journal.now) }
{
    let mut seen = Items::new(alloc);
    let mut counts = Counts::new(alloc);
    let mut state = first_state(alloc, &journal.opening)?;
    let entries = journal.entries.as_slice();
    for entry in entries {
        add_entry(entry, &state, &mut counts, &mut seen)?;
        follow(alloc, entry, &mut state)?;
    }
    Ok(seen)
}

/// What clients saw of a legal run, in order: each request that began, and what clients were told. It goes through the
/// entries once, and keeps one state of the topology along them. `NoMemory` comes where memory for that is refused.
pub fn client_events(alloc: Global, journal: &Journal) -> Result<ClientEventList, NoMemory>
    requires { IsLegalRun journal.now }
    ensures { IfOk result (λ events. events ≡ client_events journal.now) }
{
    if journal.entries.as_slice().is_empty() {
        return Ok(Items::new(alloc));
    }
    all_events(alloc, journal)
}
