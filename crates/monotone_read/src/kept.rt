//! What is kept of requests while a journal is read.
ghost use Rattle.std.specs.Prelude.{◌≡◌, ◌+◌, ◌<◌, ◌^◌, [], Some, IfOk, OnOk};
ghost use Rattle.cluster_history.specs.declared.data.Operation.{Operation};
ghost use Rattle.overlap_law.specs.Counts.{count_at, next_number, IsCounted};
ghost use Rattle.monotone_read.specs.Notes.{same_write, back_note, begun_note};
ghost use Rattle.monotone_read.specs.Kept.{note_at, SetsNote, TellsNote};

use crate::data::Note;
use base_ids::{LaneId, NoMemory, OpId};
use cell_merge::{Body, Cell};
use cluster_history::Operation;
use register_model::{Key, Request};
use stage_graph::Level;
use std::alloc::Global;
use std::collections::BTreeMap;
use std::marker::Model;

/// How many requests each lane has begun.
#[derive(Drop)]
pub(crate) struct Counts {
    counts: BTreeMap<LaneId, u64>,
}

impl Model for Counts {
    ghost use Rattle.std.specs.Prelude.{ℕ, List};
    ghost use Rattle.base_ids.specs.declared.ids.LaneId.{LaneId};

    ghost Value = { List (LaneId × ℕ) };

    ghost view = { λ c. c.counts.entries };
}

impl Counts {
    /// No lane has begun a request.
    pub(crate) fn new(alloc: Global) -> Counts
        ensures { result ≡ [] }
    {
        Counts {
            counts: BTreeMap::new(alloc),
        }
    }

    /// How many requests the lane has begun.
    pub(crate) fn get(&self, lane: LaneId) -> u64
        ensures { result ≡ count_at self.now lane }
    {
        match self.counts.get(&lane) {
            Some(count) => *count,
            None => 0,
        }
    }

    /// The number of the lane's next request, which is then counted.
    pub(crate) fn next(&mut self, lane: LaneId) -> Result<OpId, NoMemory>
        requires { count_at self.old lane + 1 < 2 ^ 64 }
        ensures number { IfOk result (λ op. op ≡ next_number self.old lane) }
        ensures counted { OnOk result (IsCounted self.old self.new lane) }
    {
        let number = self.get(lane) + 1;
        self.counts.insert(lane, number)?;
        Ok(OpId(number))
    }
}

/// What is kept of each request.
#[derive(Drop)]
pub(crate) struct Notes {
    notes: BTreeMap<Request, Note>,
}

impl Model for Notes {
    ghost use Rattle.std.specs.Prelude.{List};
    ghost use Rattle.register_model.specs.declared.data.Request.{Request};
    ghost use Rattle.monotone_read.specs.declared.data.Note.{Note};

    ghost Value = { List (Request × Note) };

    ghost view = { λ n. n.notes.entries };
}

impl Notes {
    /// Nothing is kept.
    pub(crate) fn new(alloc: Global) -> Notes
        ensures { result ≡ [] }
    {
        Notes {
            notes: BTreeMap::new(alloc),
        }
    }

    /// What is kept of the request.
    pub(crate) fn get(&self, lane: LaneId, op: OpId) -> Option<Note>
        ensures { result ≡ note_at self.now lane op }
    {
        self.notes.get(&Request { lane, op }).copied()
    }

    /// This is kept of the request from now on.
    pub(crate) fn set(&mut self, lane: LaneId, op: OpId, note: Note) -> Result<(), NoMemory>
        ensures { OnOk result (SetsNote self.old self.new lane op note) }
    {
        // the types inside a note are named here, so that the check finds them
        let _inside: Option<(&Key, &Cell, &Body)> = None;
        self.notes.insert(Request { lane, op }, note)?;
        Ok(())
    }

    /// A read was told a cell.
    pub(crate) fn tell(&mut self, lane: LaneId, op: OpId, cell: &Cell) -> Result<(), NoMemory>
        ensures { OnOk result (TellsNote self.old self.new lane op cell.now) }
    {
        if let Some(Note::Reading(key)) = self.get(lane, op) {
            self.set(lane, op, Note::Found(key, *cell))?;
        }
        Ok(())
    }
}

/// What is noted of a write, by what is kept of the request before it: whether it writes back what that was told.
fn back_note(before: &Option<Note>, key: Key, cell: &Cell) -> Option<Note>
    ensures { result ≡ back_note before.now key cell.now }
{
    match before {
        Some(Note::Found(found, told)) => {
            if is_same_write(*found, told, key, cell) {
                Some(Note::Back(*cell))
            } else {
                None
            }
        }
        _ => None,
    }
}

/// What is noted of a request that begins: nothing where it is not by quorum.
pub(crate) fn begun_note(before: &Option<Note>, operation: &Operation) -> Option<Note>
    ensures { result ≡ begun_note before.now (Some operation.now) }
{
    match operation {
        Operation::Read {
            table,
            token,
            level: Level::Quorum,
        } => Some(Note::Reading(Key {
            table: *table,
            token: *token,
        })),
        Operation::Write {
            table,
            token,
            cell,
            level: Level::Quorum,
        } => back_note(
            before,
            Key {
                table: *table,
                token: *token,
            },
            cell,
        ),
        _ => None,
    }
}

/// Whether two writes write one cell to one key.
fn is_same_write(a: Key, cell: &Cell, b: Key, other: &Cell) -> bool
    ensures { result ≡ same_write a cell.now b other.now }
{
    a == b && Cell::compare(cell, other).is_eq()
}
