//! The repaired reads of a journal.
ghost use Rattle.std.specs.Prelude.{◌≡◌, ◌+◌, ◌<◌, ◌^◌, ◌++◌, ◌∷◌, [], IfOk, OnOk, option_to_list};
ghost use Rattle.base_ids.specs.declared.ids.LaneId.{LaneId};
ghost use Rattle.cluster_history.specs.Legal.{history_of};
ghost use Rattle.overlap_law.specs.Counts.{count_at, IsCounted};
ghost use Rattle.monotone_read.specs.Notes.{written_back, none_read, answered_by, repaired_in};
ghost use Rattle.monotone_read.specs.Kept.{TellsNotes, BeginsNote, answers_by, StateAfter, ListAfter};

use crate::data::{Note, Repaired, RepairedList};
use crate::kept::{Counts, Notes, begun_note};
use base_ids::{Items, LaneId, NoMemory, OpId};
use cell_merge::{Body, Cell};
use cluster_history::{Entry, Event, Journal, Operation, Output};
use quorum_ops::Reply;
use std::alloc::Global;

/// The read that an acknowledged write answers: the one before it, where it is a write back.
fn written_back(lane: LaneId, op: OpId, place: u64, kept: &Option<Note>) -> Option<Repaired>
    ensures { result ≡ written_back lane op place kept.now }
{
    match kept {
        Some(Note::Back(cell)) => Some(Repaired {
            lane,
            op: OpId(op.0.saturating_sub(1)),
            cell: Some(*cell),
            place,
        }),
        _ => None,
    }
}

/// The read that was told none, where it is one by quorum.
fn none_read(lane: LaneId, op: OpId, place: u64, kept: &Option<Note>) -> Option<Repaired>
    ensures { result ≡ none_read lane op place kept.now }
{
    match kept {
        Some(Note::Reading(_)) => Some(Repaired {
            lane,
            op,
            cell: None,
            place,
        }),
        _ => None,
    }
}

/// The read that a reply answers, by what is kept of its request.
fn answered_by(
    lane: LaneId,
    op: OpId,
    place: u64,
    kept: &Option<Note>,
    reply: &Reply,
) -> Option<Repaired>
    ensures { result ≡ answered_by lane op place kept.now reply.now }
{
    match reply {
        Reply::Read(None) => none_read(lane, op, place, kept),
        Reply::Ok => written_back(lane, op, place, kept),
        _ => None,
    }
}

/// Adds a repaired read, where there is one.
fn add(list: &mut RepairedList, read: Option<Repaired>) -> Result<(), NoMemory>
    ensures { OnOk result (list.new ≡ list.old ++ option_to_list read) }
{
    // the types inside a read are named here, so that the check finds them
    let _inside: Option<(&Cell, &Body)> = None;
    match read {
        Some(read) => list.push(read),
        None => Ok(()),
    }
}

/// Adds the read that an output of the lane answers.
fn add_answer(
    notes: &Notes,
    lane: LaneId,
    place: u64,
    output: &Output,
    list: &mut RepairedList,
) -> Result<(), NoMemory>
    ensures { OnOk result (list.new ≡ list.old ++ answers_by notes.now lane place (output.now ∷ [])) }
{
    match output {
        Output::Reply { op, reply, .. } => {
            let kept = notes.get(lane, *op);
            add(list, answered_by(lane, *op, place, &kept, reply))
        }
        _ => Ok(()),
    }
}

/// Adds the reads that the outputs of the lane answer.
fn add_answers(
    notes: &Notes,
    lane: LaneId,
    place: u64,
    outputs: &[Output],
    list: &mut RepairedList,
) -> Result<(), NoMemory>
    ensures { OnOk result (list.new ≡ list.old ++ answers_by notes.now lane place outputs.now) }
{
    match outputs {
        [] => Ok(()),
        [first, rest @ ..] => {
            add_answer(notes, lane, place, first, list)?;
            add_answers(notes, lane, place, rest, list)
        }
    }
}

/// Notes what an output of the lane tells.
fn tell_one(notes: &mut Notes, lane: LaneId, output: &Output) -> Result<(), NoMemory>
    ensures { OnOk result (TellsNotes notes.old notes.new lane (output.now ∷ [])) }
{
    match output {
        Output::Reply {
            op,
            reply: Reply::Read(Some(cell)),
            ..
        } => notes.tell(lane, *op, cell),
        _ => Ok(()),
    }
}

/// Notes what the outputs of the lane tell.
fn tell_all(notes: &mut Notes, lane: LaneId, outputs: &[Output]) -> Result<(), NoMemory>
    ensures { OnOk result (TellsNotes notes.old notes.new lane outputs.now) }
{
    match outputs {
        [] => Ok(()),
        [first, rest @ ..] => {
            tell_one(notes, lane, first)?;
            tell_all(notes, lane, rest)
        }
    }
}

/// Counts and notes a request that begins.
fn begin(
    counts: &mut Counts,
    notes: &mut Notes,
    lane: LaneId,
    operation: &Operation,
) -> Result<(), NoMemory>
    requires { count_at counts.old lane + 1 < 2 ^ 64 }
    ensures counted { OnOk result (IsCounted counts.old counts.new lane) }
    ensures noted { OnOk result (BeginsNote notes.old notes.new lane (count_at counts.old lane) operation.now) }
{
    let before = OpId(counts.get(lane));
    let op = counts.next(lane)?;
    let kept = notes.get(lane, before);
    match begun_note(&kept, operation) {
        Some(note) => notes.set(lane, op, note),
        None => Ok(()),
    }
}

/// Adds the reads that an entry answers, and notes what it begins and tells.
fn add_entry(
    entry: &Entry,
    place: u64,
    counts: &mut Counts,
    notes: &mut Notes,
    list: &mut RepairedList,
) -> Result<(), NoMemory>
    requires { (lane : LaneId) → count_at counts.old lane + 1 < 2 ^ 64 }
    ensures state { OnOk result
        (StateAfter counts.old notes.old entry.now.event entry.now.outputs counts.new notes.new) }
    ensures list { OnOk result (ListAfter notes.old list.old entry.now.event place entry.now.outputs list.new) }
{
    match &entry.event {
        Event::Begin {
            lane,
            operation,
            ..
        } => {
            begin(counts, notes, *lane, operation)?;
            Ok(())
        }
        Event::Take { lane, .. } => {
            add_answers(notes, *lane, place, entry.outputs.as_slice(), list)?;
            tell_all(notes, *lane, entry.outputs.as_slice())
        }
        _ => Ok(()),
    }
}

/// The repaired reads of the journal, in the order of the entries at which they are answered.
pub fn repaired_reads(alloc: Global, journal: &Journal) -> Result<RepairedList, NoMemory>
    ensures { IfOk result (λ list. list ≡ repaired_in (history_of journal.now)) }
{
    let mut list = Items::new(alloc);
    let mut counts = Counts::new(alloc);
    let mut notes = Notes::new(alloc);
    let mut place = 0u64;
    let entries = journal.entries.as_slice();
    for entry in entries {
        place += 1;
        add_entry(entry, place, &mut counts, &mut notes, &mut list)?;
    }
    Ok(list)
}
