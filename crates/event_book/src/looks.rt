//! Turns that append nothing, over a seat of the table.
ghost use Rattle.std.specs.Prelude.{◌≡◌, ◌<◌, ◌≤◌, ◌∷◌, [], length, IfOk, IfSome, IsSome};
ghost use Rattle.base_ids.specs.declared.ids.Actor.TheVariants.{Lane as ByLane};
ghost use Rattle.base_ids.specs.declared.ids.LaneId.{LaneId};
ghost use Rattle.book_rule.specs.Notes.{count_of};
ghost use Rattle.book_rule.specs.Turns.{Written};
ghost use Rattle.book_rule.specs.Seats.{IsFree, Looks, known_in, message_at};

use crate::plays::{TableSeat, Words};
use crate::turn::{begin_turn, end_turn};
use base_ids::{MsgRef, NoMemory, Version};
use book_rule::World;
use shared_value::Shared;
use std::sync::Wait;

/// A copy of a message, by the journal that is in hand.
fn message_in_hand<W: World>(
    table: &Words<W>,
    seat: &mut TableSeat<W>,
    at: MsgRef,
) -> Result<Option<W::Message>, NoMemory>
    requires seat { seat.old.table_id ≡ table.now.table_id }
    requires hand { (written : Written W W.Entry) × (seat.old.me.1 ≡ (0, written) ∷ []) }
    ensures same { (seat.new.table_id ≡ seat.old.table_id) × (seat.new.id ≡ seat.old.id) × (seat.new.me ≡ seat.old.me) }
    ensures hand { (written : Written W W.Entry) × (seat.old.me.1 ≡ (0, written) ∷ []) ×
        IfOk result
        (λ message. message ≡ message_at W.meaning written.history at) }
{
    let journal = seat.slot_mut(table, 0);
    journal.message(at)
}

/// A copy of a message, by the history at this seat's turn.
pub(crate) fn message_seen<W: World, R: Wait>(
    table: &Words<W>,
    rt: &R,
    seat: &mut TableSeat<W>,
    at: MsgRef,
) -> Result<Option<W::Message>, NoMemory>
    requires table { 1 < table.now.table_id.words }
    requires seat { seat.old.table_id ≡ table.now.table_id }
    requires free { IsFree W.meaning seat.old.me }
    ensures same { (seat.new.table_id ≡ seat.old.table_id) × (seat.new.id ≡ seat.old.id) }
    ensures free { IsFree W.meaning seat.new.me }
    ensures told { Looks W.meaning (known_in W.meaning seat.old.me) (known_in W.meaning seat.new.me) }
    ensures message { let seen = (known_in W.meaning seat.new.me).seen in
        IfOk result (λ message. message ≡ message_at W.meaning seen at) }
    ensures there { let seen = (known_in W.meaning seat.new.me).seen in
        IfOk result (λ message. IfSome message (λ _. at.event ≤ length seen)) }
{
    begin_turn(table, rt, seat);
    let answer = message_in_hand(table, seat, at);
    end_turn(table, seat);
    answer
}

/// A copy of a command of the log, by the journal that is in hand.
fn command_in_hand<W: World>(
    table: &Words<W>,
    seat: &mut TableSeat<W>,
    n: u64,
) -> Result<Option<Shared<W::Command>>, NoMemory>
    requires seat { seat.old.table_id ≡ table.now.table_id }
    requires hand { (written : Written W W.Entry) × (seat.old.me.1 ≡ (0, written) ∷ []) }
    ensures same { (seat.new.table_id ≡ seat.old.table_id) × (seat.new.id ≡ seat.old.id) × (seat.new.me ≡ seat.old.me) }
    ensures hand { (written : Written W W.Entry) × (seat.old.me.1 ≡ (0, written) ∷ []) ×
        IfOk result
        (λ command. command ≡ W.meaning.command_at (W.meaning.commands written.world) n) }
{
    let journal = seat.slot_mut(table, 0);
    journal.command(n)
}

/// A copy of a command of the log, by the history at this seat's turn.
pub(crate) fn command_seen<W: World, R: Wait>(
    table: &Words<W>,
    rt: &R,
    seat: &mut TableSeat<W>,
    n: u64,
) -> Result<Option<Shared<W::Command>>, NoMemory>
    requires table { 1 < table.now.table_id.words }
    requires seat { seat.old.table_id ≡ table.now.table_id }
    requires free { IsFree W.meaning seat.old.me }
    ensures same { (seat.new.table_id ≡ seat.old.table_id) × (seat.new.id ≡ seat.old.id) }
    ensures free { IsFree W.meaning seat.new.me }
    ensures told { Looks W.meaning (known_in W.meaning seat.old.me) (known_in W.meaning seat.new.me) }
    ensures command { let new = known_in W.meaning seat.new.me in
        IfOk result (λ command. command ≡ W.meaning.command_at (W.meaning.log new.opening new.seen) n) }
{
    begin_turn(table, rt, seat);
    let answer = command_in_hand(table, seat, n);
    end_turn(table, seat);
    answer
}

/// A copy of the snapshot of a version, by the journal that is in hand.
fn snapshot_in_hand<W: World>(
    table: &Words<W>,
    seat: &mut TableSeat<W>,
    version: Version,
) -> Result<Option<Shared<W::Snapshot>>, NoMemory>
    requires seat { seat.old.table_id ≡ table.now.table_id }
    requires hand { (written : Written W W.Entry) × (seat.old.me.1 ≡ (0, written) ∷ []) }
    ensures same { (seat.new.table_id ≡ seat.old.table_id) × (seat.new.id ≡ seat.old.id) × (seat.new.me ≡ seat.old.me) }
    ensures hand { (written : Written W W.Entry) × (seat.old.me.1 ≡ (0, written) ∷ []) ×
        IfOk result
        (λ snapshot.
        snapshot ≡
        W.meaning.snapshot_at (W.meaning.opening written.world) (W.meaning.commands written.world) version) }
{
    let journal = seat.slot_mut(table, 0);
    journal.snapshot(version)
}

/// A copy of the snapshot of a version, by the history at this seat's turn.
pub(crate) fn snapshot_seen<W: World, R: Wait>(
    table: &Words<W>,
    rt: &R,
    seat: &mut TableSeat<W>,
    version: Version,
) -> Result<Option<Shared<W::Snapshot>>, NoMemory>
    requires table { 1 < table.now.table_id.words }
    requires seat { seat.old.table_id ≡ table.now.table_id }
    requires free { IsFree W.meaning seat.old.me }
    ensures same { (seat.new.table_id ≡ seat.old.table_id) × (seat.new.id ≡ seat.old.id) }
    ensures free { IsFree W.meaning seat.new.me }
    ensures told { Looks W.meaning (known_in W.meaning seat.old.me) (known_in W.meaning seat.new.me) }
    ensures snapshot { let new = known_in W.meaning seat.new.me in
        let log = W.meaning.log new.opening new.seen in
        IfOk result (λ snapshot. snapshot ≡ W.meaning.snapshot_at new.opening log version) }
    ensures pinned { (lane : LaneId) →
        (known_in W.meaning seat.new.me).actor ≡ ByLane lane →
        0 < count_of version (known_in W.meaning seat.new.me).note.pins →
        IfOk result IsSome }
{
    begin_turn(table, rt, seat);
    let answer = snapshot_in_hand(table, seat, version);
    end_turn(table, seat);
    answer
}
