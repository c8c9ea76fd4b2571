//! Commits, over a seat of the table.
ghost use Rattle.std.specs.Prelude.{◌≡◌, ◌<◌, ◌≤◌, ◌∷◌, [], length, IfErr, IfOk, OnErr};
ghost use Rattle.book_rule.specs.Turns.{IsReady, Written};
ghost use Rattle.book_rule.specs.World.{IsJudged};
ghost use Rattle.book_rule.specs.Seats.{Commits, HasCommitted, IsCommitError, IsFree, Turned, known_in};

use crate::plays::{TableSeat, Words};
use crate::turn::{begin_turn, end_turn};
use book_rule::{BookError, Committed, World};
use std::sync::Wait;

/// Appends the entry to the journal that is in hand.
fn append<W: World>(
    table: &Words<W>,
    seat: &mut TableSeat<W>,
    entry: W::Entry,
) -> Result<Committed, BookError>
    requires seat { seat.old.table_id ≡ table.now.table_id }
    requires hand { (old : Written W W.Entry) × (seat.old.me.1 ≡ (0, old) ∷ []) ×
        (length old.history ≤ W.meaning.most_entries) ×
        IsJudged W.meaning (W.meaning.opening old.world) (W.meaning.commands old.world) (W.meaning.kind entry) }
    ensures same { (seat.new.table_id ≡ seat.old.table_id) × (seat.new.id ≡ seat.old.id) ×
        (seat.new.me.0 ≡ seat.old.me.0) }
    ensures hand { (old : Written W W.Entry) × (new : Written W W.Entry) × (seat.old.me.1 ≡ (0, old) ∷ []) ×
        (seat.new.me.1 ≡ (0, new) ∷ []) × Commits W.meaning entry old new result }
{
    let journal = seat.slot_mut(table, 0);
    journal.commit(entry)
}

/// Appends the entry at this seat's turn.
pub(crate) fn commit_entry<W: World, R: Wait>(
    table: &Words<W>,
    rt: &R,
    seat: &mut TableSeat<W>,
    entry: W::Entry,
) -> Result<Committed, BookError>
    requires table { 1 < table.now.table_id.words }
    requires seat { seat.old.table_id ≡ table.now.table_id }
    requires free { IsFree W.meaning seat.old.me }
    requires ready { IsReady W.meaning (known_in W.meaning seat.old.me) entry }
    ensures same { (seat.new.table_id ≡ seat.old.table_id) × (seat.new.id ≡ seat.old.id) }
    ensures free { IsFree W.meaning seat.new.me }
    ensures turn { Turned W.meaning (known_in W.meaning seat.old.me) (known_in W.meaning seat.new.me) }
    ensures ok { let new = known_in W.meaning seat.new.me in
        IfOk result (HasCommitted W.meaning (known_in W.meaning seat.old.me) new entry) }
    ensures rises { let seen = (known_in W.meaning seat.old.me).seen in
        IfOk result (λ committed. length seen < committed.index) }
    ensures err { OnErr result ((known_in W.meaning seat.new.me).own ≡ (known_in W.meaning seat.old.me).own) }
    ensures cause { IfErr result (IsCommitError W.meaning (length (known_in W.meaning seat.new.me).seen)) }
{
    begin_turn(table, rt, seat);
    let answer = append(table, seat, entry);
    end_turn(table, seat);
    answer
}
