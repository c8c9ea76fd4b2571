//! Proposals, over a seat of the table.
ghost use Rattle.std.specs.Prelude.{◌≡◌, ◌<◌, ◌≤◌, ◌∷◌, [], length, IfErr, IfOk, OnErr};
ghost use Rattle.book_rule.specs.Turns.{Written};
ghost use Rattle.book_rule.specs.Seats.{HasProposed, IsFree, IsProposeError, Proposes, Turned, judged_by, known_in};

use crate::plays::{TableSeat, Words};
use crate::turn::{begin_turn, end_turn};
use base_ids::{Actor, Appended, StateId};
use book_rule::{BookError, World};
use std::sync::Wait;

/// Appends the proposal to the journal that is in hand.
fn append<W: World>(
    table: &Words<W>,
    seat: &mut TableSeat<W>,
    topo: Actor,
    read: StateId,
    command: W::Command,
) -> Result<Appended<W::Rule>, BookError>
    requires seat { seat.old.table_id ≡ table.now.table_id }
    requires hand { (old : Written W W.Entry) × (seat.old.me.1 ≡ (0, old) ∷ []) ×
        (length old.history ≤ W.meaning.most_entries) ×
        (length (W.meaning.commands old.world) ≤ W.meaning.most_commands) }
    requires fit { W.meaning.is_fit command }
    ensures same { (seat.new.table_id ≡ seat.old.table_id) × (seat.new.id ≡ seat.old.id) ×
        (seat.new.me.0 ≡ seat.old.me.0) }
    ensures hand { (old : Written W W.Entry) × (new : Written W W.Entry) × (seat.old.me.1 ≡ (0, old) ∷ []) ×
        (seat.new.me.1 ≡ (0, new) ∷ []) × Proposes W.meaning topo read.0 command old new result }
{
    let journal = seat.slot_mut(table, 0);
    journal.propose(topo, read, command)
}

/// Appends the proposal with its outcome at this seat's turn.
pub(crate) fn propose_command<W: World, R: Wait>(
    table: &Words<W>,
    rt: &R,
    seat: &mut TableSeat<W>,
    topo: Actor,
    read: StateId,
    command: W::Command,
) -> Result<Appended<W::Rule>, BookError>
    requires table { 1 < table.now.table_id.words }
    requires seat { seat.old.table_id ≡ table.now.table_id }
    requires free { IsFree W.meaning seat.old.me }
    requires topo { topo ≡ (known_in W.meaning seat.old.me).actor }
    requires read { let old = known_in W.meaning seat.old.me in
        read.0 ≡ W.meaning.look old.opening old.seen topo }
    requires ready { let old = known_in W.meaning seat.old.me in
        W.meaning.may_propose old.opening old.seen topo command }
    ensures same { (seat.new.table_id ≡ seat.old.table_id) × (seat.new.id ≡ seat.old.id) }
    ensures free { IsFree W.meaning seat.new.me }
    ensures turn { Turned W.meaning (known_in W.meaning seat.old.me) (known_in W.meaning seat.new.me) }
    ensures ok { let old = known_in W.meaning seat.old.me in
        IfOk result (HasProposed W.meaning old (known_in W.meaning seat.new.me) read.0 command) }
    ensures err { OnErr result ((known_in W.meaning seat.new.me).own ≡ (known_in W.meaning seat.old.me).own) }
    ensures cause { let new = known_in W.meaning seat.new.me in
        IfErr result (IsProposeError W.meaning (judged_by W.meaning new read.0 command) (length new.seen)) }
{
    begin_turn(table, rt, seat);
    let answer = append(table, seat, topo, read, command);
    end_turn(table, seat);
    answer
}
