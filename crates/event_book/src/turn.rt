//! A turn: draw a ticket, wait until it is served, and pass it.
ghost use Rattle.std.specs.Prelude.{◌≡◌, ◌<◌, ◌∷◌, [], ℕ};
ghost use Rattle.book_rule.specs.Turns.{Follows, IsSound, Written, at_stage, turn_ended};
ghost use Rattle.book_rule.specs.Seats.{IsAtTurn, IsFree, known_in};
ghost use Rattle.book_rule.specs.declared.view.Known.{Known};
ghost use Rattle.book_rule.specs.declared.view.Stage.TheVariants.{Idle, Turn, Waits};
ghost use Rattle.book_rule.specs.declared.view.View.TheVariants.{Working};

use crate::plays::{Draw, Look, Pass, TableSeat, Words};
use book_rule::World;
use std::sync::Wait;
use std::thread;

/// Draws a ticket.
fn draw<W: World>(table: &Words<W>, seat: &mut TableSeat<W>) -> u64
    requires table { 1 < table.now.table_id.words }
    requires seat { seat.old.table_id ≡ table.now.table_id }
    requires free { IsFree W.meaning seat.old.me }
    ensures same { (seat.new.table_id ≡ seat.old.table_id) × (seat.new.id ≡ seat.old.id) }
    ensures view { seat.new.me ≡ (Working (Waits result) (known_in W.meaning seat.old.me), []) }
{
    table.fetch_add::<Draw<W>>(seat, 0, 1)
}

/// Waits until the ticket is served, and lets other threads run meanwhile.
fn wait<W: World, R: Wait>(table: &Words<W>, rt: &R, seat: &mut TableSeat<W>, ticket: u64)
    requires table { 1 < table.now.table_id.words }
    requires seat { seat.old.table_id ≡ table.now.table_id }
    requires waits { seat.old.me ≡ (Working (Waits ticket) (known_in W.meaning seat.old.me), []) }
    ensures same { (seat.new.table_id ≡ seat.old.table_id) × (seat.new.id ≡ seat.old.id) }
    ensures turn { IsAtTurn W.meaning (known_in W.meaning seat.old.me) seat.new.me }
{
    for _ in rt.forever() {
        if table.load::<Look<W>>(seat, 1) == ticket {
            return;
        }
        thread::yield_now();
    }
    unreachable!()
}

/// Waits for a turn of the seat, which then has the journal.
pub(crate) fn begin_turn<W: World, R: Wait>(table: &Words<W>, rt: &R, seat: &mut TableSeat<W>)
    requires table { 1 < table.now.table_id.words }
    requires seat { seat.old.table_id ≡ table.now.table_id }
    requires free { IsFree W.meaning seat.old.me }
    ensures same { (seat.new.table_id ≡ seat.old.table_id) × (seat.new.id ≡ seat.old.id) }
    ensures turn { IsAtTurn W.meaning (known_in W.meaning seat.old.me) seat.new.me }
{
    let ticket = draw(table, seat);
    wait(table, rt, seat, ticket);
}

/// Passes the turn, with the journal that is in hand.
pub(crate) fn end_turn<W: World>(table: &Words<W>, seat: &mut TableSeat<W>)
    requires table { 1 < table.now.table_id.words }
    requires seat { seat.old.table_id ≡ table.now.table_id }
    requires turn { (ticket : ℕ) × (known : Known W.Opening W.Entry) × (written : Written W W.Entry) ×
        (seat.old.me ≡ (Working (Turn ticket) known, (0, written) ∷ [])) ×
        Follows W.meaning known written.history × IsSound W.meaning known.opening written }
    ensures same { (seat.new.table_id ≡ seat.old.table_id) × (seat.new.id ≡ seat.old.id) }
    ensures view { seat.new.me ≡ turn_ended W.meaning seat.old.me }
{
    table.fetch_add::<Pass<W>>(seat, 1, 1);
}
