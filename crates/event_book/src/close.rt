//! The seats come back.
ghost use Rattle.std.specs.Prelude.{◌≡◌, ◌<◌, ◌++◌, ◌∷◌, [], All, List, true};
ghost use Rattle.book_rule.specs.Seats.{AreOf, IsFree, IsKeeper, known_by, known_in};
ghost use Rattle.base_ids.specs.declared.ids.Actor.{Actor};
ghost use Rattle.book_rule.specs.Turns.{HasKnown, IsClosed, has_actor};
ghost use Rattle.book_rule.specs.declared.view.Known.{Known};

use crate::journal::Journal;
use crate::plays::{BookTable, Hand, TableSeat, Words};
use crate::seat::Seat;
use book_rule::World;

/// A seat goes to the keeper.
fn give_back<W: World>(table: &Words<W>, keeper: &mut TableSeat<W>, seat: Seat<W>)
    requires table { 0 < table.now.table_id.words }
    requires seat { seat.table ≡ table.now.table_id }
    requires keeper { (keeper.old.table_id ≡ table.now.table_id) ×
        ((ended : List (Known W.Opening W.Entry)) × IsKeeper ended keeper.old.me) }
    ensures same { (keeper.new.table_id ≡ keeper.old.table_id) × (keeper.new.id ≡ keeper.old.id) }
    ensures view { (ended : List (Known W.Opening W.Entry)) →
        IsKeeper ended keeper.old.me →
        IsKeeper (seat.known ∷ ended) keeper.new.me }
{
    join(table, keeper, seat.into_inner());
}

/// A seat of the table goes to the keeper.
fn join<W: World>(table: &Words<W>, keeper: &mut TableSeat<W>, inner: TableSeat<W>)
    requires table { 0 < table.now.table_id.words }
    requires seat { (inner.table_id ≡ table.now.table_id) × IsFree W.meaning inner.me }
    requires keeper { (keeper.old.table_id ≡ table.now.table_id) ×
        ((ended : List (Known W.Opening W.Entry)) × IsKeeper ended keeper.old.me) }
    ensures same { (keeper.new.table_id ≡ keeper.old.table_id) × (keeper.new.id ≡ keeper.old.id) }
    ensures view { (ended : List (Known W.Opening W.Entry)) →
        IsKeeper ended keeper.old.me →
        IsKeeper (known_in W.meaning inner.me ∷ ended) keeper.new.me }
{
    table.join_seat::<Hand<W>>(keeper, inner);
}

/// All seats go to the keeper.
pub(crate) fn gather<W: World>(table: &Words<W>, keeper: &mut TableSeat<W>, mut seats: Vec<Seat<W>>)
    requires table { 0 < table.now.table_id.words }
    requires seats { AreOf table.now.table_id seats.items }
    requires keeper { (keeper.old.table_id ≡ table.now.table_id) ×
        IsKeeper {W = W} {O = W.Opening} {E = W.Entry} [] keeper.old.me }
    ensures same { (keeper.new.table_id ≡ keeper.old.table_id) × (keeper.new.id ≡ keeper.old.id) }
    ensures keeper { IsKeeper {W = W} (known_by seats.items) keeper.new.me }
{
    while let Some(seat) = seats.pop() {
        give_back(table, keeper, seat);
    }
}

/// Ends the table, when all seats have come back.
pub(crate) fn close_table<W: World>(
    table: BookTable<W>,
    mut keeper: TableSeat<W>,
    seats: Vec<Seat<W>>,
) -> Journal<W>
    requires shape { (0 < table.shared.table_id.words) × (table.shared.table_id.slots ≡ 1) }
    requires seats { AreOf table.shared.table_id seats.items }
    requires keeper { (keeper.table_id ≡ table.shared.table_id) ×
        IsKeeper {W = W} {O = W.Opening} {E = W.Entry} [] keeper.me }
    requires all { (actor : Actor) →
        has_actor table.shared.key.actors actor ≡ true →
        HasKnown (known_by seats.items) actor }
    ensures { IsClosed W.meaning table.shared.key (known_by seats.items) result }
{
    gather(&table.shared, &mut keeper, seats);
    let mut closed = table.close_with(keeper);
    let journal = closed.take(0);
    closed.free();
    journal
}
