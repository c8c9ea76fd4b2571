//! The seats of a book that nobody has, with the keeper's own.
ghost use Rattle.std.specs.Prelude.{◌≡◌, ◌<◌, ◌≤◌, ◌++◌, ◌∷◌, [], length, MatchOption};
ghost use Rattle.book_rule.specs.Seats.{AreOf, IsKeeper};

use crate::plays::TableSeat;
use crate::room::add_in_room;
use crate::seat::Seat;
use book_rule::World;
use std::marker::Model;

/// The seats of a book that nobody has. There is always room to take all of them back.
#[derive(Drop)]
pub struct SeatList<W: World> {
    pub(crate) keeper: TableSeat<W>,
    pub(crate) seats: Vec<Seat<W>>,
}

impl<W: World> Model for SeatList<W> {
    ghost use Rattle.std.specs.Prelude.{◌≡◌, [], All};
    ghost use Rattle.std.specs.Vec.{vec_capacity};
    ghost use Rattle.book_rule.specs.Seats.{AreOf, IsKeeper, Sitters};

    ghost Value = { Sitters W.Opening W.Entry };

    ghost view = { λ s. record { table = s.keeper.table_id; seats = s.seats.items; room = vec_capacity s.seats } };

    ghost invariant = { λ s.
        IsKeeper {W = W} {O = W.Opening} {E = W.Entry} [] s.keeper.me × AreOf s.keeper.table_id s.seats.items };
}

impl<W: World> SeatList<W> {
    /// How many seats there are.
    pub fn len(&self) -> u64
        ensures { result ≡ length self.now.seats }
    {
        self.seats.len() as u64
    }

    /// Takes the last seat.
    pub fn take(&mut self) -> Option<Seat<W>>
        ensures seats { MatchOption result
            ((self.old.seats ≡ []) × (self.new.seats ≡ []))
            (λ seat. (self.old.seats ≡ self.new.seats ++ seat ∷ []) × (seat.table ≡ self.old.table)) }
        ensures others { (self.new.table ≡ self.old.table) × (self.new.room ≡ self.old.room) }
    {
        self.seats.pop()
    }

    /// Takes a seat back, as the last one. It takes no memory.
    pub fn give(&mut self, seat: Seat<W>)
        requires table { seat.table ≡ self.old.table }
        requires room { length self.old.seats < self.old.room }
        ensures seats { self.new.seats ≡ self.old.seats ++ seat ∷ [] }
        ensures others { (self.new.table ≡ self.old.table) × (self.old.room ≤ self.new.room) }
    {
        add_in_room(&mut self.seats, seat);
    }

    /// The keeper's seat and the others.
    pub(crate) fn into_parts(self) -> (TableSeat<W>, Vec<Seat<W>>)
        ensures table { result.0.table_id ≡ self.table }
        ensures keeper { IsKeeper {W = W} {O = W.Opening} {E = W.Entry} [] result.0.me }
        ensures seats { (result.1.items ≡ self.seats) × AreOf self.table result.1.items }
    {
        let SeatList { keeper, seats } = self;
        (keeper, seats)
    }
}
