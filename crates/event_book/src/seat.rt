//! The seats of a book.
ghost use Rattle.std.specs.Prelude.{◌≡◌};
ghost use Rattle.book_rule.specs.Seats.{IsFree, known_in};

use crate::journal::Journal;
use crate::plays::TableSeat;
use base_ids::Actor;
use book_rule::World;
use std::marker::Model;

/// What an actor takes part in a book with. Contracts see its table, and what the actor knows.
#[derive(Drop)]
pub struct Seat<W: World> {
    pub(crate) inner: TableSeat<W>,
    pub(crate) actor: Actor,
}

impl<W: World> Model for Seat<W> {
    ghost use Rattle.std.specs.Prelude.{◌≡◌, ◌+◌, ◌*◌, ◌≤◌};
    ghost use Rattle.book_rule.specs.Notes.{host_of};
    ghost use Rattle.book_rule.specs.Seats.{Sitting, IsFree, known_in};

    ghost Value = { Sitting W.Opening W.Entry };

    ghost view = { λ s. record { table = s.inner.table_id; known = known_in W.meaning s.inner.me } };

    ghost invariant = { λ s.
        IsFree W.meaning s.inner.me × ((known_in W.meaning s.inner.me).actor ≡ s.actor) ×
        (11 + 9 * (host_of s.actor).0 ≤ s.inner.table_id.words) };
}

impl<W: World> Seat<W> {
    /// Whose it is.
    pub fn actor(&self) -> Actor
        ensures { result ≡ self.now.known.actor }
    {
        self.actor
    }

    /// The seat of the table.
    pub(crate) fn into_inner(self) -> TableSeat<W>
        ensures table { result.table_id ≡ self.table }
        ensures free { IsFree W.meaning result.me }
        ensures known { known_in W.meaning result.me ≡ self.known }
    {
        let Seat { inner, actor: _ } = self;
        inner
    }
}
