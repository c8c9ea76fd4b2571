//! A book of two actors, from its beginning to its end.
ghost use Rattle.std.specs.Prelude.{◌≡◌, ◌≤◌, ◌∷◌, [], IfOk, false};
ghost use Rattle.base_ids.specs.Names.{same_actor};
ghost use Rattle.book_rule.specs.Turns.{IsClosed};
ghost use Rattle.thread_tests.specs.Diary.{meaning};
ghost use Rattle.thread_tests.specs.Scenes.{IsFresh};

use crate::diary::Diary;
use base_ids::{Actor, NoMemory};
use event_book::{Book, Journal, Seat, SeatList};
use std::alloc::Global;

/// A book of two actors, with the seats of both.
#[derive(Drop)]
pub struct Pair {
    /// The book.
    pub book: Book<Diary>,
    /// Room for its seats.
    pub seats: SeatList<Diary>,
    /// The first actor's seat.
    pub one: Seat<Diary>,
    /// The second actor's.
    pub two: Seat<Diary>,
}

/// A book of these two actors.
pub fn opened(alloc: Global, one: Actor, two: Actor) -> Result<Pair, NoMemory>
    requires { same_actor one two ≡ false }
    ensures actors { IfOk result (λ pair. pair.book.about.actors ≡ one ∷ two ∷ []) }
    ensures seats { IfOk result
        (λ pair.
        (pair.seats.table ≡ pair.book.table) × (pair.seats.seats ≡ []) × (2 ≤ pair.seats.room)) }
    ensures one { IfOk result (λ pair. IsFresh pair.book.table one pair.one) }
    ensures two { IfOk result (λ pair. IsFresh pair.book.table two pair.two) }
{
    let (book, mut seats) = Book::new(alloc, Diary::new(alloc, 7)?, &[one, two])?;
    let Some(second) = seats.take() else {
        unreachable!()
    };
    let Some(first) = seats.take() else {
        unreachable!()
    };
    Ok(Pair {
        book,
        seats,
        one: first,
        two: second,
    })
}

/// The journal, when both seats have come back.
pub fn closed(
    book: Book<Diary>,
    mut seats: SeatList<Diary>,
    one: Seat<Diary>,
    two: Seat<Diary>,
) -> Journal<Diary>
    requires actors { book.about.actors ≡ one.known.actor ∷ two.known.actor ∷ [] }
    requires seats { (seats.table ≡ book.table) × (seats.seats ≡ []) × (2 ≤ seats.room) }
    requires one { one.table ≡ book.table }
    requires two { two.table ≡ book.table }
    ensures { IsClosed meaning book.about (one.known ∷ two.known ∷ []) result }
{
    seats.give(one);
    seats.give(two);
    book.close(seats)
}
