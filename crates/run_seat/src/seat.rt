//! A seat of the running cluster's book, as an actor's chair.
ghost use Rattle.std.specs.Prelude.{◌≡◌, [], Err, IfOk, None, Ok, OnErr};
ghost use Rattle.book_rule.specs.World.{own_of};
ghost use Rattle.cluster_history.specs.Openings.{HasPart};
ghost use Rattle.engine_desk.specs.Chairs.{look_entry};
ghost use Rattle.run_seat.specs.Seated.{known_of};
ghost use Rattle.world_law.specs.Worlds.{run_meaning};

use base_ids::{Appended, HostId, Items, MsgRef, NoMemory, StateId, Version};
use book_rule::{BookError, Committed, Pin, Published};
use cluster_history::{Entry, Event, Message, Operation, Output};
use engine_desk::{Chair, Refused};
use event_book::{Book, Seat};
use meta_snap::Snapshot;
use run_world::RunWorld;
use shared_value::Shared;
use std::alloc::Global;
use std::marker::Model;
use std::sync::Wait;
use topo_state::{Command, Rule};

/// A seat at its book. Contracts see what its actor knows.
#[derive(Drop)]
pub struct BookSeat<'a> {
    alloc: Global,
    book: &'a Book<RunWorld>,
    seat: Seat<RunWorld>,
    idle: Option<Version>,
}

impl<'a> Model for BookSeat<'a> {
    ghost use Rattle.std.specs.Prelude.{◌≡◌};
    ghost use Rattle.engine_desk.specs.Chairs.{Known};
    ghost use Rattle.run_seat.specs.Seated.{IsSat, known_of};

    ghost Value = { Known };

    ghost view = { λ s. known_of s.seat.table s.seat.known s.idle };

    ghost invariant = { λ s. (s.seat.table ≡ s.book.now.table) × IsSat s.seat.known s.idle };
}

impl<'a> BookSeat<'a> {
    /// A seat at its book, of an actor of the opening. It knows all of the actor's entries, and each pin that it raised
    /// is confirmed; so it is with a seat that has done nothing.
    pub fn new(alloc: Global, book: &'a Book<RunWorld>, seat: Seat<RunWorld>) -> BookSeat<'a>
        requires table { seat.table ≡ book.now.table }
        requires there { HasPart seat.known.opening seat.known.actor }
        requires own { own_of run_meaning seat.known.actor seat.known.seen ≡ seat.known.own }
        requires confirmed { seat.known.note.raised ≡ [] }
        ensures { result ≡ known_of seat.table seat.known None }
    {
        BookSeat {
            alloc,
            book,
            seat,
            idle: None,
        }
    }

    /// The seat.
    pub fn into_seat(self) -> Seat<RunWorld>
        ensures table { result.table ≡ self.entry.table }
        ensures opening { result.known.opening ≡ self.entry.opening }
        ensures actor { result.known.actor ≡ self.entry.actor }
        ensures seen { result.known.seen ≡ self.entry.seen }
        ensures own { own_of run_meaning result.known.actor result.known.seen ≡ result.known.own }
    {
        let BookSeat {
            alloc: _,
            book: _,
            seat,
            idle: _,
        } = self;
        seat
    }
}

fn refusal(error: BookError) -> Refused {
    match error {
        BookError::Limit { name } => Refused::Limit(name),
        BookError::NoMemory => Refused::NoMemory,
    }
}

/// The entry of a look.
fn look_of(alloc: Global, topo: HostId) -> Entry
    ensures { result ≡ look_entry topo }
{
    let _inside: Option<(&Operation, &Message, &Output)> = None;
    Entry {
        event: Event::Look { topo },
        outputs: Items::new(alloc),
    }
}

/// The number of an entry that was added.
fn number_of(answer: Result<Committed, BookError>) -> Result<u64, Refused>
    ensures ok { IfOk answer (λ committed. result ≡ Ok committed.index) }
    ensures err { OnErr answer ((refused : Refused) × (result ≡ Err refused)) }
{
    match answer {
        Ok(committed) => Ok(committed.index),
        Err(error) => Err(refusal(error)),
    }
}

/// How many commands the log has where an entry was added.
fn commands_of(answer: Result<Committed, BookError>) -> Result<u64, Refused>
    ensures ok { IfOk answer (λ committed. result ≡ Ok committed.log_len) }
    ensures err { OnErr answer ((refused : Refused) × (result ≡ Err refused)) }
{
    match answer {
        Ok(committed) => Ok(committed.log_len),
        Err(error) => Err(refusal(error)),
    }
}

/// What became of a proposal that was added.
fn outcome_of(answer: Result<Appended<Rule>, BookError>) -> Result<Appended<Rule>, Refused>
    ensures ok { IfOk answer (λ outcome. result ≡ Ok outcome) }
    ensures err { OnErr answer ((refused : Refused) × (result ≡ Err refused)) }
{
    match answer {
        Ok(outcome) => Ok(outcome),
        Err(error) => Err(refusal(error)),
    }
}

impl<'a> Chair for BookSeat<'a> {
    ghost known = { λ known. known };

    fn message<R: Wait>(
        &mut self,
        rt: &R,
        alloc: Global,
        at: MsgRef,
    ) -> Result<Option<Message>, NoMemory> {
        let _alloc = alloc;
        self.book.message(rt, &mut self.seat, at)
    }

    fn command<R: Wait>(
        &mut self,
        rt: &R,
        number: u64,
    ) -> Result<Option<Shared<Command>>, NoMemory> {
        self.book.entry(rt, &mut self.seat, number)
    }

    fn snapshot<R: Wait>(
        &mut self,
        rt: &R,
        version: Version,
    ) -> Result<Option<Shared<Snapshot>>, NoMemory> {
        self.book.snapshot(rt, &mut self.seat, version)
    }

    fn pin(&mut self) -> Option<Version> {
        match self.book.pin(&mut self.seat) {
            Pin::Pinned(version) => Some(version),
            Pin::Moved { .. } => None,
        }
    }

    fn unpin(&mut self, version: Version) {
        self.book.unpin(&mut self.seat, version);
    }

    fn publish(&mut self, version: Version) -> bool {
        self.idle = None;
        match self.book.publish(&mut self.seat, version) {
            Published::Published => true,
            Published::SlotPinned { .. } => false,
        }
    }

    fn idle_below(&mut self, version: Version) -> bool {
        let idle = self.book.idle_below(&mut self.seat, version);
        self.idle = if idle { Some(version) } else { None };
        idle
    }

    fn commit<R: Wait>(&mut self, rt: &R, entry: Entry) -> Result<u64, Refused> {
        let answer = self.book.commit(rt, &mut self.seat, entry);
        number_of(answer)
    }

    fn look<R: Wait>(&mut self, rt: &R, topo: HostId) -> Result<u64, Refused> {
        let entry = look_of(self.alloc, topo);
        let answer = self.book.commit(rt, &mut self.seat, entry);
        commands_of(answer)
    }

    fn propose<R: Wait>(
        &mut self,
        rt: &R,
        topo: HostId,
        read: StateId,
        command: Command,
    ) -> Result<Appended<Rule>, Refused> {
        let _topo = topo;
        let answer = self.book.propose(rt, &mut self.seat, read, command);
        outcome_of(answer)
    }
}
