//! The book: a table with the journal in its one slot.
ghost use Rattle.std.specs.Prelude.{◌≡◌, ◌<◌, ◌≤◌, ◌+◌, [], false, length, true, IfErr, IfOk, IfSome, IsSome, OnErr};
ghost use Rattle.base_ids.specs.declared.ids.Actor.{Actor};
ghost use Rattle.base_ids.specs.declared.ids.Actor.TheVariants.{Host as ByHost, Lane as ByLane};
ghost use Rattle.base_ids.specs.declared.ids.HostId.{HostId};
ghost use Rattle.base_ids.specs.declared.ids.LaneId.{LaneId};
ghost use Rattle.base_ids.specs.declared.ids.Version.{Version};
ghost use Rattle.book_rule.specs.Notes.{IsBusy, IsIdle, count_of};
ghost use Rattle.book_rule.specs.Pins.{HasLooked, IsConfirmed, IsPublished, saw_version, with_note, with_raised, without_pin};
ghost use Rattle.book_rule.specs.Seats.{HasCommitted, HasProposed, IsCommitError, IsProposeError, Looks, Turned, fresh_seats, judged_by, known_by, message_at};
ghost use Rattle.book_rule.specs.Turns.{HasKnown, HasSpare, IsClosed, IsReady, are_distinct, has_actor};

use crate::close::close_table;
use crate::commit::commit_entry;
use crate::journal::Journal;
use crate::list::SeatList;
use crate::looks::{command_seen, message_seen, snapshot_seen};
use crate::open::{hand_out, host_of, hosts_of, lane_of, table_of};
use crate::pinning::{confirm_pin, is_idle, publish_version, raise_pin};
use crate::pins::lower_pin;
use crate::plays::BookTable;
use crate::propose::propose_command;
use crate::seat::Seat;
use base_ids::{Actor, Appended, Items, MsgRef, NoMemory, StateId, Version};
use book_rule::{About, BookError, Committed, Pin, Published, Raised, World};
use shared_value::Shared;
use std::alloc::Global;
use std::marker::{Brand, Model};
use std::sync::Wait;

/// A journal that actors on their own threads append to by turns. Contracts see its table, and what it was made of.
#[derive(Drop)]
pub struct Book<W: World> {
    pub(crate) table: BookTable<W>,
}

impl<W: World> Model for Book<W> {
    ghost use Rattle.std.specs.Prelude.{◌≡◌, ◌+◌, ◌*◌};
    ghost use Rattle.book_rule.specs.Seats.{Shelf};

    ghost Value = { Shelf W.Opening };

    ghost view = { λ b. record { table = b.table.shared.table_id; about = b.table.shared.key } };

    ghost invariant = { λ b.
        (b.table.shared.table_id.words ≡ 2 + 9 * b.table.shared.key.hosts) × (b.table.shared.table_id.slots ≡ 1) };
}

impl<W: World> Book<W> {
    /// A book over a world with an empty log, and a seat for each of these actors, in order. `NoMemory` comes where
    /// memory for it is refused.
    pub fn new(
        alloc: Global,
        world: W,
        actors: &[Actor],
    ) -> Result<(Book<W>, SeatList<W>), NoMemory>
        requires log { W.meaning.commands world ≡ [] }
        requires few { length actors.now < 4294967295 }
        requires distinct { are_distinct actors.now ≡ true }
        requires inside { (actor : Actor) →
            has_actor actors.now actor ≡ true →
            W.meaning.is_in (W.meaning.opening world) actor }
        ensures about { IfOk result
            (λ made.
            (made.0.about.opening ≡ W.meaning.opening world) × (made.0.about.actors ≡ actors.now)) }
        ensures seats { IfOk result
            (λ made.
            (made.1.table ≡ made.0.table) ×
            (made.1.seats ≡ fresh_seats made.0.table (W.meaning.opening world) actors.now) ×
            (length actors.now ≤ made.1.room)) }
    {
        let hosts = hosts_of(actors);
        let opening = world.opening()?;
        let copied = Vec::from_slice(alloc, actors)?;
        let about = About {
            opening,
            actors: Items::from_vec(copied),
            hosts,
        };
        let (table, mut keeper) = table_of(alloc, world, &about)?;
        let seats = hand_out(&table.shared, &mut keeper, actors, alloc)?;
        Ok((Book { table }, SeatList { keeper, seats }))
    }

    /// Appends an entry at this seat's turn, which may have to be waited for, and answers its number. The entry is
    /// this actor's and no proposal, and enabled by what the actor has seen and pinned. Nothing is appended where the
    /// journal is full, or where memory is refused.
    pub fn commit<R: Wait>(
        &self,
        rt: &R,
        seat: &mut Seat<W>,
        entry: W::Entry,
    ) -> Result<Committed, BookError>
        requires seat { seat.old.table ≡ self.now.table }
        requires ready { IsReady W.meaning seat.old.known entry }
        ensures table { seat.new.table ≡ seat.old.table }
        ensures turn { Turned W.meaning seat.old.known seat.new.known }
        ensures ok { IfOk result (HasCommitted W.meaning seat.old.known seat.new.known entry) }
        ensures rises { IfOk result (λ committed. length seat.old.known.seen < committed.index) }
        ensures err { OnErr result (seat.new.known.own ≡ seat.old.known.own) }
        ensures cause { IfErr result (IsCommitError W.meaning (length seat.new.known.seen)) }
    {
        commit_entry(&self.table.shared, rt, &mut seat.inner, entry)
    }

    /// Appends a proposal at this seat's turn, with its outcome there, and answers that. The topo has read the log of
    /// its look. Nothing is appended where the journal is full, or else where the command would be accepted beyond the
    /// end of the log, or where memory is refused.
    pub fn propose<R: Wait>(
        &self,
        rt: &R,
        seat: &mut Seat<W>,
        read: StateId,
        command: W::Command,
    ) -> Result<Appended<W::Rule>, BookError>
        requires seat { seat.old.table ≡ self.now.table }
        requires read { let old = seat.old.known in
            read.0 ≡ W.meaning.look old.opening old.seen old.actor }
        requires ready { let old = seat.old.known in
            W.meaning.may_propose old.opening old.seen old.actor command }
        ensures table { seat.new.table ≡ seat.old.table }
        ensures turn { Turned W.meaning seat.old.known seat.new.known }
        ensures ok { IfOk result (HasProposed W.meaning seat.old.known seat.new.known read.0 command) }
        ensures err { OnErr result (seat.new.known.own ≡ seat.old.known.own) }
        ensures cause { let judged = judged_by W.meaning seat.new.known read.0 command in
            IfErr result (IsProposeError W.meaning judged (length seat.new.known.seen)) }
    {
        let topo = seat.actor;
        propose_command(&self.table.shared, rt, &mut seat.inner, topo, read, command)
    }

    /// A copy of the message that a reference names, in the history at this seat's turn. `None` exactly where it names
    /// none there; so a message that is there was seen.
    pub fn message<R: Wait>(
        &self,
        rt: &R,
        seat: &mut Seat<W>,
        at: MsgRef,
    ) -> Result<Option<W::Message>, NoMemory>
        requires seat { seat.old.table ≡ self.now.table }
        ensures table { seat.new.table ≡ seat.old.table }
        ensures told { Looks W.meaning seat.old.known seat.new.known }
        ensures message { IfOk result (λ message. message ≡ message_at W.meaning seat.new.known.seen at) }
        ensures there { IfOk result (λ message. IfSome message (λ _. at.event ≤ length seat.new.known.seen)) }
    {
        message_seen(&self.table.shared, rt, &mut seat.inner, at)
    }

    /// A copy of the command of a number, from 1, in the log at this seat's turn.
    pub fn entry<R: Wait>(
        &self,
        rt: &R,
        seat: &mut Seat<W>,
        n: u64,
    ) -> Result<Option<Shared<W::Command>>, NoMemory>
        requires seat { seat.old.table ≡ self.now.table }
        ensures table { seat.new.table ≡ seat.old.table }
        ensures told { Looks W.meaning seat.old.known seat.new.known }
        ensures command { let log = W.meaning.log seat.new.known.opening seat.new.known.seen in
            IfOk result (λ command. command ≡ W.meaning.command_at log n) }
    {
        command_seen(&self.table.shared, rt, &mut seat.inner, n)
    }

    /// The snapshot of a version, by the log at this seat's turn.
    pub fn snapshot<R: Wait>(
        &self,
        rt: &R,
        seat: &mut Seat<W>,
        version: Version,
    ) -> Result<Option<Shared<W::Snapshot>>, NoMemory>
        requires seat { seat.old.table ≡ self.now.table }
        ensures table { seat.new.table ≡ seat.old.table }
        ensures told { Looks W.meaning seat.old.known seat.new.known }
        ensures snapshot { let new = seat.new.known in
            let log = W.meaning.log new.opening new.seen in
            IfOk result (λ snapshot. snapshot ≡ W.meaning.snapshot_at new.opening log version) }
        ensures pinned { (lane : LaneId) →
            seat.new.known.actor ≡ ByLane lane →
            0 < count_of version seat.new.known.note.pins →
            IfOk result IsSome }
    {
        snapshot_seen(&self.table.shared, rt, &mut seat.inner, version)
    }

    /// A lane looks at the version that its host has published, and raises a pin there. It waits for nothing.
    pub fn raise(&self, seat: &mut Seat<W>) -> Raised
        requires seat { seat.old.table ≡ self.now.table }
        requires lane { (lane : LaneId) × (seat.old.known.actor ≡ ByLane lane) }
        requires room { length seat.old.known.note.pins + length seat.old.known.note.raised < 8 }
        ensures table { seat.new.table ≡ seat.old.table }
        ensures known { let old = seat.old.known in
            seat.new.known ≡ with_note (with_raised (saw_version result.saw.0 old.note)) old }
    {
        let lane = lane_of(seat.actor());
        raise_pin(&self.table.shared, &mut seat.inner, lane)
    }

    /// Confirms a raised pin where the host's version is still the one at which it was raised: then it is `Pinned`.
    /// `Moved` comes where this second look saw another version, and then the pin is lowered. It waits for nothing.
    pub fn confirm(&self, seat: &mut Seat<W>, raised: Raised) -> Pin
        requires seat { seat.old.table ≡ self.now.table }
        requires lane { (lane : LaneId) × (seat.old.known.actor ≡ ByLane lane) }
        requires raised { 0 < count_of raised.saw seat.old.known.note.raised }
        ensures table { seat.new.table ≡ seat.old.table }
        ensures known { IsConfirmed seat.old.known seat.new.known raised.saw result }
    {
        let lane = lane_of(seat.actor());
        confirm_pin(&self.table.shared, &mut seat.inner, lane, raised.saw)
    }

    /// Pins the version that this lane's host has published, unless the host publishes another one meanwhile. It waits
    /// for nothing.
    pub fn pin(&self, seat: &mut Seat<W>) -> Pin
        requires seat { seat.old.table ≡ self.now.table }
        requires lane { (lane : LaneId) × (seat.old.known.actor ≡ ByLane lane) }
        requires room { length seat.old.known.note.pins + length seat.old.known.note.raised < 8 }
        ensures table { seat.new.table ≡ seat.old.table }
        ensures known { let old = seat.old.known in
            (saw : Version) ×
            IsConfirmed (with_note (with_raised (saw_version saw.0 old.note)) old) seat.new.known saw result }
    {
        let raised = self.raise(seat);
        self.confirm(seat, raised)
    }

    /// Lowers a confirmed pin that no live request needs. It waits for nothing.
    pub fn unpin(&self, seat: &mut Seat<W>, version: Version)
        requires seat { seat.old.table ≡ self.now.table }
        requires spare { HasSpare W.meaning seat.old.known seat.old.known.seen version }
        ensures table { seat.new.table ≡ seat.old.table }
        ensures known { seat.new.known ≡ with_note (without_pin version seat.old.known.note) seat.old.known }
    {
        let lane = lane_of(seat.actor());
        lower_pin::<W, Brand>(&self.table.shared, &mut seat.inner, lane, version);
    }

    /// A host publishes the next version, which it has reached. `SlotPinned` comes where pins of an older version were
    /// seen on the word that it would use, and has their count; then nothing is published. It waits for nothing.
    pub fn publish(&self, seat: &mut Seat<W>, version: Version) -> Published
        requires seat { seat.old.table ≡ self.now.table }
        requires next { version.0 ≡ seat.old.known.note.published.0 + 1 }
        requires reached { let old = seat.old.known in
            (host : HostId) × (old.actor ≡ ByHost host) ×
            (version.0 ≤ (W.meaning.version old.opening old.seen host).0) }
        ensures table { seat.new.table ≡ seat.old.table }
        ensures known { IsPublished seat.old.known seat.new.known version result }
    {
        let host = host_of(seat.actor());
        publish_version(&self.table.shared, &mut seat.inner, host, version)
    }

    /// Whether a host sees the words of the seven versions before the published one empty. Then no lane of it pins an
    /// older one. `false` comes where its last look saw a pin on one of these words. It waits for nothing.
    pub fn idle_below(&self, seat: &mut Seat<W>, version: Version) -> bool
        requires seat { seat.old.table ≡ self.now.table }
        requires host { (host : HostId) × (seat.old.known.actor ≡ ByHost host) }
        requires published { seat.old.known.note.published ≡ version }
        ensures table { seat.new.table ≡ seat.old.table }
        ensures known { HasLooked seat.old.known seat.new.known }
        ensures idle { result ≡ true → IsIdle seat.new.known.note version }
        ensures busy { result ≡ false → IsBusy seat.new.known.note version }
    {
        let host = host_of(seat.actor());
        is_idle(&self.table.shared, &mut seat.inner, host, version)
    }

    /// Ends the book, when the seats of all its actors have come back.
    pub fn close(self, seats: SeatList<W>) -> Journal<W>
        requires table { seats.table ≡ self.table }
        requires all { (actor : Actor) →
            has_actor self.about.actors actor ≡ true →
            HasKnown (known_by seats.seats) actor }
        ensures { IsClosed W.meaning self.about (known_by seats.seats) result }
    {
        let Book { table } = self;
        let (keeper, seats) = seats.into_parts();
        close_table(table, keeper, seats)
    }
}
