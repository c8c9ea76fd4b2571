//! The journal, with the world whose log goes with it.
ghost use Rattle.std.specs.Prelude.{◌≡◌, ◌<◌, ◌≤◌, ◌++◌, ◌∷◌, [], length, option_copied, IfOk, OnOk, OnErr, vec_len};
ghost use Rattle.std.specs.Vec.{vec_capacity};
ghost use Rattle.book_rule.specs.World.{added, IsJudged};
ghost use Rattle.book_rule.specs.Seats.{Commits, Proposes, is_beyond, message_at};

use crate::lookup::entry_at;
use crate::room::add_in_room;
use base_ids::{Actor, Appended, LimitName, MsgRef, NoMemory, StateId, Version};
use book_rule::{BookError, Committed, World};
use shared_value::Shared;
use std::alloc::Global;
use std::marker::Model;

/// A world and the entries that led to its log.
#[derive(Drop)]
pub struct Journal<W: World> {
    /// The world.
    pub world: W,
    /// Its entries, the oldest first.
    pub entries: Vec<W::Entry>,
}

impl<W: World> Model for Journal<W> {
    ghost use Rattle.std.specs.Prelude.{reverse};
    ghost use Rattle.book_rule.specs.Turns.{Written};

    ghost Value = { Written W W.Entry };

    ghost view = { λ j. record { world = j.world; history = reverse j.entries.items } };
}

impl<W: World> Journal<W> {
    /// A world without entries.
    pub(crate) fn new(alloc: Global, world: W) -> Journal<W>
        ensures { result ≡ record { world = world; history = [] } }
    {
        Journal {
            world,
            entries: Vec::new(alloc),
        }
    }

    /// How many entries there are.
    pub(crate) fn len(&self) -> u64
        ensures { result ≡ length self.now.history }
    {
        self.entries.len() as u64
    }

    /// A copy of the message that a reference names.
    pub(crate) fn message(&self, at: MsgRef) -> Result<Option<W::Message>, NoMemory>
        ensures { IfOk result (λ message. message ≡ message_at W.meaning self.now.history at) }
    {
        match entry_at(self.entries.as_slice(), at.event) {
            Some(entry) => W::message_at(entry, at.out),
            None => Ok(None),
        }
    }

    /// Adds an entry that is no proposal, unless the journal is full.
    pub(crate) fn commit(&mut self, entry: W::Entry) -> Result<Committed, BookError>
        requires kept { length self.old.history ≤ W.meaning.most_entries }
        requires judged { let old = self.old.world in
            IsJudged W.meaning (W.meaning.opening old) (W.meaning.commands old) (W.meaning.kind entry) }
        ensures { Commits W.meaning entry self.old self.new result }
    {
        if self.len() == W::ENTRIES {
            return Err(BookError::Limit {
                name: LimitName::Events,
            });
        }
        self.add(entry)?;
        Ok(Committed {
            index: self.len(),
            log_len: self.world.log_len(),
        })
    }

    /// Adds the entry of a proposal with its outcome, unless the journal is full, or the log.
    pub(crate) fn propose(
        &mut self,
        topo: Actor,
        read: StateId,
        command: W::Command,
    ) -> Result<Appended<W::Rule>, BookError>
        requires kept { length self.old.history ≤ W.meaning.most_entries }
        requires log { length (W.meaning.commands self.old.world) ≤ W.meaning.most_commands }
        requires fit { W.meaning.is_fit command }
        ensures { Proposes W.meaning topo read.0 command self.old self.new result }
    {
        let entries = self.len();
        if entries == W::ENTRIES {
            return Err(BookError::Limit {
                name: LimitName::Events,
            });
        }
        let outcome = self.world.outcome(read, &command);
        if is_beyond(&outcome, W::LOG) {
            return Err(BookError::Limit {
                name: LimitName::Log,
            });
        }
        let alloc = *self.entries.allocator();
        let entry = W::proposal(alloc, topo, command, outcome)?;
        self.add(entry)?;
        Ok(outcome)
    }

    /// A copy of the command of a number.
    pub(crate) fn command(&self, n: u64) -> Result<Option<Shared<W::Command>>, NoMemory>
        ensures { IfOk result (λ command. command ≡ W.meaning.command_at (W.meaning.commands self.now.world) n) }
    {
        shared_of(self.world.command_at(n))
    }

    /// A copy of the snapshot of a version.
    pub(crate) fn snapshot(&self, version: Version) -> Result<Option<Shared<W::Snapshot>>, NoMemory>
        ensures { let world = self.now.world in
            IfOk result
            (λ snapshot.
            snapshot ≡ W.meaning.snapshot_at (W.meaning.opening world) (W.meaning.commands world) version) }
    {
        shared_of(self.world.snapshot_at(version))
    }

    /// Adds an entry. `NoMemory` leaves the entries and the log.
    pub(crate) fn add(&mut self, entry: W::Entry) -> Result<(), NoMemory>
        requires { let old = self.old.world in
            IsJudged W.meaning (W.meaning.opening old) (W.meaning.commands old) (W.meaning.kind entry) }
        ensures ok { let log = added (W.meaning.kind entry) (W.meaning.commands self.old.world) in
            OnOk result
            ((self.new.history ≡ entry ∷ self.old.history) × (W.meaning.commands self.new.world ≡ log)) }
        ensures err { let log = W.meaning.commands self.old.world in
            OnErr result ((self.new.history ≡ self.old.history) × (W.meaning.commands self.new.world ≡ log)) }
        ensures opening { W.meaning.opening self.new.world ≡ W.meaning.opening self.old.world }
    {
        self.entries.reserve(1)?;
        self.world.add(&entry)?;
        add_in_room(&mut self.entries, entry);
        Ok(())
    }
}

/// Whether an outcome is an entry of the log beyond the last one.
fn is_beyond<R>(outcome: &Appended<R>, last: u64) -> bool
    ensures { result ≡ is_beyond last outcome.now }
{
    match outcome {
        Appended::Accepted { index } => *index > last,
        Appended::Conflict { .. } | Appended::Illegal { .. } => false,
    }
}

/// One more owner of the value, if there is one.
fn shared_of<T: Drop>(found: Option<&Shared<T>>) -> Result<Option<Shared<T>>, NoMemory>
    ensures { IfOk result (λ shared. shared ≡ option_copied found.entry) }
{
    match found {
        Some(shared) => Ok(Some(shared.share()?)),
        None => Ok(None),
    }
}
