//! A host over a store.
ghost use Rattle.std.specs.Prelude.{◌≡◌, ◌≤◌, [], IfOk, OnOk, OnErr, MatchResult, None, Some};
ghost use Rattle.base_ids.specs.declared.ids.TableId.{TableId};
ghost use Rattle.host_core.specs.Host.{first_host, is_pulled, holds_here, pull_input_rule, host_rule, host_after, host_out, restarted_host, CanApply, CanTake};
ghost use Rattle.host_core.specs.Pulls.{pull_in, pull_of_state};
ghost use Rattle.host_core.specs.Groups.{grouping_of, runs_with, AreLeft};

use crate::data::{HostInput, HostOut, Made};
use crate::pulls::PullTable;
use crate::{effects, grouping, making};
use barrier_core::What;
use base_ids::{EventRule, FIRST_VERSION, HostId, NoMemory, Session, Version};
use replica_core::{serve_read, serve_write};
use replica_store::Store;
use std::alloc::Global;
use std::marker::Model;
use stream_core::ChunkAsk;
use topo_state::{Command, TopoState, has_split};

/// An input whose memory was taken. It is seen as that input.
#[derive(Drop)]
pub struct Prepared {
    input: HostInput,
}

impl Model for Prepared {
    ghost use Rattle.host_core.specs.declared.data.HostInput.{HostInput};

    ghost Value = { HostInput };

    ghost view = { λ p. p.input };
}

/// A host: the commands of the log that it has applied, its floor, the cells that it holds, and its pulls.
///
/// Contracts see it as plain data (`core`); beside that what was made for its next input, the room for cells and for
/// pulls, and the run counts of its store.
#[derive(Drop)]
pub struct HostCore<S: Store> {
    alloc: Global,
    host: HostId,
    applied: u64,
    state: TopoState,
    floor: Version,
    store: S,
    pulls: PullTable,
    made: Option<Made>,
}

impl<S: Store> Model for HostCore<S> {
    ghost use Rattle.host_core.specs.Ready.{Holding};
    ghost use Rattle.replica_store.specs.Cells.{IsOrdered};

    ghost Value = { Holding S };

    ghost view = { λ h. record {
      core = record {
        host = h.host;
        applied = h.applied;
        state = h.state;
        floor = h.floor;
        cells = S.cells h.store;
        pulls = h.pulls.list;
      };
      made = h.made;
      room = S.spare h.store;
      pull_room = h.pulls.spare;
      store = h.store;
    } };

    ghost invariant = { λ h. IsOrdered (S.cells h.store) };
}

impl<S: Store> HostCore<S> {
    ghost use Rattle.host_core.specs.Ready.{HasMade, IsMade, needed_cells, needed_pulls};
    ghost use Rattle.host_core.specs.declared.data.HostInput.{HostInput};
    ghost use Rattle.replica_store.specs.Cells.{IsOrdered};

    /// A host that has applied nothing and holds nothing, over the opening's state and an empty store.
    pub fn new(alloc: Global, host: HostId, opening: TopoState, store: S) -> HostCore<S>
        requires { S.cells store ≡ [] }
        ensures core { result.core ≡ first_host host opening }
        ensures store { result.store ≡ store }
    {
        HostCore {
            alloc,
            host,
            applied: 0,
            state: opening,
            floor: FIRST_VERSION,
            store,
            pulls: PullTable::new(alloc),
            made: None,
        }
    }

    /// How many commands of the log it has applied.
    pub fn applied(&self) -> u64
        ensures { result ≡ self.now.core.applied }
    {
        self.applied
    }

    /// Lends the state that they made.
    pub fn state(&self) -> &TopoState
        ensures { result.now ≡ self.now.core.state }
    {
        &self.state
    }

    /// The version below which its lanes begin nothing.
    pub fn floor(&self) -> Version
        ensures { result ≡ self.now.core.floor }
    {
        self.floor
    }

    /// Whether its pull of the session is done.
    pub fn has_done(&self, session: Session) -> bool
        ensures { result ≡ is_pulled (pull_in self.now.core.pulls session) }
    {
        match self.pulls.get(session) {
            Some(pull) => pull.is_done(),
            None => false,
        }
    }

    /// Lends its store.
    pub fn store(&self) -> &S
        ensures cells { S.cells result.now ≡ self.now.core.cells }
        ensures store { result.now ≡ self.now.store }
    {
        &self.store
    }

    /// Gives its store away, with the cells that it holds.
    pub fn into_store(self) -> S
        ensures cells { S.cells result ≡ self.core.cells }
        ensures store { result ≡ self.store }
        ensures ordered { IsOrdered (S.cells result) }
    {
        let HostCore {
            alloc: _,
            host: _,
            applied: _,
            state: _,
            floor: _,
            store,
            pulls: _,
            made: _,
        } = self;
        store
    }

    /// Whether the host can tell it.
    fn is_so(&self, what: What) -> bool
        ensures { result ≡ holds_here self.now.core what }
    {
        match what {
            What::Drain(version) => version.0 <= self.floor.0,
            What::Fence(version) => version.0 <= self.state.fence().0,
            What::Done(session) => self.has_done(session),
            What::Clean(_) => false,
            What::Ready(number) => has_split(&self.state, number),
        }
    }

    /// Whether there is nothing to pull for the session, or it was pulled.
    fn check_pull(&self, session: Session) -> Result<(), EventRule>
        ensures { MatchResult result
            (λ _. pull_input_rule (pull_of_state self.now.core.state self.now.core.host session)
            (pull_in self.now.core.pulls session) ≡ None)
            (λ broken. pull_input_rule (pull_of_state self.now.core.state self.now.core.host session)
            (pull_in self.now.core.pulls session) ≡ Some broken) }
    {
        if making::first_pull(&self.state, self.host, session).is_none() {
            Err(EventRule::NoStream)
        } else if self.has_done(session) {
            Err(EventRule::PullOver)
        } else {
            Ok(())
        }
    }

    /// The first rule of the input that the host's own state decides: `VersionAhead`, `NotTrue`, `NoStream`,
    /// `PullOver`.
    pub fn check(&self, input: &HostInput) -> Result<(), EventRule>
        ensures { MatchResult result (λ _. host_rule self.now.core input.now ≡ None)
            (λ broken. host_rule self.now.core input.now ≡ Some broken) }
    {
        match input {
            HostInput::Quiet(version) if self.state.version().0 < version.0 => {
                Err(EventRule::VersionAhead)
            }
            HostInput::Answer(ask) if !self.is_so(ask.what) => Err(EventRule::NotTrue),
            HostInput::Pull(session) => self.check_pull(*session),
            _ => Ok(()),
        }
    }

    /// Makes room for what the input puts and begins.
    fn make_room(&mut self, input: &HostInput) -> Result<(), NoMemory>
        ensures core { self.new.core ≡ self.old.core }
        ensures made { self.new.made ≡ self.old.made }
        ensures cells { OnOk result (needed_cells input.now ≤ self.new.room) }
        ensures pulls { OnOk result (needed_pulls input.now ≤ self.new.pull_room) }
        ensures runs { (t : TableId) → S.runs self.new.store t ≡ S.runs self.old.store t }
    {
        match input {
            HostInput::Write(_) => self.store.reserve(1),
            HostInput::TakeChunk(chunk) => self.store.reserve(chunk.cells.as_slice().len()),
            HostInput::Pull(_) => self.pulls.reserve(),
            _ => Ok(()),
        }
    }

    /// Makes the state after the command.
    fn make_next(&mut self, command: &Command) -> Result<(), NoMemory>
        requires { CanApply self.old.core command.now }
        ensures core { self.new.core ≡ self.old.core }
        ensures made { IfOk result (λ _. IsMade self.old.core self.new.made (HostInput.Apply command.now)) }
        ensures room { self.new.room ≡ self.old.room }
        ensures pull_room { self.new.pull_room ≡ self.old.pull_room }
        ensures runs { (t : TableId) → S.runs self.new.store t ≡ S.runs self.old.store t }
    {
        let next = making::next_state(self.alloc, &self.state, self.applied, command)?;
        self.made = Some(Made::State(next));
        Ok(())
    }

    /// Makes the chunk that is asked for.
    fn make_chunk(&mut self, ask: &ChunkAsk) -> Result<(), NoMemory>
        ensures core { self.new.core ≡ self.old.core }
        ensures made { IfOk result (λ _. IsMade self.old.core self.new.made (HostInput.SendChunk ask.now)) }
        ensures room { self.new.room ≡ self.old.room }
        ensures pull_room { self.new.pull_room ≡ self.old.pull_room }
        ensures runs { (t : TableId) → S.runs self.new.store t ≡ S.runs self.old.store t }
    {
        let chunk = making::chunk_for(self.alloc, &self.store, ask)?;
        self.made = Some(Made::Sent(chunk));
        Ok(())
    }

    /// Makes what the input takes memory for.
    fn make(&mut self, input: &HostInput) -> Result<(), NoMemory>
        requires { CanTake self.old.core input.now }
        ensures core { self.new.core ≡ self.old.core }
        ensures made { IfOk result (λ _. IsMade self.old.core self.new.made input.now) }
        ensures runs { (t : TableId) → S.runs self.new.store t ≡ S.runs self.old.store t }
    {
        match input {
            HostInput::Apply(command) => self.make_next(command.get()),
            HostInput::SendChunk(ask) => self.make_chunk(ask),
            _ => Ok(()),
        }
    }

    /// Lays the cells of a table into runs, where the input asks for it.
    fn regroup(&mut self, input: &HostInput) -> Result<(), NoMemory>
        requires { IsMade self.old.core self.old.made input.now }
        ensures core { self.new.core ≡ self.old.core }
        ensures made { self.new.made ≡ self.old.made }
        ensures ok { OnOk result ((t : TableId) → S.runs self.new.store t ≡
            runs_with (grouping_of self.old.core input.now) (S.runs self.old.store) t) }
        ensures err { OnErr result (AreLeft (grouping_of self.old.core input.now) (S.runs self.old.store)
            (S.runs self.new.store)) }
        ensures pull_room { self.new.pull_room ≡ self.old.pull_room }
        ensures room { needed_cells input.now ≤ self.old.room → needed_cells input.now ≤ self.new.room }
    {
        let grouping = grouping::grouping_of(&self.state, &self.made, input);
        grouping::regroup(&mut self.store, grouping)
    }

    /// Takes all memory of an input. Of `core` nothing changes; the run count of the table that the input regroups may.
    pub fn prepare(&mut self, input: HostInput) -> Result<Prepared, NoMemory>
        requires rule { host_rule self.old.core input ≡ None }
        requires fits { CanTake self.old.core input }
        ensures core { self.new.core ≡ self.old.core }
        ensures input { IfOk result (λ prepared. prepared ≡ input) }
        ensures ready { IfOk result (λ prepared. HasMade self.new prepared) }
        ensures runs { OnOk result ((t : TableId) → S.runs self.new.store t ≡
            runs_with (grouping_of self.old.core input) (S.runs self.old.store) t) }
        ensures err { OnErr result (AreLeft (grouping_of self.old.core input) (S.runs self.old.store)
            (S.runs self.new.store)) }
    {
        self.make(&input)?;
        self.make_room(&input)?;
        self.regroup(&input)?;
        Ok(Prepared { input })
    }

    /// Plays what was prepared. Takes no memory.
    pub fn settle(&mut self, prepared: Prepared) -> HostOut
        requires { HasMade self.old prepared }
        ensures core { self.new.core ≡ host_after self.old.core prepared }
        ensures out { result ≡ host_out self.old.core prepared }
        ensures runs { (t : TableId) → S.runs self.new.store t ≡ S.runs self.old.store t }
    {
        let Prepared { input } = prepared;
        match &input {
            HostInput::Apply(_) => {
                let Some(Made::State(next)) = self.made.take() else {
                    unreachable!()
                };
                self.state = next;
                self.applied += 1;
                HostOut::Nothing
            }
            HostInput::Quiet(version) => {
                self.floor = effects::greater_version(self.floor, *version);
                HostOut::Nothing
            }
            HostInput::Write(ask) => {
                let answer = serve_write(&mut self.store, self.state.fence(), ask);
                HostOut::Answer(answer)
            }
            HostInput::Read(ask) => {
                HostOut::Answer(serve_read(&self.store, self.state.fence(), ask))
            }
            HostInput::SendChunk(_) => {
                let Some(Made::Sent(chunk)) = self.made.take() else {
                    unreachable!()
                };
                HostOut::Chunk(chunk)
            }
            HostInput::TakeChunk(chunk) => {
                let out = making::chunk_out(&self.pulls, chunk.get());
                effects::take_chunk(&mut self.store, &mut self.pulls, chunk.get());
                out
            }
            HostInput::Answer(ask) => HostOut::Fact(making::fact_for(ask)),
            HostInput::Clean(ask) => {
                let out = making::clean_out(&self.state, self.host, ask);
                effects::clean(
                    &mut self.store,
                    &mut self.pulls,
                    self.host,
                    &self.state,
                    ask.what,
                );
                out
            }
            HostInput::Pull(session) => {
                let out = making::pull_out(&self.state, self.host, &self.pulls, *session);
                let begun = making::begun_pull(&self.state, self.host, &self.pulls, *session);
                effects::begin_pull(&mut self.pulls, *session, begun);
                out
            }
        }
    }

    /// Loses the pulls and what was prepared, and keeps all else.
    pub fn restart(&mut self)
        ensures core { self.new.core ≡ restarted_host self.old.core }
        ensures made { self.new.made ≡ None }
        ensures runs { (t : TableId) → S.runs self.new.store t ≡ S.runs self.old.store t }
    {
        self.pulls.clear();
        self.made = None;
    }
}
