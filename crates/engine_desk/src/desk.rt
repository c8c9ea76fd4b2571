//! One actor at its desk: its place at the history, its mail, and what it took.
ghost use Rattle.std.specs.Vec.{vec_capacity};
ghost use Rattle.std.specs.Prelude.{◌≡◌, ◌<◌, ◌++◌, [], length, option_to_list, vec_len, IfOk, IsSome, MatchResult, None, Some, IfSome};
ghost use Rattle.base_ids.specs.declared.ids.MsgRef.{MsgRef};
ghost use Rattle.base_ids.specs.declared.ids.Actor.{Actor};
ghost use Rattle.base_ids.specs.declared.ids.LaneId.{LaneId};
ghost use Rattle.group0_log.specs.Log.{command_at};
ghost use Rattle.cluster_history.specs.History.{message_at};
ghost use Rattle.cluster_history.specs.Topology.{log_of, state_of_version};
ghost use Rattle.plan_facts.specs.Own.{taken_count, taken_ref};
ghost use Rattle.engine_desk.specs.Chairs.{ArePinnable, HasPinned, HasSpare, IsHostSeat, IsLaneSeat, IsNextVersion, IsPinning, IsPublishing, IsRun, MayCommit, MayPropose, found_idle, with_pins, without_pin};
ghost use Rattle.engine_desk.specs.Desks.{count_in, DeskNoted, DeskTurned, fresh, IsDeskCommit, IsDeskLook, IsDeskProposal, IsFetched, skipping, taking};

use crate::chair::{Chair, Refused};
use crate::mail::Mail;
use base_ids::{Appended, HostId, MsgRef, NoMemory, StateId, Version};
use cluster_history::{Entry, Message};
use meta_snap::Snapshot;
use plan_facts::{Skip, SkipCause};
use shared_value::Shared;
use std::alloc::Global;
use std::marker::Model;
use std::sync::Wait;
use topo_state::{Command, Rule};

/// One actor's place, its mail, and what it took and made no entry of.
#[derive(Drop)]
pub struct Desk<C: Chair, M: Mail> {
    chair: C,
    mail: M,
    own: u64,
    refs: Vec<MsgRef>,
    held: Option<MsgRef>,
    skips: Vec<Skip>,
}

impl<C: Chair, M: Mail> Model for Desk<C, M> {
    ghost use Rattle.std.specs.Prelude.{◌≡◌, ◌<◌, IsSome, reverse, vec_len};
    ghost use Rattle.std.specs.Vec.{vec_capacity};
    ghost use Rattle.engine_desk.specs.Desks.{DeskView, IsFiled};

    ghost Value = { DeskView };

    ghost view = { λ d. record {
      known = C.known d.chair;
      took = (M.mail d.mail).took;
      takes = (M.mail d.mail).takes;
      held = d.held;
      skips = reverse d.skips.items;
    } };

    ghost invariant = { λ d. IsFiled (C.known d.chair) d.own d.refs.items
        × (IsSome d.held → vec_len d.skips < vec_capacity d.skips) };
}

/// Adds a message, where there is one, for which there is room.
fn note(refs: &mut Vec<MsgRef>, taken: Option<MsgRef>)
    requires { vec_len refs.old < vec_capacity refs.old }
    ensures { refs.new.items ≡ refs.old.items ++ option_to_list taken }
{
    if let Some(at) = taken {
        if refs.push(at).is_err() {
            unreachable!()
        }
    }
}

/// How often the message stands in the list.
fn count_of(refs: &[MsgRef], at: MsgRef) -> usize
    ensures { result ≡ count_in at refs.now }
{
    let mut count = 0;
    'refs: for other in refs {
        if *other == at {
            count += 1;
        }
    }
    count
}

impl<C: Chair, M: Mail> Desk<C, M> {
    /// A new desk, of an actor that has done nothing.
    pub fn new(alloc: Global, chair: C, mail: M) -> Desk<C, M>
        requires chair { (C.known chair).seen ≡ [] }
        requires mail { (M.mail mail).took ≡ [] }
        ensures { result ≡ fresh (C.known chair) (M.mail mail).takes }
    {
        Desk {
            chair,
            mail,
            own: 0,
            refs: Vec::new(alloc),
            held: None,
            skips: Vec::new(alloc),
        }
    }

    /// The chair of the desk.
    pub fn into_chair(self) -> C
        ensures { C.known result ≡ self.known }
    {
        let Desk {
            chair,
            mail: _,
            own: _,
            refs: _,
            held: _,
            skips: _,
        } = self;
        chair
    }

    /// Asks for a message, and holds it. `NoMemory` asks for none.
    pub fn take<R: Wait>(&mut self, rt: &R) -> Result<Option<MsgRef>, NoMemory>
        requires { self.old.held ≡ None }
        ensures { MatchResult result (λ at. self.new ≡ taking at self.old) (λ _. self.new ≡ self.old) }
    {
        self.skips.reserve(1)?;
        let at = self.mail.take(rt);
        self.held = at;
        Ok(at)
    }

    /// Makes no entry of the message that is held.
    pub fn skip(&mut self, cause: SkipCause)
        requires { IsSome self.old.held }
        ensures { (at : MsgRef) → self.old.held ≡ Some at → self.new ≡ skipping cause self.old at }
    {
        let Some(at) = self.held.take() else {
            unreachable!()
        };
        let skip = Skip {
            at,
            after: self.own,
            cause,
        };
        if self.skips.push(skip).is_err() {
            unreachable!()
        }
    }

    /// The message that a reference names, where the history has it.
    pub fn message<R: Wait>(
        &mut self,
        rt: &R,
        alloc: Global,
        at: MsgRef,
    ) -> Result<Option<Message>, NoMemory>
        ensures turned { DeskTurned self.old self.new }
        ensures found { IfOk result (λ message. message ≡ message_at self.new.known.seen at) }
    {
        self.chair.message(rt, alloc, at)
    }

    /// The command of a number of the log, where the log has it.
    pub fn command<R: Wait>(
        &mut self,
        rt: &R,
        number: u64,
    ) -> Result<Option<Shared<Command>>, NoMemory>
        ensures turned { DeskTurned self.old self.new }
        ensures found { IfOk result (λ command. command ≡ command_at (log_of self.new.known.seen) number) }
    {
        self.chair.command(rt, number)
    }

    /// The first state of a version, where the log has one of it. It has one of each version that a lane pins, which is
    /// no older than its host's floor and no newer than its host.
    pub fn snapshot<R: Wait>(
        &mut self,
        rt: &R,
        version: Version,
    ) -> Result<Option<Shared<Snapshot>>, NoMemory>
        ensures turned { DeskTurned self.old self.new }
        ensures pinned { ArePinnable self.new.known }
        ensures found { let new = self.new.known in
            IfOk result (λ snapshot. snapshot ≡ state_of_version new.opening new.seen version) }
        ensures there { (lane : LaneId) → HasPinned self.new.known lane version → IfOk result IsSome }
    {
        self.chair.snapshot(rt, version)
    }

    /// A lane pins the version that its host has published. `None` comes where the host published another one meanwhile.
    /// A lane has at most 8 pins.
    pub fn pin(&mut self) -> Option<Version>
        requires lane { IsLaneSeat self.old.known }
        requires room { length self.old.known.pins < 8 }
        ensures pinned { IsPinning self.old.known result self.new.known }
        ensures noted { DeskNoted self.old self.new }
    {
        self.chair.pin()
    }

    /// A lane takes back a pin that no live request needs.
    pub fn unpin(&mut self, version: Version)
        requires { HasSpare self.old.known version }
        ensures { let old = self.old.known in
            self.new ≡ record self.old { known = with_pins (without_pin version old.pins) old } }
    {
        self.chair.unpin(version)
    }

    /// A host publishes the next version, which it has reached. `false` comes where pins of an older version stand in its
    /// way.
    pub fn publish(&mut self, version: Version) -> bool
        requires { IsNextVersion self.old.known version }
        ensures published { IsPublishing self.old.known version result self.new.known }
        ensures noted { DeskNoted self.old self.new }
    {
        self.chair.publish(version)
    }

    /// Whether no lane of the host pins a version below the one that it published last. This stays so until it
    /// publishes another one.
    pub fn idle_below(&mut self, version: Version) -> bool
        requires host { IsHostSeat self.old.known }
        requires published { self.old.known.published ≡ version }
        ensures { self.new ≡
            record self.old { known = record self.old.known { idle = found_idle result version } } }
    {
        self.chair.idle_below(version)
    }

    /// Adds an entry of the actor, which takes the message that is held, and gives its number.
    pub fn commit<R: Wait>(&mut self, rt: &R, entry: Entry) -> Result<u64, Refused>
        requires may { MayCommit self.old.known entry }
        requires held { self.old.held ≡ taken_ref entry.event }
        requires run { IsRun self.old.known.opening self.old.known.seen }
        ensures { IsDeskCommit self.old entry result self.new }
    {
        self.refs.reserve(1)?;
        let number = self.chair.commit(rt, entry)?;
        self.own += 1;
        let taken = self.held.take();
        note(&mut self.refs, taken);
        Ok(number)
    }

    /// How often it asked for a message.
    pub fn takes(&self) -> u64
        ensures { result ≡ self.now.takes }
    {
        self.mail.takes()
    }

    /// How many entries of the actor took the message.
    pub fn taken(&self, at: MsgRef) -> usize
        ensures { result ≡ taken_count self.now.known.actor self.now.known.seen at }
    {
        count_of(self.refs.as_slice(), at)
    }

    /// Waits until the history has the message.
    pub fn wait_for<R: Wait>(
        &mut self,
        rt: &R,
        alloc: Global,
        at: MsgRef,
    ) -> Result<Message, NoMemory>
        requires { IsRun self.old.known.opening self.old.known.seen }
        ensures turned { DeskTurned self.old self.new }
        ensures found { IfOk result (λ message. message_at self.new.known.seen at ≡ Some message) }
    {
        'waiting: for _ in rt.forever() {
            if let Some(message) = self.message(rt, alloc, at)? {
                return Ok(message);
            }
        }
        unreachable!()
    }

    /// Asks for a message, and waits until the history has it.
    pub fn next<R: Wait>(
        &mut self,
        rt: &R,
        alloc: Global,
    ) -> Result<Option<(MsgRef, Message)>, NoMemory>
        requires free { self.old.held ≡ None }
        requires run { IsRun self.old.known.opening self.old.known.seen }
        ensures { IsFetched self.old result self.new }
    {
        let Some(at) = self.take(rt)? else {
            return Ok(None);
        };
        let message = self.wait_for(rt, alloc, at)?;
        Ok(Some((at, message)))
    }

    /// Adds a look of the coordinator, while no message is held; tells how many commands the log has there.
    pub fn look<R: Wait>(&mut self, rt: &R, topo: HostId) -> Result<u64, Refused>
        requires topo { self.old.known.actor ≡ Actor.Topo topo }
        requires held { self.old.held ≡ None }
        requires run { IsRun self.old.known.opening self.old.known.seen }
        ensures { IsDeskLook self.old topo result self.new }
    {
        let commands = self.chair.look(rt, topo)?;
        self.own += 1;
        Ok(commands)
    }

    /// Asks the log for a command, by what the coordinator has read of it and while no message is held; gives what
    /// became of it.
    pub fn propose<R: Wait>(
        &mut self,
        rt: &R,
        topo: HostId,
        read: StateId,
        command: Command,
    ) -> Result<Appended<Rule>, Refused>
        requires may { MayPropose self.old.known topo read command }
        requires held { self.old.held ≡ None }
        requires run { IsRun self.old.known.opening self.old.known.seen }
        ensures { IsDeskProposal self.old topo command result self.new }
    {
        let outcome = self.chair.propose(rt, topo, read, command)?;
        self.own += 1;
        Ok(outcome)
    }
}
