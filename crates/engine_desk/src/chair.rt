//! The place from which an actor reads and writes the history that all actors share.
ghost use Rattle.std.specs.Prelude.{◌≡◌, ◌<◌, length, IfOk, IsSome, Option};
ghost use Rattle.base_ids.specs.declared.ids.Actor.{Actor};
ghost use Rattle.base_ids.specs.declared.ids.LaneId.{LaneId};
ghost use Rattle.group0_log.specs.Log.{command_at};
ghost use Rattle.cluster_history.specs.History.{message_at};
ghost use Rattle.cluster_history.specs.Topology.{log_of, state_of_version};
ghost use Rattle.engine_desk.specs.Chairs.{ArePinnable, HasPinned, HasSpare, HasTurned, IsCommit, IsHostSeat, IsLaneSeat, IsLook, IsNextVersion, IsPinning, IsProposal, IsPublishing, Known, MayCommit, MayPropose, found_idle, with_pins, without_pin};

use base_ids::{Appended, HostId, LimitName, MsgRef, NoMemory, StateId, Version};
use cluster_history::{Entry, Message};
use meta_snap::Snapshot;
use shared_value::Shared;
use std::alloc::{AllocError, Global};
use std::sync::Wait;
use topo_state::{Command, Rule};

/// Why an entry was not added.
#[derive(Debug, Clone, Copy, PartialEq, Eq)]
pub enum Refused {
    /// The history has as much as it may have.
    Limit(LimitName),
    /// Memory was refused.
    NoMemory,
}

impl From<NoMemory> for Refused {
    fn from(_error: NoMemory) -> Refused {
        Refused::NoMemory
    }
}

impl From<AllocError> for Refused {
    fn from(_error: AllocError) -> Refused {
        Refused::NoMemory
    }
}

/// The place of one actor. Each call that waits is a turn: the actor sees what came since its last one. The others, which
/// have no handle to wait by, leave what it has seen.
pub trait Chair: Drop {
    ghost known: { Self → Known };

    /// The message that a reference names, where the history has it.
    fn message<R: Wait>(
        &mut self,
        rt: &R,
        alloc: Global,
        at: MsgRef,
    ) -> Result<Option<Message>, NoMemory>
        ensures turned { HasTurned (known self.old) (known self.new) }
        ensures found { IfOk result (λ message. message ≡ message_at (known self.new).seen at) };

    /// The command of a number of the log, where the log has it.
    fn command<R: Wait>(&mut self, rt: &R, number: u64) -> Result<Option<Shared<Command>>, NoMemory>
        ensures turned { HasTurned (known self.old) (known self.new) }
        ensures found { IfOk result (λ command. command ≡ command_at (log_of (known self.new).seen) number) };

    /// The first state of a version, where the log has one of it. It has one of each version that a lane pins, which is
    /// no older than its host's floor and no newer than its host.
    fn snapshot<R: Wait>(
        &mut self,
        rt: &R,
        version: Version,
    ) -> Result<Option<Shared<Snapshot>>, NoMemory>
        ensures turned { HasTurned (known self.old) (known self.new) }
        ensures pinned { ArePinnable (known self.new) }
        ensures found { let new = known self.new in
            IfOk result (λ snapshot. snapshot ≡ state_of_version new.opening new.seen version) }
        ensures there { (lane : LaneId) → HasPinned (known self.new) lane version → IfOk result IsSome };

    /// A lane pins the version that its host has published. `None` comes where the host published another one meanwhile.
    /// A lane has at most 8 pins.
    fn pin(&mut self) -> Option<Version>
        requires lane { IsLaneSeat (known self.old) }
        requires room { length (known self.old).pins < 8 }
        ensures { IsPinning (known self.old) result (known self.new) };

    /// A lane takes back a pin that no live request needs.
    fn unpin(&mut self, version: Version)
        requires { HasSpare (known self.old) version }
        ensures { let old = known self.old in known self.new ≡ with_pins (without_pin version old.pins) old };

    /// A host publishes the next version, which it has reached. `false` comes where pins of an older version stand in its
    /// way.
    fn publish(&mut self, version: Version) -> bool
        requires { IsNextVersion (known self.old) version }
        ensures { IsPublishing (known self.old) version result (known self.new) };

    /// Whether no lane of the host pins a version below the one that it published last. This stays so until it
    /// publishes another one.
    fn idle_below(&mut self, version: Version) -> bool
        requires host { IsHostSeat (known self.old) }
        requires published { (known self.old).published ≡ version }
        ensures { known self.new ≡ record (known self.old) { idle = found_idle result version } };

    /// Adds an entry of the actor, and gives its number.
    fn commit<R: Wait>(&mut self, rt: &R, entry: Entry) -> Result<u64, Refused>
        requires { MayCommit (known self.old) entry }
        ensures { IsCommit (known self.old) entry result (known self.new) };

    /// Adds a look of the coordinator, and tells how many commands the log has there.
    fn look<R: Wait>(&mut self, rt: &R, topo: HostId) -> Result<u64, Refused>
        requires { (known self.old).actor ≡ Actor.Topo topo }
        ensures { IsLook (known self.old) topo result (known self.new) };

    /// Asks the log for a command, by what the coordinator has read of it, and gives what became of it.
    fn propose<R: Wait>(
        &mut self,
        rt: &R,
        topo: HostId,
        read: StateId,
        command: Command,
    ) -> Result<Appended<Rule>, Refused>
        requires { MayPropose (known self.old) topo read command }
        ensures { IsProposal (known self.old) topo command result (known self.new) };
}
