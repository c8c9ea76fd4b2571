//! The log with the first state of each version.
ghost use Rattle.std.specs.Prelude.{◌≡◌, [], IfOk, OnErr, option_copied};
ghost use Rattle.group0_log.specs.Log.{log_after};
ghost use Rattle.topo_state.specs.Rules.{IsFit};
ghost use Rattle.snapshot_log.specs.First.{first_with, outcome_in};

use crate::append::{append, first_snapshots, snapshot_in};
use base_ids::{Appended, NoMemory, StateId, Version};
use group0_log::Log;
use meta_snap::Snapshot;
use shared_value::Shared;
use std::alloc::Global;
use std::marker::Model;
use topo_state::{Command, Rule, TopoState};

/// A log that keeps the first state of each version. Callers see it as the log. An accepted command is judged and
/// carried out once; the log and the snapshot share the state that it makes.
#[derive(Drop)]
pub struct SnapshotLog {
    log: Log,
    snapshots: Vec<Shared<Snapshot>>,
}

impl Model for SnapshotLog {
    ghost use Rattle.group0_log.specs.Log.{CommandLog};
    ghost use Rattle.snapshot_log.specs.First.{AreFirst};

    ghost Value = { CommandLog };

    ghost view = { λ l. l.log };

    ghost invariant = { λ l. AreFirst l.log l.snapshots.items };
}

impl SnapshotLog {
    /// The log over a state of version 1, without commands. `NoMemory` comes where memory for it is refused.
    pub fn new(alloc: Global, opening: TopoState) -> Result<SnapshotLog, NoMemory>
        requires { opening.version.0 ≡ 1 }
        ensures { IfOk result (λ log. log ≡ record { first = opening; commands = [] }) }
    {
        let log = Log::new(alloc, opening)?;
        let snapshots = first_snapshots(alloc, log.share_state()?)?;
        Ok(SnapshotLog { log, snapshots })
    }

    /// Lends the log.
    pub fn log(&self) -> &Log
        ensures { result.now ≡ self.now }
    {
        &self.log
    }

    /// Lends the first state that has a version.
    pub fn snapshot(&self, version: Version) -> Option<&Shared<Snapshot>>
        ensures { option_copied result ≡ first_with self.now version }
    {
        snapshot_in(self.snapshots.as_slice(), version)
    }

    /// Proposes a command whose proposer has read the state of this id. `NoMemory` comes where memory for the next
    /// entry is refused, and leaves the log as it was.
    pub fn append(
        &mut self,
        alloc: Global,
        read: StateId,
        command: Shared<Command>,
    ) -> Result<Appended<Rule>, NoMemory>
        requires { IsFit command }
        ensures outcome { IfOk result (λ appended. appended ≡ outcome_in self.old read.0 command) }
        ensures log { IfOk result (λ appended. self.new ≡ log_after self.old command appended) }
        ensures err { OnErr result (self.new ≡ self.old) }
    {
        append(alloc, &mut self.log, &mut self.snapshots, read, command)
    }
}
