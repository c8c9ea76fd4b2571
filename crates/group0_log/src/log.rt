ghost use Rattle.std.specs.Prelude.{◌≡◌, ◌<◌, ◌≤◌, ◌-◌, ◌^◌, ◌∷◌, [], None, length, option_copied, IfOk, OnErr, OnOk};
ghost use Rattle.topo_state.specs.Rules.{rule, IsFit};
ghost use Rattle.base_ids.specs.Outcomes.{outcome_of};
ghost use Rattle.group0_log.specs.Log.{state_of, state_at, command_at, log_after, IsLegalLog};

use crate::entries::{entry_at, push_entry};
use crate::replay::replayed;
use base_ids::{Appended, NoMemory, StateId};
use shared_value::Shared;
use std::alloc::Global;
use std::marker::Model;
use topo_state::{Command, Rule, TopoState};

/// The accepted commands in order, over a first state, and the state after all of them, which others may share.
#[derive(Drop)]
pub struct Log {
    opening: Shared<TopoState>,
    entries: Vec<Shared<Command>>,
    state: Shared<TopoState>,
}

impl Model for Log {
    ghost use Rattle.std.specs.Prelude.{◌≡◌, reverse};
    ghost use Rattle.group0_log.specs.Log.{CommandLog, state_of, IsLegalLog, AreBelowEnd};

    ghost Value = { CommandLog };

    ghost view = { λ l. record { first = l.opening; commands = reverse l.entries.items } };

    ghost invariant = { λ l. (l.state ≡ state_of l.opening (reverse l.entries.items)) ×
        IsLegalLog l.opening (reverse l.entries.items) × AreBelowEnd l.opening (reverse l.entries.items) };
}

impl Log {
    /// The log over a first state, without commands. `NoMemory` comes where memory for it is refused.
    pub fn new(alloc: Global, opening: TopoState) -> Result<Log, NoMemory>
        ensures { IfOk result (λ log. log ≡ record { first = opening; commands = [] }) }
    {
        let opening = Shared::new(alloc, opening)?;
        let state = opening.share()?;
        Ok(Log {
            opening,
            entries: Vec::new(alloc),
            state,
        })
    }

    /// How many commands the log has. It is the id of its last state.
    pub fn len(&self) -> u64
        ensures { result ≡ length self.now.commands }
    {
        self.entries.len() as u64
    }

    /// Lends the state after all commands.
    pub fn state(&self) -> &TopoState
        ensures state { result.now ≡ state_of self.now.first self.now.commands }
        ensures legal { IsLegalLog self.now.first self.now.commands }
    {
        self.state.get()
    }

    /// The state after all commands, with one more owner. Nothing is copied.
    pub fn share_state(&self) -> Result<Shared<TopoState>, NoMemory>
        ensures { IfOk result (λ state. state ≡ state_of self.now.first self.now.commands) }
    {
        self.state.share()
    }

    /// Lends the command of an entry, from 1.
    pub fn entry(&self, n: u64) -> Option<&Shared<Command>>
        ensures { option_copied result ≡ command_at self.now.commands n }
    {
        entry_at(self.entries.as_slice(), n)
    }

    /// What would become of the proposal of a command whose proposer has read the state of this id: a conflict where that
    /// is not the last state, else illegal where the command breaks a rule there, else the next entry.
    pub fn outcome(&self, read: StateId, command: &Command) -> Appended<Rule>
        requires { IsFit command.now }
        ensures { result ≡ outcome_of read.0 (length self.now.commands)
            (rule (state_of self.now.first self.now.commands) command.now) }
    {
        let last = self.entries.len() as u64;
        if read.0 != last {
            return Appended::Conflict {
                last: StateId(last),
            };
        }
        match self.state.judge(command) {
            Err(rule) => Appended::Illegal { rule },
            Ok(()) => Appended::Accepted { index: last + 1 },
        }
    }

    /// Proposes a command whose proposer has read the state of this id. It is a conflict where that is not the last
    /// state, and illegal where the command breaks a rule there; then the log is as before. Else it is the next entry.
    /// `NoMemory` comes where memory for that is refused, and leaves the log as it was.
    pub fn append(
        &mut self,
        alloc: Global,
        read: StateId,
        command: Shared<Command>,
    ) -> Result<Appended<Rule>, NoMemory>
        requires fit { IsFit command }
        requires version { (state_of self.old.first self.old.commands).version.0 < 2 ^ 64 - 1 }
        ensures outcome { IfOk result (λ appended. appended ≡ outcome_of read.0 (length self.old.commands)
            (rule (state_of self.old.first self.old.commands) command)) }
        ensures log { IfOk result (λ appended. self.new ≡ log_after self.old command appended) }
        ensures err { OnErr result (self.new ≡ self.old) }
    {
        let outcome = self.outcome(read, command.get());
        if let Appended::Accepted { .. } = outcome {
            let next = self.next_state(alloc, command.get())?;
            self.push(command, next)?;
        }
        Ok(outcome)
    }

    /// The state after a further command, which is judged well. It is made once, before the log has the command.
    /// `NoMemory` comes where memory for it is refused.
    pub fn next_state(
        &self,
        alloc: Global,
        command: &Command,
    ) -> Result<Shared<TopoState>, NoMemory>
        requires fit { IsFit command.now }
        requires judged { rule (state_of self.now.first self.now.commands) command.now ≡ None }
        requires version { (state_of self.now.first self.now.commands).version.0 < 2 ^ 64 - 1 }
        ensures { IfOk result (λ next. next ≡ state_of self.now.first (command.now ∷ self.now.commands)) }
    {
        let mut next = self.state.get().clone_in(alloc)?;
        next.apply(alloc, command, self.len() + 1)?;
        Shared::new(alloc, next)
    }

    /// Adds the next entry, whose command is judged well, with the state after it. `NoMemory` leaves the log as it was.
    pub fn push(
        &mut self,
        command: Shared<Command>,
        next: Shared<TopoState>,
    ) -> Result<(), NoMemory>
        requires fit { IsFit command }
        requires judged { rule (state_of self.old.first self.old.commands) command ≡ None }
        requires version { (state_of self.old.first self.old.commands).version.0 < 2 ^ 64 - 1 }
        requires next { next ≡ state_of self.old.first (command ∷ self.old.commands) }
        ensures ok { OnOk result (self.new ≡ record self.old { commands = command ∷ self.old.commands }) }
        ensures err { OnErr result (self.new ≡ self.old) }
    {
        push_entry(&mut self.entries, command)?;
        self.state = next;
        Ok(())
    }

    /// The state after the first `n` commands. The last one is copied; an earlier one is made anew, command by command.
    /// `NoMemory` comes where memory for that is refused.
    pub fn state_at(&self, alloc: Global, n: u64) -> Result<TopoState, NoMemory>
        requires { n ≤ length self.now.commands }
        ensures { IfOk result (λ state. state ≡ state_at self.now.first self.now.commands n) }
    {
        if n == self.len() {
            self.state.get().clone_in(alloc)
        } else {
            replayed(
                alloc,
                self.opening.get(),
                self.entries.as_slice(),
                n as usize,
            )
        }
    }
}
