ghost use Rattle.std.specs.Prelude.{◌≡◌, ◌≤◌, None, Some, IfOk, MatchResult};
ghost use Rattle.topo_coord.specs.Rules.{proposal_rule};
ghost use Rattle.topo_coord.specs.Topo.{topo_first, topo_restarted, topo_rule, topo_after, topo_out, IsReady};

use crate::data::{TopoInput, TopoOut};
use crate::rules::propose_rule;
use barrier_core::{Ask, Evidence};
use base_ids::{EventRule, HostId, NoMemory, StateId};
use std::alloc::Global;
use std::marker::Model;
use topo_state::{Command, TopoState};

/// An input for which all memory is there. Callers see it as that input.
#[derive(Drop)]
pub struct Prepared {
    input: TopoInput,
}

impl Model for Prepared {
    ghost use Rattle.topo_coord.specs.declared.data.TopoInput.{TopoInput};

    ghost Value = { TopoInput };

    ghost view = { λ p. p.input };
}

/// A topology coordinator. Callers see it as plain data, and beside it the room for facts.
#[derive(Drop)]
pub struct TopoCore {
    host: HostId,
    opening: TopoState,
    look: u64,
    seen: Option<TopoState>,
    evidence: Evidence,
}

impl Model for TopoCore {
    ghost use Rattle.std.specs.Prelude.{unwrap_or};
    ghost use Rattle.topo_coord.specs.Topo.{TopoHolding};

    ghost Value = { TopoHolding };

    ghost view = { λ t. record {
      core = record {
        host = t.host;
        opening = t.opening;
        look = t.look;
        state = unwrap_or t.seen t.opening;
        facts = t.evidence.facts;
      };
      room = t.evidence.spare;
    } };
}

impl TopoCore {
    /// The coordinator on a host, which has seen the state before the first command and heard nothing.
    pub fn new(alloc: Global, host: HostId, opening: TopoState) -> TopoCore
        ensures { result.core ≡ topo_first host opening }
    {
        TopoCore {
            host,
            opening,
            look: 0,
            seen: None,
            evidence: Evidence::new(alloc),
        }
    }

    /// How many commands the log had when the coordinator last looked.
    pub fn look(&self) -> u64
        ensures { result ≡ self.now.core.look }
    {
        self.look
    }

    /// Lends the state that it saw then.
    pub fn state(&self) -> &TopoState
        ensures { result.now ≡ self.now.core.state }
    {
        match &self.seen {
            None => &self.opening,
            Some(seen) => seen,
        }
    }

    /// Lends what it has heard.
    pub fn evidence(&self) -> &Evidence
        ensures { result.now.facts ≡ self.now.core.facts }
    {
        &self.evidence
    }

    /// Whether the input may happen. The error is the first rule that it breaks: only a proposal has any.
    pub fn check(&self, input: &TopoInput) -> Result<(), EventRule>
        ensures { MatchResult result (λ _. topo_rule self.now.core input.now ≡ None)
            (λ broken. topo_rule self.now.core input.now ≡ Some broken) }
    {
        match input {
            TopoInput::Propose(command) => self.check_command(command),
            TopoInput::Look { .. }
            | TopoInput::Ask { .. }
            | TopoInput::Hear(_)
            | TopoInput::HearNotMine => Ok(()),
        }
    }

    /// Whether the command may be proposed. The error is the first rule that this breaks.
    pub fn check_command(&self, command: &Command) -> Result<(), EventRule>
        ensures { MatchResult result (λ _. proposal_rule self.now.core.state self.now.core.facts command.now ≡ None)
            (λ broken. proposal_rule self.now.core.state self.now.core.facts command.now ≡ Some broken) }
    {
        match propose_rule(self.state(), &self.evidence, command) {
            None => Ok(()),
            Some(rule) => Err(rule),
        }
    }

    /// Takes all memory that an input needs. Nothing of the coordinator changes but the room, also at `NoMemory`.
    pub fn prepare(&mut self, input: TopoInput) -> Result<Prepared, NoMemory>
        requires { topo_rule self.old.core input ≡ None }
        ensures core { self.new.core ≡ self.old.core }
        ensures input { IfOk result (λ prepared. prepared ≡ input) }
        ensures ready { IfOk result (λ prepared. IsReady self.new prepared) }
    {
        match &input {
            TopoInput::Hear(_) => self.evidence.reserve()?,
            TopoInput::Look { .. }
            | TopoInput::Ask { .. }
            | TopoInput::HearNotMine
            | TopoInput::Propose(_) => {}
        }
        Ok(Prepared { input })
    }

    /// Carries out what was prepared by the last call on this coordinator. Takes no memory.
    pub fn settle(&mut self, prepared: Prepared) -> TopoOut
        requires { IsReady self.old prepared }
        ensures core { self.new.core ≡ topo_after self.old.core prepared }
        ensures out { result ≡ topo_out self.old.core prepared }
    {
        let Prepared { input } = prepared;
        match input {
            TopoInput::Look { len, state } => {
                self.look = len;
                self.seen = Some(state);
                TopoOut::Nothing
            }
            TopoInput::Ask { to, what } => TopoOut::Ask(Ask {
                by: self.host,
                to,
                what,
            }),
            TopoInput::Hear(fact) => {
                self.evidence.note(&fact);
                TopoOut::Nothing
            }
            TopoInput::HearNotMine => TopoOut::Nothing,
            TopoInput::Propose(command) => TopoOut::Propose {
                read: StateId(self.look),
                command,
            },
        }
    }

    /// Loses the look and all that was heard. Takes no memory.
    pub fn restart(&mut self)
        ensures { self.new.core ≡ topo_restarted self.old.core }
    {
        self.look = 0;
        self.seen = None;
        self.evidence.clear();
    }
}
