//! What a coordinator keeps of its own entries.
ghost use Rattle.std.specs.Prelude.{◌≡◌, None, false, true, [], OnOk};
ghost use Rattle.plan_facts.specs.Own.{raises};
ghost use Rattle.engine_topos.specs.Notes.{ask_noted, asked_in, begun_of, first_notes, is_asked, look_noted, propose_noted, resets};

use barrier_core::What;
use base_ids::{Appended, HostId, NoMemory, Version};
use std::alloc::Global;
use std::marker::Model;
use topo_state::{Command, Rule};

/// An ask.
#[derive(Debug, Clone, Copy, PartialEq, Eq)]
pub struct Asked {
    /// The host that was asked.
    pub to: HostId,
    /// What was asked.
    pub what: What,
}

/// What a coordinator keeps of its own entries.
pub struct Notes {
    looked: bool,
    acted: bool,
    begun: Option<u64>,
    drained: Option<Version>,
    asks: Vec<Asked>,
}

impl Model for Notes {
    ghost use Rattle.engine_topos.specs.Notes.{NotesView};

    ghost Value = { NotesView };

    ghost view = { λ n. record {
      looked = n.looked;
      acted = n.acted;
      begun = n.begun;
      drained = n.drained;
      asks = n.asks.items;
    } };
}

fn is_asked(asked: &Asked, to: HostId, what: What) -> bool
    ensures { result ≡ is_asked to what asked.now }
{
    asked.to == to && asked.what == what
}

/// How often it was asked.
fn count_asked(asks: &[Asked], to: HostId, what: What) -> usize
    ensures { result ≡ asked_in to what asks.now }
{
    let mut count = 0;
    'asks: for asked in asks {
        if is_asked(asked, to, what) {
            count += 1;
        }
    }
    count
}

fn raises(command: &Command) -> bool
    ensures { result ≡ raises command.now }
{
    !matches!(command, Command::SetFence(_))
}

/// The number that an accepted start or resize has.
fn begun_by(command: &Command, outcome: &Appended<Rule>) -> Option<u64>
    ensures { result ≡ begun_of command.now outcome.now }
{
    match (command, outcome) {
        (Command::Start { .. } | Command::Resize { .. }, Appended::Accepted { index }) => Some(
            *index,
        ),
        _ => None,
    }
}

/// Whether the command counts the asks anew.
fn resets(command: &Command, outcome: &Appended<Rule>) -> bool
    ensures { result ≡ resets command.now outcome.now }
{
    raises(command) && matches!(outcome, Appended::Accepted { .. })
}

impl Notes {
    /// Nothing was done yet.
    pub fn new(alloc: Global) -> Notes
        ensures { result ≡ first_notes }
    {
        Notes {
            looked: false,
            acted: true,
            begun: None,
            drained: None,
            asks: Vec::new(alloc),
        }
    }

    /// Whether there was a look since the last proposal.
    pub fn looked(&self) -> bool
        ensures { result ≡ self.now.looked }
    {
        self.looked
    }

    /// Whether there was an ask or a proposal since the last look, or no look yet.
    pub fn acted(&self) -> bool
        ensures { result ≡ self.now.acted }
    {
        self.acted
    }

    /// The number of the last accepted start or resize.
    pub fn begun(&self) -> Option<u64>
        ensures { result ≡ self.now.begun }
    {
        self.begun
    }

    /// The last version that some host was asked to drain.
    pub fn drained(&self) -> Option<Version>
        ensures { result ≡ self.now.drained }
    {
        self.drained
    }

    /// How often it was asked since the last accepted command that raised the version.
    pub fn asked(&self, to: HostId, what: What) -> usize
        ensures { result ≡ asked_in to what self.now.asks }
    {
        count_asked(self.asks.as_slice(), to, what)
    }

    /// Notes an ask.
    pub fn note_ask(&mut self, to: HostId, what: What) -> Result<(), NoMemory>
        ensures { OnOk result (self.new ≡ ask_noted to what self.old) }
    {
        self.asks.push(Asked { to, what })?;
        self.acted = true;
        if let What::Drain(version) = what {
            self.drained = Some(version);
        }
        Ok(())
    }

    /// Notes a look.
    pub fn note_look(&mut self)
        ensures { self.new ≡ look_noted self.old }
    {
        self.looked = true;
        self.acted = false;
    }

    /// Notes a proposal.
    pub fn note_proposal(&mut self, command: &Command, outcome: &Appended<Rule>)
        ensures { self.new ≡ propose_noted command.now outcome.now self.old }
    {
        self.looked = false;
        self.acted = true;
        if let Some(index) = begun_by(command, outcome) {
            self.begun = Some(index);
        }
        if resets(command, outcome) {
            self.asks.clear();
        }
    }
}
