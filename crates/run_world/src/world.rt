//! The world of the running cluster.
ghost use Rattle.std.specs.Prelude.{◌≡◌, [], ◌∷◌, IfOk, refl};
ghost use Rattle.cluster_history.specs.Openings.{IsValidOpening};
ghost use Rattle.world_law.proofs.WorldLemmas.{run_laws};
ghost use Rattle.world_law.specs.Worlds.{host_of, proposal_of, run_meaning};

use crate::adding::add_command;
use crate::entries::{accepted_command, message_by};
use crate::opening::{copied, first_state};
use base_ids::{Actor, Appended, HostId, Items, NoMemory, StateId, Version};
use book_rule::World;
use cluster_history::{Entry, EntryList, Event, Journal, Message, Opening, Operation, Output};
use meta_snap::Snapshot;
use shared_value::Shared;
use snapshot_log::SnapshotLog;
use std::alloc::Global;
use std::marker::Model;
use topo_state::{Command, Rule};

/// The world of the running cluster: its opening, its log, and the first state of each version. Contracts see the
/// opening and the commands of the log, the newest first.
#[derive(Drop)]
pub struct RunWorld {
    alloc: Global,
    /// What the journal is made of in the end.
    opening: Opening,
    /// The same, for all who ask.
    shared: Shared<Opening>,
    log: SnapshotLog,
}

impl Model for RunWorld {
    ghost use Rattle.run_world.specs.Kept.{IsKept};
    ghost use Rattle.world_law.specs.Worlds.{OpenedLog};

    ghost Value = { OpenedLog };

    ghost view = { λ world. record { opening = world.opening; commands = world.log.commands } };

    ghost invariant = { λ world. IsKept world.opening world.shared world.log };
}

/// The host of a coordinator; that of another actor serves no purpose.
fn host_of(actor: Actor) -> HostId
    ensures { result ≡ host_of actor }
{
    match actor {
        Actor::Topo(host) | Actor::Host(host) => host,
        Actor::Lane(lane) => lane.host,
    }
}

impl RunWorld {
    /// The world of an opening that nothing has happened to. `NoMemory` comes where memory for it is refused.
    pub fn new(alloc: Global, opening: Opening) -> Result<RunWorld, NoMemory>
        requires { IsValidOpening opening }
        ensures { IfOk result (λ world. world ≡ record { opening = opening; commands = [] }) }
    {
        let state = first_state(alloc, &opening)?;
        let log = SnapshotLog::new(alloc, state)?;
        let copy = copied(alloc, &opening)?;
        Ok(RunWorld {
            alloc,
            opening,
            shared: Shared::new(alloc, copy)?,
            log,
        })
    }

    /// The journal of these entries, the oldest first, over the opening. Takes no memory.
    pub fn into_journal(self, entries: Vec<Entry>) -> Journal
        ensures { result ≡ record { opening = self.opening; entries = entries.items } }
    {
        let RunWorld {
            alloc: _,
            opening,
            shared: _,
            log: _,
        } = self;
        Journal {
            opening,
            entries: EntryList::from_vec(entries),
        }
    }
}

impl World for RunWorld {
    type Opening = Shared<Opening>;

    type Entry = Entry;

    type Command = Command;

    type Rule = Rule;

    type Message = Message;

    type Snapshot = Snapshot;

    const ENTRIES: u64 = 1_000_000;

    const LOG: u64 = 10_000;

    ghost ENTRIES = { 1000000 };

    ghost LOG = { 10000 };

    ghost meaning = { run_meaning };

    ghost limits = { (refl, refl) };

    ghost laws = { run_laws };

    fn opening(&self) -> Result<Shared<Opening>, NoMemory> {
        self.shared.share()
    }

    fn log_len(&self) -> u64 {
        self.log.log().len()
    }

    fn outcome(&self, read: StateId, command: &Command) -> Appended<Rule> {
        self.log.log().outcome(read, command)
    }

    fn proposal(
        alloc: Global,
        topo: Actor,
        command: Command,
        outcome: Appended<Rule>,
    ) -> Result<Entry, NoMemory>
        ensures { IfOk result (λ entry. entry ≡ proposal_of topo command outcome) }
    {
        let _inside: Option<(&Operation, &Message)> = None;
        let outputs = vec![in alloc; Output::Proposed(outcome)]?;
        Ok(Entry {
            event: Event::Propose {
                topo: host_of(topo),
                command,
            },
            outputs: Items::from_vec(outputs),
        })
    }

    fn add(&mut self, entry: &Entry) -> Result<(), NoMemory> {
        match accepted_command(entry) {
            None => Ok(()),
            Some(command) => add_command(self.alloc, &mut self.log, command),
        }
    }

    fn message_at(entry: &Entry, out: u32) -> Result<Option<Message>, NoMemory> {
        message_by(entry, out)
    }

    fn command_at(&self, n: u64) -> Option<&Shared<Command>> {
        self.log.log().entry(n)
    }

    fn snapshot_at(&self, version: Version) -> Option<&Shared<Snapshot>> {
        self.log.snapshot(version)
    }
}
