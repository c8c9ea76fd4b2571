//! The pulls of a host by their sessions.
ghost use Rattle.std.specs.Prelude.{◌≡◌, ◌≤◌, [], OnOk, None};
ghost use Rattle.std.specs.Option.{option_copied};
ghost use Rattle.host_core.specs.Pulls.{pull_in, with_pull, without_pull};

use base_ids::{NoMemory, Session};
use indexmap::IndexMap;
use std::alloc::Global;
use std::marker::Model;
use stream_core::Pull;

/// The pulls of a host, each found by its session, in the order in which they began.
#[derive(Drop)]
pub struct PullTable {
    pulls: IndexMap<Session, Pull>,
}

impl Model for PullTable {
    ghost use Rattle.indexmap.specs.IndexMap.{spare};
    ghost use Rattle.host_core.specs.Pulls.{PullTableView};

    ghost Value = { PullTableView };

    ghost view = { λ t. record { list = t.pulls.entries; spare = spare t.pulls } };
}

impl PullTable {
    /// No pulls, and no room for any.
    pub fn new(alloc: Global) -> PullTable
        ensures { result.list ≡ [] }
    {
        PullTable {
            pulls: IndexMap::new(alloc),
        }
    }

    /// Lends the pull of a session.
    pub fn get(&self, session: Session) -> Option<&Pull>
        ensures { option_copied result ≡ pull_in self.now.list session }
    {
        self.pulls.get(&session)
    }

    /// Makes room for one more pull.
    pub fn reserve(&mut self) -> Result<(), NoMemory>
        ensures list { self.new.list ≡ self.old.list }
        ensures ok { OnOk result (1 ≤ self.new.spare) }
    {
        match self.pulls.reserve(1) {
            Ok(()) => Ok(()),
            Err(_) => Err(NoMemory),
        }
    }

    /// Puts a pull in the place of the one of its session, or behind the others where there is none and room for it.
    /// Takes no memory.
    pub fn put(&mut self, session: Session, pull: Pull)
        requires { pull_in self.old.list session ≡ None → 1 ≤ self.old.spare }
        ensures { self.new.list ≡ with_pull self.old.list session pull }
    {
        match self.pulls.insert(session, pull) {
            Ok(_) => {}
            Err(_) => unreachable!(),
        }
    }

    /// Takes out the pull of a session, and leaves the others in their order.
    pub fn remove(&mut self, session: Session)
        ensures { self.new.list ≡ without_pull self.old.list session }
    {
        self.pulls.shift_remove(&session);
    }

    /// Takes out all pulls.
    pub fn clear(&mut self)
        ensures { self.new.list ≡ [] }
    {
        self.pulls.clear();
    }
}
