ghost use Rattle.std.specs.Prelude.{◌≡◌, ◌≤◌, ◌+◌, [], IfSome, OnOk, is_some, is_none};
ghost use Rattle.barrier_core.specs.Facts.{has_told, is_told, all_told, noted_facts, fact_of, is_complete_by, is_complete, complete_mode, lesser_host, least_without, first_without};

use crate::data::{Fact, Mode, Told, What};
use base_ids::{HostId, NoMemory, Session, Version};
use indexmap::IndexSet;
use std::alloc::Global;
use std::marker::Model;

/// The facts that a coordinator has heard. Each is found by the host and by what it told.
///
/// Callers see the list of the facts, the newest first and none of them twice, and `spare`: how many more are sure to
/// be noted without taking memory.
#[derive(Drop)]
pub struct Evidence {
    told: IndexSet<Told>,
    kinds: IndexSet<What>,
}

impl Model for Evidence {
    ghost use Rattle.std.specs.Prelude.{◌≡◌, min, reverse};
    ghost use Rattle.indexmap.specs.IndexSet.{spare};
    ghost use Rattle.barrier_core.specs.declared.data.What.{What};
    ghost use Rattle.barrier_core.specs.Facts.{is_told, has_kind};
    ghost use Rattle.barrier_core.specs.Heard.{Heard};

    ghost Value = { Heard };

    ghost view = { λ e. record { facts = reverse e.told.keys; spare = min (spare e.told) (spare e.kinds) } };

    ghost invariant = { λ e. (what : What) → has_kind e.kinds.keys what ≡ is_told e.told.keys what };
}

impl Evidence {
    ghost use Rattle.barrier_core.specs.declared.data.What.TheVariants.{Done, Clean, Ready};

    /// No facts yet, and no room for any.
    pub fn new(alloc: Global) -> Evidence
        ensures facts { result.facts ≡ [] }
    {
        Evidence {
            told: IndexSet::new(alloc),
            kinds: IndexSet::new(alloc),
        }
    }

    /// Makes room for one more fact. `NoMemory` leaves the facts, and the room that there was.
    pub fn reserve(&mut self) -> Result<(), NoMemory>
        ensures facts { self.new.facts ≡ self.old.facts }
        ensures room { self.old.spare ≤ self.new.spare }
        ensures ok { OnOk result (1 ≤ self.new.spare) }
    {
        self.told.reserve(1)?;
        self.kinds.reserve(1)?;
        Ok(())
    }

    /// Notes a fact for which there is room. What the host told before is not noted twice. Takes no memory.
    pub fn note(&mut self, fact: &Fact)
        requires { 1 ≤ self.old.spare }
        ensures facts { self.new.facts ≡ noted_facts self.old.facts fact.now }
        ensures room { self.old.spare ≤ self.new.spare + 1 }
    {
        let told = Told {
            from: fact.from,
            what: fact.what,
        };
        match self.told.insert(told) {
            Ok(_) => {}
            Err(_) => unreachable!(),
        }
        match self.kinds.insert(fact.what) {
            Ok(_) => {}
            Err(_) => unreachable!(),
        }
    }

    /// Forgets all facts, and keeps the room.
    pub fn clear(&mut self)
        ensures facts { self.new.facts ≡ [] }
        ensures room { self.old.spare ≤ self.new.spare }
    {
        self.told.clear();
        self.kinds.clear();
    }

    /// Whether some host has told that it pulled all of this session.
    pub fn has_done(&self, session: Session) -> bool
        ensures { result ≡ is_told self.now.facts (What.Done session) }
    {
        self.is_told(What::Done(session))
    }

    /// Whether some host has told that it cleaned what this session leaves behind there.
    pub fn has_cleaned(&self, session: Session) -> bool
        ensures { result ≡ is_told self.now.facts (What.Clean session) }
    {
        self.is_told(What::Clean(session))
    }

    /// Whether this host has told that it is ready for the split of this number.
    pub fn has_ready(&self, host: HostId, seq: Session) -> bool
        ensures { result ≡ has_told self.now.facts (What.Ready seq) host }
    {
        self.has_told(What::Ready(seq), host)
    }

    /// How a version was left behind on all hosts of both lists: drained where each of them has told that it drained
    /// the version, else fenced where each of them has told that it fenced it, else `None`.
    pub fn complete(&self, version: Version, members: &[HostId], before: &[HostId]) -> Option<Mode>
        ensures mode { result ≡ complete_mode self.now.facts version members.now before.now }
        ensures complete { is_some result ≡ is_complete self.now.facts version members.now before.now }
    {
        if self.is_complete_by(Mode::Drained, version, members, before) {
            Some(Mode::Drained)
        } else if self.is_complete_by(Mode::Fenced, version, members, before) {
            Some(Mode::Fenced)
        } else {
            None
        }
    }

    /// The least host of both lists that has not told of this version in this mode. `None` exactly where each has told.
    pub fn first_without(
        &self,
        mode: Mode,
        version: Version,
        members: &[HostId],
        before: &[HostId],
    ) -> Option<HostId>
        ensures host { result ≡ first_without self.now.facts mode version members.now before.now }
        ensures none { is_none result ≡ is_complete_by mode self.now.facts version members.now before.now }
    {
        let what = fact_of(mode, version);
        lesser_host(
            self.least_without(what, members),
            self.least_without(what, before),
        )
    }

    /// Whether all hosts of both lists have told of a version in one mode.
    fn is_complete_by(
        &self,
        mode: Mode,
        version: Version,
        members: &[HostId],
        before: &[HostId],
    ) -> bool
        ensures { result ≡ is_complete_by mode self.now.facts version members.now before.now }
    {
        let what = fact_of(mode, version);
        self.all_told(what, members) && self.all_told(what, before)
    }

    /// The least host of a list that has not told it.
    fn least_without(&self, what: What, hosts: &[HostId]) -> Option<HostId>
        ensures { result ≡ least_without self.now.facts what hosts.now }
    {
        let mut least = None;
        for host in hosts {
            if !self.has_told(what, *host) {
                least = lesser_host(least, Some(*host));
            }
        }
        least
    }

    /// Whether each host of a list has told it.
    fn all_told(&self, what: What, hosts: &[HostId]) -> bool
        ensures { result ≡ all_told self.now.facts what hosts.now }
    {
        hosts.iter().all(|host| self.has_told(what, *host))
    }

    /// Whether this host has told it.
    fn has_told(&self, what: What, host: HostId) -> bool
        ensures { result ≡ has_told self.now.facts what host }
    {
        let told = Told { from: host, what };
        self.told.contains(&told)
    }

    /// Whether some host has told it.
    fn is_told(&self, what: What) -> bool
        ensures { result ≡ is_told self.now.facts what }
    {
        self.kinds.contains(&what)
    }
}

/// What a host tells of a version in each mode.
fn fact_of(mode: Mode, version: Version) -> What
    ensures { result ≡ fact_of mode version }
{
    match mode {
        Mode::Drained => What::Drain(version),
        Mode::Fenced => What::Fence(version),
    }
}

/// The host of the lesser number, where there are two.
pub fn lesser_host(a: Option<HostId>, b: Option<HostId>) -> Option<HostId>
    ensures { result ≡ lesser_host a b }
{
    match (a, b) {
        (None, _) => b,
        (Some(_), None) => a,
        (Some(first), Some(second)) => { if second.0 < first.0 { b } else { a } }
    }
}
