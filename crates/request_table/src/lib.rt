//! The live requests of a coordinator's lane, in the order of their begin.
#![tactic(auto)]

ghost use Rattle.std.specs.Prelude.{◌≡◌, ◌<◌, ◌≤◌, ◌↔◌, ◌++◌, [], ◌∷◌, ℕ, length, option_map, IsTrue, IsNone, IfSome, OnOk, OnErr, Some, None, IsSome, All, Contains};
ghost use Rattle.std.specs.Option.{option_copied, option_copied_mut};
ghost use Rattle.std.specs.Borrow.{sem};
ghost use Rattle.std.specs.List.{IsDistinct};
ghost use Rattle.std.specs.Map.{keys_of};
ghost use Rattle.request_table.specs.Requests.{is_same_request, request_of, with_work, without, versions_of, is_live_below};

use base_ids::{NoMemory, OpId, Version};
use indexmap::IndexMap;
use std::alloc::Global;
use std::marker::Model;

/// What a table keeps of one live request.
#[derive(Debug, PartialEq, Eq, Drop)]
pub struct Live<P, O> {
    /// The version of the topology at which the request began.
    pub version: Version,
    /// What the request holds for as long as it lives.
    pub held: P,
    /// The work that is carried out.
    pub work: O,
}

/// The live requests of one lane by their numbers, in the order of their begin.
///
/// Callers see `live`, the list of the numbers with what is kept of each, and `room`, the number that is sure to be
/// added without taking memory. No number stands in the list twice.
#[derive(Drop)]
pub struct RequestTable<P, O> {
    requests: IndexMap<OpId, Live<P, O>>,
    room: Option<OpId>,
}

impl<P, O> Model for RequestTable<P, O> {
    ghost use Rattle.std.specs.Prelude.{◌<◌, IsSome};
    ghost use Rattle.indexmap.specs.IndexMap.{spare};
    ghost use Rattle.request_table.specs.Requests.{Requests};

    ghost Value = { Requests P O };

    ghost view = { λ t. record { live = t.requests.entries; room = t.room } };

    ghost invariant = { λ t. IsSome t.room → 0 < spare t.requests };
}

impl<P: Drop, O: Drop> RequestTable<P, O> {
    ghost use Rattle.request_table.specs.Lending.{LendsWork};

    /// An empty table.
    pub fn new(alloc: Global) -> RequestTable<P, O>
        ensures live { result.live ≡ [] }
        ensures room { result.room ≡ None }
    {
        RequestTable {
            requests: IndexMap::new(alloc),
            room: None,
        }
    }

    /// Makes room for the request `op`, so that its `insert` takes no memory. The room stays until then, or until the
    /// next `reserve` or `clear`. `NoMemory` leaves the table as it was.
    pub fn reserve(&mut self, op: OpId) -> Result<(), NoMemory>
        requires { request_of self.old.live op ≡ None }
        ensures live { self.new.live ≡ self.old.live }
        ensures ok { OnOk result (self.new.room ≡ Some op) }
        ensures err { OnErr result (self.new.room ≡ self.old.room) }
    {
        match self.requests.reserve(1) {
            Ok(()) => {
                self.room = Some(op);
                Ok(())
            }
            Err(_) => Err(NoMemory),
        }
    }

    /// Adds a request for which there is room, after those that began before it. Takes no memory.
    pub fn insert(&mut self, op: OpId, version: Version, held: P, work: O)
        requires fresh { request_of self.old.live op ≡ None }
        requires has_room { self.old.room ≡ Some op }
        ensures live { self.new.live
            ≡ self.old.live ++ (op, record { version = version; held = held; work = work }) ∷ [] }
        ensures room { self.new.room ≡ None }
    {
        let live = Live {
            version,
            held,
            work,
        };
        match self.requests.insert(op, live) {
            Ok(_) => self.room = None,
            Err(_) => unreachable!(),
        }
    }

    /// Lends what is kept of a request. `None` comes exactly where the request is not live.
    pub fn get(&self, op: OpId) -> Option<&Live<P, O>>
        ensures { option_copied result ≡ request_of self.now.live op }
    {
        self.requests.get(&op)
    }

    /// Lends the work of a request, to be changed. `None` comes exactly where the request is not live.
    pub fn get_mut(&mut self, op: OpId) -> Option<&mut O>
        ensures* writes_back { sem 𝓛 (LendsWork P.row O.row self.entry op result) }
        ensures value { option_copied_mut result ≡ option_map (λ r. r.work) (request_of self.old.live op) }
    {
        match self.requests.get_mut(&op) {
            Some(live) => Some(&mut live.work),
            None => None,
        }
    }

    /// Ends a request: takes it out, and the others keep their order. `None` where no live request has the number.
    pub fn remove(&mut self, op: OpId) -> Option<(Version, P, O)>
        ensures value { result ≡ option_map (λ r. (r.version, r.held, r.work)) (request_of self.old.live op) }
        ensures live { self.new.live ≡ without self.old.live op }
        ensures gone { request_of self.new.live op ≡ None }
        ensures room { self.new.room ≡ self.old.room }
    {
        match self.requests.shift_remove(&op) {
            Some(
                Live {
                    version,
                    held,
                    work,
                },
            ) => Some((version, held, work)),
            None => None,
        }
    }

    /// The least version of the live requests, or `None` where there are none.
    pub fn oldest_version(&self) -> Option<Version>
        ensures none { IsNone result ↔ (self.now.live ≡ []) }
        ensures live { IfSome result (λ oldest. Contains (versions_of self.now.live) oldest.0) }
        ensures least { IfSome result (λ oldest. All (λ version. oldest.0 ≤ version) (versions_of self.now.live)) }
    {
        let oldest = self.requests.values().map(|live| live.version.0).min()?;
        Some(Version(oldest))
    }

    /// Whether a live request is of a version below `version`.
    pub fn live_below(&self, version: Version) -> bool
        ensures { result ≡ is_live_below self.now.live version }
    {
        self.requests
            .values()
            .map(|live| live.version.0)
            .any(|other| other < version.0)
    }

    /// How many requests are live.
    pub fn len(&self) -> usize
        ensures count { result ≡ length self.now.live }
        ensures distinct { IsDistinct is_same_request (keys_of self.now.live) }
    {
        self.requests.len()
    }

    /// Drops all requests, and the room.
    pub fn clear(&mut self)
        ensures live { self.new.live ≡ [] }
        ensures room { self.new.room ≡ None }
    {
        self.requests.clear();
        self.room = None;
    }
}
