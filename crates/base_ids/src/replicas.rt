// The replicas of a tablet, in order.
ghost use Rattle.std.specs.Prelude.{◌≡◌, ◌≤◌, ◌<◌, [], length, position, slice_set, IfOk, OnOk};
ghost use Rattle.base_ids.specs.Names.{same_host};
ghost use Rattle.base_ids.specs.Replicas.{has_host, has_replica, is_on, same_replica};

use crate::ids::{HostId, Replica};
use crate::memory::NoMemory;
use std::alloc::Global;
use std::marker::Model;

/// A list of at most 9 replicas, in order: the 8 of a tablet, and one that is pending.
#[derive(Debug, Drop)]
pub struct ReplicaList {
    items: Vec<Replica>,
}

impl Model for ReplicaList {
    ghost use Rattle.std.specs.Prelude.{List, length, ◌≤◌};
    ghost use Rattle.base_ids.specs.declared.ids.Replica.{Replica};

    ghost Value = { List Replica };

    ghost view = { λ list. list.items.items };

    ghost invariant = { λ list. length list.items.items ≤ 9 };
}

impl ReplicaList {
    /// The list of no replicas, which takes no memory.
    pub fn empty(alloc: Global) -> ReplicaList
        ensures { result ≡ [] }
    {
        ReplicaList {
            items: Vec::new(alloc),
        }
    }

    /// The list of these replicas, in their order. `NoMemory` comes where memory for it is refused.
    pub fn new(alloc: Global, items: &[Replica]) -> Result<ReplicaList, NoMemory>
        requires { length items.now ≤ 9 }
        ensures { IfOk result (λ list. list ≡ items.now) }
    {
        let items = Vec::from_slice(alloc, items)?;
        Ok(ReplicaList { items })
    }

    /// Lends the replicas.
    pub fn as_slice(&self) -> &[Replica]
        ensures list { result.now ≡ self.now }
        ensures few { length self.now ≤ 9 }
    {
        self.items.as_slice()
    }

    /// An equal list. `NoMemory` comes where memory for it is refused.
    pub fn clone_in(&self, alloc: Global) -> Result<ReplicaList, NoMemory>
        ensures { IfOk result (λ list. list ≡ self.now) }
    {
        ReplicaList::new(alloc, self.as_slice())
    }

    /// Puts another replica into one place. It takes no memory.
    pub fn replace(&mut self, index: usize, replica: Replica)
        requires { index < length self.old }
        ensures { self.new ≡ slice_set self.old index replica }
    {
        self.items[index] = replica;
    }
}

/// Whether two hosts are the same.
pub fn is_same_host(a: HostId, b: HostId) -> bool
    ensures { result ≡ same_host a b }
{
    a == b
}

/// Whether two replicas are one shard of one host.
pub fn is_same_replica(a: Replica, b: Replica) -> bool
    ensures { result ≡ same_replica a b }
{
    a == b
}

/// The first place of a replica in a list. `None` exactly where it is not there.
pub fn place_of_replica(replicas: &[Replica], sought: Replica) -> Option<usize>
    ensures { result ≡ position (same_replica sought) replicas.now }
{
    replicas
        .iter()
        .position(|replica| is_same_replica(sought, *replica))
}

/// Whether a replica is in a list.
pub fn has_replica(replicas: &[Replica], sought: Replica) -> bool
    ensures { result ≡ has_replica replicas.now sought }
{
    replicas
        .iter()
        .any(|replica| is_same_replica(sought, *replica))
}

/// Whether the replica is on the host.
pub fn is_on(host: HostId, replica: Replica) -> bool
    ensures { result ≡ is_on host replica }
{
    host == replica.host
}

/// Whether a replica of the list is on the host.
pub fn has_host(replicas: &[Replica], host: HostId) -> bool
    ensures { result ≡ has_host replicas.now host }
{
    replicas.iter().any(|replica| is_on(host, *replica))
}
