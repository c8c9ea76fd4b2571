//! The stores of the hosts, once a machine is taken apart.
ghost use Rattle.std.specs.Prelude.{◌≡◌, ◌<◌, ◌≤◌, ◌^◌, [], length, slice_index_or};
ghost use Rattle.std.specs.Vec.{vec_capacity};
ghost use Rattle.run_store.specs.Tables.{Laid};
ghost use Rattle.cluster_machine.specs.Stores.{AreOf};

use crate::outputs::add;
use base_ids::HostId;
use host_core::HostCore;
use run_store::RunStore;
use std::alloc::Global;
use std::marker::Model;

/// The stores of hosts, at most 65535 of them: that of host n is the n-th, from 0. Contracts see it as the list of them.
#[derive(Drop)]
pub struct StoreList {
    stores: Vec<RunStore>,
}

impl Model for StoreList {
    ghost use Rattle.std.specs.Prelude.{List, length, ◌<◌, ◌^◌};
    ghost use Rattle.run_store.specs.Tables.{Laid};

    ghost Value = { List Laid };

    ghost view = { λ list. list.stores.items };

    ghost invariant = { λ list. length list.stores.items < 2 ^ 16 };
}

impl StoreList {
    /// No stores, which takes no memory.
    pub fn new(alloc: Global) -> StoreList
        ensures { result ≡ [] }
    {
        StoreList {
            stores: Vec::new(alloc),
        }
    }

    /// How many stores there are.
    pub fn len(&self) -> u16
        ensures { result ≡ length self.now }
    {
        self.stores.len() as u16
    }

    /// Lends the store of a host.
    pub fn get(&self, host: HostId) -> &RunStore
        requires { host.0 < length self.now }
        ensures { (none : Laid) → result.now ≡ slice_index_or self.now host.0 none }
    {
        &self.stores[host.0 as usize]
    }

    /// Lends all stores.
    pub fn as_slice(&self) -> &[RunStore]
        ensures { result.now ≡ self.now }
    {
        self.stores.as_slice()
    }

    /// The list of these stores.
    pub fn from_vec(stores: Vec<RunStore>) -> StoreList
        requires { length stores.items < 2 ^ 16 }
        ensures { result ≡ stores.items }
    {
        StoreList { stores }
    }

    /// The stores, to be changed.
    pub fn into_vec(self) -> Vec<RunStore>
        ensures stores { result.items ≡ self }
        ensures few { length result.items < 2 ^ 16 }
    {
        let StoreList { stores } = self;
        stores
    }
}

/// The stores of hosts, in the order of the hosts, in a list that has room for them.
pub(crate) fn stores_of(hosts: Vec<HostCore<RunStore>>, room: Vec<RunStore>) -> StoreList
    requires few { length hosts.items < 2 ^ 16 }
    requires empty { room.items ≡ [] }
    requires room { length hosts.items ≤ vec_capacity room }
    ensures { AreOf hosts.items result }
{
    let mut stores = room;
    'hosts: for host in hosts {
        add(&mut stores, host.into_store());
    }
    StoreList { stores }
}
