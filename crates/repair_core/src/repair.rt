//! The repair of a tablet.
ghost use Rattle.std.specs.Prelude.{◌≡◌, ◌≤◌, ◌<◌, ◌+◌, ◌^◌, ◌++◌, true, length, map, take, IfOk, OnOk, OnErr, option_map, IsTrue};
ghost use Rattle.base_ids.specs.Replicas.{on_distinct_hosts};
ghost use Rattle.base_ids.specs.declared.ids.TableId.{TableId};
ghost use Rattle.replica_store.specs.Cells.{IsOrdered};
ghost use Rattle.stream_core.specs.Pulls.{next_ask};
ghost use Rattle.stream_core.specs.declared.pull.Took.{Took};
ghost use Rattle.gather_core.specs.Gathers.{gather_after, stored_after, took_of};
ghost use Rattle.repair_core.specs.Repairs.{route_in, route_out, repair_routes, repair_of, are_known};
ghost use Rattle.repair_core.specs.Laws.{IsRepaired};
ghost use Rattle.gather_core.specs.Laws.{AreOrdered};
ghost use Rattle.gather_core.specs.Rounds.{cells_in};

use base_ids::{NoMemory, Replica, ReplicaList, Session, TableId};
use gather_core::{Gather, Route, gather_all};
use replica_store::Store;
use std::alloc::Global;
use std::marker::Model;
use stream_core::{ChunkAsk, ChunkMsg, Took};
use token_ring::TokenRange;

/// A repair of a tablet's range: the first replica pulls from each other one, and then each other one from the first.
#[derive(Drop)]
pub struct Repair {
    gather: Gather,
}

impl Model for Repair {
    ghost use Rattle.gather_core.specs.Gathers.{Gathering};

    ghost Value = { Gathering };

    ghost view = { λ r. r.gather };
}

/// The first replica pulls from another one.
fn route_in(first: &Replica, other: &Replica) -> Route
    ensures { result ≡ route_in first.now other.now }
{
    Route {
        by: first.host,
        from: other.host,
    }
}

/// Another replica pulls from the first one.
fn route_out(first: &Replica, other: &Replica) -> Route
    ensures { result ≡ route_out first.now other.now }
{
    Route {
        by: other.host,
        from: first.host,
    }
}

/// The pulls of the first replica from the others, and then those of the others from it.
fn routes_with(alloc: Global, first: &Replica, others: &[Replica]) -> Result<Vec<Route>, NoMemory>
    ensures { IfOk result (λ routes. routes.items ≡
        map (route_in first.now) others.now ++ map (route_out first.now) others.now) }
{
    let mut routes = Vec::new(alloc);
    'ins: for other in others {
        routes.push(route_in(first, other))?;
    }
    'outs: for other in others {
        routes.push(route_out(first, other))?;
    }
    Ok(routes)
}

/// The pulls of a repair of these replicas.
fn repair_routes(alloc: Global, replicas: &[Replica]) -> Result<Vec<Route>, NoMemory>
    ensures { IfOk result (λ routes. routes.items ≡ repair_routes replicas.now) }
{
    match replicas {
        [] => Ok(Vec::new(alloc)),
        [first, others @ ..] => routes_with(alloc, first, others),
    }
}

impl Repair {
    /// A repair of a range of a table on these replicas. Pull k has session k, from 0. `NoMemory` comes where the list
    /// of the pulls is refused.
    pub fn new(
        alloc: Global,
        table: TableId,
        range: TokenRange,
        replicas: &ReplicaList,
    ) -> Result<Repair, NoMemory>
        requires some { 1 ≤ length replicas.now }
        requires few { length replicas.now ≤ 8 }
        requires distinct { IsTrue (on_distinct_hosts replicas.now) }
        ensures { IfOk result (λ repair. repair ≡ repair_of table range replicas.now) }
    {
        let routes = repair_routes(alloc, replicas.as_slice())?;
        Ok(Repair {
            gather: Gather::new(Session(0), table, range, routes),
        })
    }

    /// What to ask for next; its `by` is the host that pulls. `None` comes exactly where all pulls are done.
    pub fn next_ask(&self) -> Option<ChunkAsk>
        ensures { result ≡ option_map next_ask self.now.pull }
    {
        self.gather.next_ask()
    }

    /// Stores the cells of a chunk in the store of the host that pulls, and goes on behind them. `Foreign` comes
    /// exactly where all is done or the chunk is not the next one of the current pull, and then nothing is changed;
    /// `Done` exactly at the chunk that ends the last pull. `NoMemory` leaves the repair and what the store holds.
    pub fn take<S: Store>(&mut self, store: &mut S, chunk: &ChunkMsg) -> Result<Took, NoMemory>
        ensures took { IfOk result (λ took. took ≡ took_of self.old chunk.now) }
        ensures repair { OnOk result (self.new ≡ gather_after self.old chunk.now) }
        ensures cells { OnOk result (IsOrdered (S.cells store.old)
            → S.cells store.new ≡ stored_after self.old (S.cells store.old) chunk.now) }
        ensures ordered { IsOrdered (S.cells store.old) → IsOrdered (S.cells store.new) }
        ensures err { OnErr result (self.new ≡ self.old) }
        ensures err_cells { OnErr result (S.cells store.new ≡ S.cells store.old) }
        ensures foreign { IfOk result (λ took. took ≡ Took.Foreign → store.new ≡ store.old) }
        ensures same_runs { (t : TableId) → S.runs store.new t ≡ S.runs store.old t }
    {
        self.gather.take(store, chunk)
    }
}

/// Repairs a range on these replicas, where the stores of all hosts are at hand, the store of host n the n-th.
pub fn repair_all<S: Store>(
    alloc: Global,
    stores: &mut [S],
    table: TableId,
    range: TokenRange,
    replicas: &ReplicaList,
) -> Result<(), NoMemory>
    requires some { 1 ≤ length replicas.now }
    requires few { length replicas.now ≤ 8 }
    requires distinct { IsTrue (on_distinct_hosts replicas.now) }
    requires known { are_known (length stores.old) replicas.now ≡ true }
    requires ordered { AreOrdered (cells_in S.cells stores.old) }
    ensures repaired { OnOk result
        (IsRepaired (cells_in S.cells stores.old) table range replicas.now (cells_in S.cells stores.new)) }
    ensures ordered { OnOk result (AreOrdered (cells_in S.cells stores.new)) }
    ensures length { length stores.new ≡ length stores.old }
{
    let mut repair = Repair::new(alloc, table, range, replicas)?;
    gather_all(alloc, stores, &mut repair.gather)?;
    Ok(())
}
