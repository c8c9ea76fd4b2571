//! The rebuild of a tablet on a host.
ghost use Rattle.std.specs.Prelude.{◌≡◌, ◌≤◌, ◌<◌, ◌+◌, ◌-◌, ◌^◌, length, not, false, true, map, take, IfOk, OnOk, OnErr, option_map, IsTrue};
ghost use Rattle.base_ids.specs.Replicas.{has_host, on_distinct_hosts};
ghost use Rattle.base_ids.specs.declared.ids.TableId.{TableId};
ghost use Rattle.replica_store.specs.Cells.{IsOrdered};
ghost use Rattle.stream_core.specs.Pulls.{next_ask};
ghost use Rattle.stream_core.specs.declared.pull.Took.{Took};
ghost use Rattle.gather_core.specs.Gathers.{gather_after, stored_after, took_of};
ghost use Rattle.rebuild_core.specs.Rebuilds.{route_to, rebuild_routes, rebuild_of, are_known};
ghost use Rattle.rebuild_core.specs.Laws.{IsRebuilt};
ghost use Rattle.gather_core.specs.Laws.{AreOrdered};
ghost use Rattle.gather_core.specs.Rounds.{cells_in};

use base_ids::{HostId, NoMemory, Replica, ReplicaList, Session, TableId};
use gather_core::{Gather, Route, gather_all};
use replica_store::Store;
use std::alloc::Global;
use std::marker::Model;
use stream_core::{ChunkAsk, ChunkMsg, Took};
use token_ring::TokenRange;

/// A rebuild of a tablet's range on a host, by a pull from each source in turn.
#[derive(Drop)]
pub struct Rebuild {
    gather: Gather,
}

impl Model for Rebuild {
    ghost use Rattle.gather_core.specs.Gathers.{Gathering};

    ghost Value = { Gathering };

    ghost view = { λ r. r.gather };
}

/// The pull of the pending host from a source.
fn route_to(pending: HostId, source: &Replica) -> Route
    ensures { result ≡ route_to pending source.now }
{
    Route {
        by: pending,
        from: source.host,
    }
}

/// A pull from each source.
fn rebuild_routes(
    alloc: Global,
    pending: HostId,
    sources: &[Replica],
) -> Result<Vec<Route>, NoMemory>
    ensures { IfOk result (λ routes. routes.items ≡ rebuild_routes pending sources.now) }
{
    let mut routes = Vec::new(alloc);
    for source in sources {
        routes.push(route_to(pending, source))?;
    }
    Ok(routes)
}

impl Rebuild {
    /// A rebuild of a range of a table on the host `pending` from these sources. Source i, from 0, is pulled under
    /// session `first + i`, one after the other. `NoMemory` comes where the list of the pulls is refused.
    pub fn new(
        alloc: Global,
        first: Session,
        table: TableId,
        range: TokenRange,
        pending: HostId,
        sources: &ReplicaList,
    ) -> Result<Rebuild, NoMemory>
        requires some { 1 ≤ length sources.now }
        requires few { length sources.now ≤ 7 }
        requires distinct { IsTrue (on_distinct_hosts sources.now) }
        requires other { has_host sources.now pending ≡ false }
        requires sessions { first.0 ≤ 2 ^ 64 - 8 }
        ensures { IfOk result (λ rebuild. rebuild ≡ rebuild_of first table range pending sources.now) }
    {
        let routes = rebuild_routes(alloc, pending, sources.as_slice())?;
        Ok(Rebuild {
            gather: Gather::new(first, table, range, routes),
        })
    }

    /// What to ask for next. `None` comes exactly where all pulls are done.
    pub fn next_ask(&self) -> Option<ChunkAsk>
        ensures { result ≡ option_map next_ask self.now.pull }
    {
        self.gather.next_ask()
    }

    /// Stores the cells of a chunk in the pending host's store, and goes on behind them. `Foreign` comes exactly where
    /// all is done or the chunk is not the next one of the current pull, and then nothing is changed; `Done` exactly at
    /// the chunk that ends the last pull. `NoMemory` leaves the rebuild and what the store holds.
    pub fn take<S: Store>(&mut self, store: &mut S, chunk: &ChunkMsg) -> Result<Took, NoMemory>
        ensures took { IfOk result (λ took. took ≡ took_of self.old chunk.now) }
        ensures rebuild { OnOk result (self.new ≡ gather_after self.old chunk.now) }
        ensures cells { OnOk result (IsOrdered (S.cells store.old)
            → S.cells store.new ≡ stored_after self.old (S.cells store.old) chunk.now) }
        ensures ordered { IsOrdered (S.cells store.old) → IsOrdered (S.cells store.new) }
        ensures err { OnErr result (self.new ≡ self.old) }
        ensures err_cells { OnErr result (S.cells store.new ≡ S.cells store.old) }
        ensures foreign { IfOk result (λ took. took ≡ Took.Foreign → store.new ≡ store.old) }
        ensures same_runs { (t : TableId) → S.runs store.new t ≡ S.runs store.old t }
    {
        self.gather.take(store, chunk)
    }
}

/// Rebuilds a range on the host `pending`, where the stores of all hosts are at hand, the store of host n the n-th.
pub fn rebuild_all<S: Store>(
    alloc: Global,
    stores: &mut [S],
    first: Session,
    table: TableId,
    range: TokenRange,
    pending: HostId,
    sources: &ReplicaList,
) -> Result<(), NoMemory>
    requires some { 1 ≤ length sources.now }
    requires few { length sources.now ≤ 7 }
    requires distinct { IsTrue (on_distinct_hosts sources.now) }
    requires other { has_host sources.now pending ≡ false }
    requires sessions { first.0 ≤ 2 ^ 64 - 8 }
    requires pending { pending.0 < length stores.old }
    requires known { are_known (length stores.old) sources.now ≡ true }
    requires ordered { AreOrdered (cells_in S.cells stores.old) }
    ensures rebuilt { OnOk result
        (IsRebuilt (cells_in S.cells stores.old) table range pending sources.now (cells_in S.cells stores.new)) }
    ensures ordered { OnOk result (AreOrdered (cells_in S.cells stores.new)) }
    ensures length { length stores.new ≡ length stores.old }
{
    let mut rebuild = Rebuild::new(alloc, first, table, range, pending, sources)?;
    gather_all(alloc, stores, &mut rebuild.gather)?;
    Ok(())
}
