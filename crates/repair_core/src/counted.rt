//! A repair that tells how much each replica got.
ghost use Rattle.std.specs.Prelude.{◌≡◌, ◌≤◌, ◌<◌, ◌++◌, ◌∷◌, [], true, length, map, IfOk, OnOk, IsTrue};
ghost use Rattle.base_ids.specs.Replicas.{on_distinct_hosts};
ghost use Rattle.replica_store.specs.Cells.{IsAscending};
ghost use Rattle.gather_core.specs.Laws.{AreOrdered};
ghost use Rattle.gather_core.specs.Rounds.{cells_in};
ghost use Rattle.repair_core.specs.Counted.{got_each, range_at, had_of, CanCount, got_since};
ghost use Rattle.repair_core.specs.Laws.{IsRepaired};
ghost use Rattle.repair_core.specs.Repairs.{are_known};

use crate::repair::repair_all;
use base_ids::{Items, NoMemory, Replica, ReplicaList, TableId};
use gather_core::count_new;
use replica_store::{Store, StoredList, gather};
use std::alloc::Global;
use token_ring::TokenRange;

/// For each replica of a list, how many tokens have another cell than before.
pub type GotList = Items<usize>;

/// What the host of a replica had of a range before a repair.
#[derive(Drop)]
struct Had {
    /// The replica.
    replica: Replica,
    /// The cells of the range, in the order of their tokens.
    cells: StoredList,
}

/// The cells of the range that a replica's host has.
fn range_at<S: Store>(
    alloc: Global,
    stores: &[S],
    table: TableId,
    range: TokenRange,
    replica: &Replica,
) -> Result<StoredList, NoMemory>
    requires { replica.now.host.0 < length stores.now }
    ensures { IfOk result (λ list. list ≡ range_at (cells_in S.cells stores.now) table range replica.now) }
{
    let store = &stores[usize::from(replica.host.0)];
    gather(alloc, store, table, range, usize::MAX)
}

/// Adds what each replica's host has of the range.
#[tactic(auto, using(crate::proofs::CountedLemmas::known_first, crate::proofs::CountedLemmas::known_rest))]
fn add_had<S: Store>(
    alloc: Global,
    stores: &[S],
    table: TableId,
    range: TokenRange,
    replicas: &[Replica],
    list: &mut Vec<Had>,
) -> Result<(), NoMemory>
    requires { are_known (length stores.now) replicas.now ≡ true }
    ensures { OnOk result
        (list.new.items ≡ list.old.items ++ map (had_of (cells_in S.cells stores.now) table range) replicas.now) }
{
    match replicas {
        [] => Ok(()),
        [first, rest @ ..] => {
            let cells = range_at(alloc, stores, table, range, first)?;
            list.push(Had {
                replica: *first,
                cells,
            })?;
            add_had(alloc, stores, table, range, rest, list)
        }
    }
}

/// How many cells a replica's host has that it had not before.
#[tactic(auto, unfolding(crate::specs::Counted::got_since))]
fn count_got<S: Store>(
    alloc: Global,
    had: &Had,
    stores: &[S],
    table: TableId,
    range: TokenRange,
) -> Result<usize, NoMemory>
    requires known { had.now.replica.host.0 < length stores.now }
    requires ordered { AreOrdered (cells_in S.cells stores.now) }
    requires before { IsAscending had.now.cells }
    ensures { IfOk result (λ count. count ≡ got_since (cells_in S.cells stores.now) table range had.now) }
{
    let now = range_at(alloc, stores, table, range, &had.replica)?;
    Ok(count_new(had.cells.as_slice(), now.as_slice()))
}

/// Adds how much a replica got.
fn add_count<S: Store>(
    alloc: Global,
    had: &Had,
    stores: &[S],
    table: TableId,
    range: TokenRange,
    got: &mut Vec<usize>,
) -> Result<(), NoMemory>
    requires known { had.now.replica.host.0 < length stores.now }
    requires ordered { AreOrdered (cells_in S.cells stores.now) }
    requires before { IsAscending had.now.cells }
    ensures { OnOk result
        (got.new.items ≡ got.old.items ++ got_since (cells_in S.cells stores.now) table range had.now ∷ []) }
{
    let count = count_got(alloc, had, stores, table, range)?;
    got.push(count)?;
    Ok(())
}

/// Adds how much each replica got.
#[tactic(auto, using(crate::proofs::CountedLemmas::can_first, crate::proofs::CountedLemmas::can_ascend, crate::proofs::CountedLemmas::can_rest))]
fn add_got<S: Store>(
    alloc: Global,
    before: &[Had],
    stores: &[S],
    table: TableId,
    range: TokenRange,
    got: &mut Vec<usize>,
) -> Result<(), NoMemory>
    requires can { CanCount (length stores.now) before.now }
    requires ordered { AreOrdered (cells_in S.cells stores.now) }
    ensures { OnOk result
        (got.new.items ≡ got.old.items ++ map (got_since (cells_in S.cells stores.now) table range) before.now) }
{
    match before {
        [] => Ok(()),
        [first, rest @ ..] => {
            add_count(alloc, first, stores, table, range, got)?;
            add_got(alloc, rest, stores, table, range, got)
        }
    }
}

/// Repairs a range on these replicas as `repair_all` does, and tells for each of them how many tokens of the range have
/// another cell afterwards, or have one where they had none. Copies the range of each replica once before and once
/// after, and goes over both copies once.
#[tactic(auto, using(crate::proofs::CountedLemmas::can_count, crate::proofs::CountedLemmas::got_same))]
pub fn repair_counted<S: Store>(
    alloc: Global,
    stores: &mut [S],
    table: TableId,
    range: TokenRange,
    replicas: &ReplicaList,
) -> Result<GotList, NoMemory>
    requires some { 1 ≤ length replicas.now }
    requires few { length replicas.now ≤ 8 }
    requires distinct { IsTrue (on_distinct_hosts replicas.now) }
    requires known { are_known (length stores.old) replicas.now ≡ true }
    requires ordered { AreOrdered (cells_in S.cells stores.old) }
    ensures repaired { OnOk result
        (IsRepaired (cells_in S.cells stores.old) table range replicas.now (cells_in S.cells stores.new)) }
    ensures got { IfOk result (λ got.
        got ≡ got_each (cells_in S.cells stores.old) (cells_in S.cells stores.new) table range replicas.now) }
    ensures ordered { OnOk result (AreOrdered (cells_in S.cells stores.new)) }
    ensures length { length stores.new ≡ length stores.old }
{
    let mut before = Vec::new(alloc);
    add_had(
        alloc,
        stores,
        table,
        range,
        replicas.as_slice(),
        &mut before,
    )?;
    repair_all(alloc, stores, table, range, replicas)?;
    let mut got = Vec::new(alloc);
    add_got(alloc, before.as_slice(), stores, table, range, &mut got)?;
    Ok(Items::from_vec(got))
}
