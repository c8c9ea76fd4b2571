//! All tablets of a lost host, one after the other.
ghost use Rattle.std.specs.Prelude.{◌≡◌, ◌+◌, ◌^◌, ◌<◌, ◌≤◌, length, slice_index_or, OnOk};
ghost use Rattle.gather_core.specs.Laws.{AreOrdered};
ghost use Rattle.gather_core.specs.Rounds.{cells_in};
ghost use Rattle.rebuild_core.specs.Laws.{IsRebuilt};
ghost use Rattle.rebuild_core.specs.Tablets.{CanRebuild, AreApart, AreRebuilt};
ghost use Rattle.rebuild_core.specs.declared.tablets.LostTablet.{LostTablet};

use crate::rebuild::rebuild_all;
use base_ids::{HostId, NoMemory, ReplicaList, Session, TableId};
use replica_store::Store;
use std::alloc::Global;
use token_ring::TokenRange;

/// A tablet with a lost replica: where it is rebuilt, and from whom.
#[derive(Debug, Drop)]
pub struct LostTablet {
    /// The table of the tablet.
    pub table: TableId,
    /// The range of the tablet.
    pub range: TokenRange,
    /// The host of the new replica.
    pub pending: HostId,
    /// The replicas that remain, 1 to 7 of them, on distinct hosts other than `pending`.
    pub sources: ReplicaList,
}

/// Rebuilds one tablet.
fn rebuild_tablet<S: Store>(
    alloc: Global,
    stores: &mut [S],
    tablet: &LostTablet,
) -> Result<(), NoMemory>
    requires can { CanRebuild (length stores.old) tablet.now }
    requires ordered { AreOrdered (cells_in S.cells stores.old) }
    ensures rebuilt { OnOk result (IsRebuilt (cells_in S.cells stores.old)
        tablet.now.table tablet.now.range tablet.now.pending tablet.now.sources (cells_in S.cells stores.new)) }
    ensures ordered { OnOk result (AreOrdered (cells_in S.cells stores.new)) }
    ensures length { length stores.new ≡ length stores.old }
{
    rebuild_all(
        alloc,
        stores,
        Session(0),
        tablet.table,
        tablet.range,
        tablet.pending,
        &tablet.sources,
    )
}

/// Rebuilds tablets one after the other, where the stores of all hosts are at hand, the store of host n the n-th. No
/// two of the tablets have a key in common. At `NoMemory` some of them may have been rebuilt.
pub fn rebuild_tablets<S: Store>(
    alloc: Global,
    stores: &mut [S],
    tablets: &[LostTablet],
) -> Result<(), NoMemory>
    requires can { (n : _) (other : LostTablet) → n < length tablets.now →
        CanRebuild (length stores.old) (slice_index_or tablets.now n other) }
    requires apart { AreApart tablets.now }
    requires ordered { AreOrdered (cells_in S.cells stores.old) }
    ensures rebuilt { OnOk result
        (AreRebuilt (cells_in S.cells stores.old) tablets.now (cells_in S.cells stores.new)) }
    ensures ordered { OnOk result (AreOrdered (cells_in S.cells stores.new)) }
    ensures length { length stores.new ≡ length stores.old }
{
    for tablet in tablets {
        rebuild_tablet(alloc, stores, tablet)?;
    }
    Ok(())
}
