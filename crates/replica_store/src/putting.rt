//! Cells of one table into any store, for which there is room.
ghost use Rattle.std.specs.Prelude.{◌≡◌, ◌+◌, ◌≤◌, length};
ghost use Rattle.base_ids.specs.declared.ids.TableId.{TableId};
ghost use Rattle.replica_store.specs.Cells.{IsOrdered, cell_at, only_at};
ghost use Rattle.cell_merge.specs.Cell.{greater_cell};
ghost use Rattle.token_ring.specs.declared.token.Token.{Token};
ghost use Rattle.replica_store.specs.Columns.{put_at};
ghost use Rattle.replica_store.specs.Puts.{cells_with};

use crate::store::{Store, Stored};
use base_ids::TableId;

/// Puts one cell of a table. Takes no memory.
pub fn put_one<S: Store>(store: &mut S, table: TableId, stored: &Stored)
    requires { 1 ≤ S.spare store.old }
    ensures cells { IsOrdered (S.cells store.old)
        → S.cells store.new ≡ put_at (S.cells store.old) (table, stored.now) }
    ensures map { (t : TableId) (k : Token) → cell_at (S.cells store.new) t k
        ≡ greater_cell (cell_at (S.cells store.old) t k) (only_at table stored.now.token stored.now.cell t k) }
    ensures ordered { IsOrdered (S.cells store.new) }
    ensures room { S.spare store.old ≤ S.spare store.new + 1 }
    ensures same_runs { (t : TableId) → S.runs store.new t ≡ S.runs store.old t }
{
    store.put(table, stored.token, stored.cell);
}

/// Puts cells of a table, one after the other. Takes no memory.
pub fn put_all<S: Store>(store: &mut S, table: TableId, cells: &[Stored])
    requires { length cells.now ≤ S.spare store.old }
    ensures cells { IsOrdered (S.cells store.old)
        → S.cells store.new ≡ cells_with (S.cells store.old) table cells.now }
    ensures ordered { IsOrdered (S.cells store.old) → IsOrdered (S.cells store.new) }
    ensures same_runs { (t : TableId) → S.runs store.new t ≡ S.runs store.old t }
{
    'putting: for stored in cells {
        put_one(store, table, stored);
    }
}
