//! A store that is one sorted list.
ghost use Rattle.std.specs.Prelude.{◌≡◌, ◌≢◌, ◌↔◌, ℕ, ◌+◌, ◌^◌, ◌<◌, ◌≤◌, [], length, take, IsTrue, IsOk, OnOk, OnErr, Option, Some, None, option_map};
ghost use Rattle.std.specs.Option.{option_copied};
ghost use Rattle.base_ids.specs.declared.ids.TableId.{TableId};
ghost use Rattle.replica_store.specs.Cells.{range_cells, IsOrdered};

use crate::columns;
use crate::store::{Chunk, Store, Stored};
use base_ids::{NoMemory, TableId};
use cell_merge::Cell;
use std::alloc::Global;
use std::marker::Model;
use token_ring::{Token, TokenRange};

/// A store that keeps all cells in one list, in the order of tables and tokens. It tells no runs.
///
/// The tables stand in one column and the cells with their tokens in another, so that a chunk lends a slice of the
/// second.
#[derive(Drop)]
pub struct VecStore {
    tables: Vec<TableId>,
    stored: Vec<Stored>,
}

impl Model for VecStore {
    ghost use Rattle.std.specs.Prelude.{◌-◌, min, vec_len};
    ghost use Rattle.std.specs.Vec.{vec_capacity};
    ghost use Rattle.std.specs.List.{zip};
    ghost use Rattle.replica_store.specs.Columns.{Content, AreColumns};

    ghost Value = { Content };

    ghost view = { λ s. record {
      cells = zip s.tables.items s.stored.items;
      spare = min (vec_capacity s.tables - vec_len s.tables) (vec_capacity s.stored - vec_len s.stored);
    } };

    ghost invariant = { λ s. AreColumns s.tables.items s.stored.items };
}

impl VecStore {
    /// An empty store, which takes no memory yet.
    pub fn new(alloc: Global) -> VecStore
        ensures cells { result.cells ≡ [] }
        ensures spare { result.spare ≡ 0 }
    {
        VecStore {
            tables: Vec::new(alloc),
            stored: Vec::new(alloc),
        }
    }

    /// The cells of a range of a table, in the order of their tokens.
    pub fn range(&self, table: TableId, range: TokenRange) -> &[Stored]
        ensures cells { result.now ≡ range_cells self.now.cells table range None }
        ensures ordered { IsOrdered self.now.cells }
    {
        columns::range_of(
            self.tables.as_slice(),
            self.stored.as_slice(),
            table,
            range,
            None,
        )
    }
}

impl Store for VecStore {
    ghost cells = { λ s. s.cells };

    ghost spare = { λ s. s.spare };

    ghost runs = { λ _ _. None };

    fn reserve(&mut self, n: usize) -> Result<(), NoMemory> {
        if self.tables.reserve(n).is_err() || self.stored.reserve(n).is_err() {
            return Err(NoMemory);
        }
        Ok(())
    }

    fn put(&mut self, table: TableId, token: Token, cell: Cell) {
        columns::put(
            &mut self.tables,
            &mut self.stored,
            table,
            Stored { token, cell },
        );
    }

    fn get(&self, table: TableId, token: Token) -> Option<&Cell> {
        columns::find(self.tables.as_slice(), self.stored.as_slice(), table, token)
    }

    /// The list is one run, so a chunk has the first `max` cells of any range.
    fn chunk(
        &self,
        table: TableId,
        range: TokenRange,
        after: Option<Token>,
        max: usize,
    ) -> Chunk<'_>
        requires { 1 ≤ max }
        ensures first { result.cells.now ≡ take max (range_cells self.now.cells table range after) }
        ensures prefix { result.cells.now
            ≡ take (length result.cells.now) (range_cells self.now.cells table range after) }
        ensures most { length result.cells.now ≤ max }
        ensures some { result.cells.now ≡ [] → range_cells self.now.cells table range after ≡ [] }
        ensures more { IsTrue result.more
            ↔ (length result.cells.now < length (range_cells self.now.cells table range after)) }
        ensures ordered { IsOrdered self.now.cells }
    {
        let cells = columns::range_of(
            self.tables.as_slice(),
            self.stored.as_slice(),
            table,
            range,
            after,
        );
        let lent = cells.len().min(max);
        Chunk {
            cells: &cells[..lent],
            more: lent < cells.len(),
        }
    }

    fn drop_range(&mut self, table: TableId, range: TokenRange) {
        columns::drop_range(&mut self.tables, &mut self.stored, table, range);
    }

    /// Does nothing.
    fn regroup(&mut self, _table: TableId, _log2: u8) -> Result<(), NoMemory>
        ensures done { IsOk result }
        ensures unchanged { self.new ≡ self.old }
    {
        Ok(())
    }
}
