//! A store with runs.
ghost use Rattle.std.specs.Prelude.{◌≡◌, ◌≢◌, ◌↔◌, ℕ, ◌+◌, ◌^◌, ◌<◌, ◌≤◌, [], true, length, take, IsTrue, OnOk, OnErr, Option, Some};
ghost use Rattle.std.specs.Option.{option_copied};
ghost use Rattle.base_ids.specs.declared.ids.TableId.{TableId};
ghost use Rattle.run_store.specs.Runs.{tablet_cells};
ghost use Rattle.run_store.specs.Tables.{has_own, log2_of};

use crate::table::TableRuns;
use crate::tables;
use base_ids::{NoMemory, TableId};
use cell_merge::Cell;
use replica_store::{Chunk, Store, Stored, VecStore};
use std::alloc::Global;
use std::marker::Model;
use token_ring::{Token, TokenRange};

/// A store that keeps the cells of a table in one sorted run for each of its tablets.
///
/// The run of a table that was never regrouped stands in one sorted list with those of other such tables; `regroup`
/// gives it runs of its own, also where it asks for one run.
#[derive(Drop)]
pub struct RunStore {
    alloc: Global,
    tables: Vec<TableRuns>,
    rest: VecStore,
}

impl Model for RunStore {
    ghost use Rattle.std.specs.Prelude.{min};
    ghost use Rattle.run_store.specs.Tables.{Laid, IsLaid, store_cells, least_room, log2s_of};

    ghost Value = { Laid };

    ghost view = { λ s. record {
      cells = store_cells s.tables.items s.rest.cells;
      spare = min s.rest.spare (least_room s.tables.items);
      log2s = log2s_of s.tables.items;
    } };

    ghost invariant = { λ s. IsLaid s.tables.items s.rest.cells };
}

impl RunStore {
    /// An empty store, which takes no memory yet.
    pub fn new(alloc: Global) -> RunStore
        ensures cells { result.cells ≡ [] }
        ensures spare { result.spare ≡ 0 }
        ensures runs { (t : TableId) → log2_of result.log2s t ≡ 0 }
    {
        RunStore {
            alloc,
            tables: Vec::new(alloc),
            rest: VecStore::new(alloc),
        }
    }

    /// In how many runs a table's cells lie: `2^log2` with log2 up to 10; 1 before any regrouping.
    pub fn run_count(&self, table: TableId) -> usize
        ensures count { result ≡ 2 ^ log2_of self.now.log2s table }
        ensures few { log2_of self.now.log2s table ≤ 10 }
    {
        1 << self.log2(table)
    }

    /// The cells of a table's run: those of the tokens whose tablet it is, of as many tablets as there are runs, in the
    /// order of the tokens.
    pub fn run(&self, table: TableId, i: usize) -> &[Stored]
        requires { i < 2 ^ log2_of self.now.log2s table }
        ensures { result.now ≡ tablet_cells self.now.cells table (log2_of self.now.log2s table) i }
    {
        tables::run(self.tables.as_slice(), &self.rest, table, i)
    }

    /// Gives a table twice as many runs: each is cut into those of its tablet's two children. `NoMemory` leaves the map
    /// and the run counts.
    pub fn segregate(&mut self, table: TableId) -> Result<(), NoMemory>
        requires { log2_of self.old.log2s table < 10 }
        ensures map { self.new.cells ≡ self.old.cells }
        ensures ok { OnOk result (log2_of self.new.log2s table ≡ log2_of self.old.log2s table + 1) }
        ensures err { OnErr result (log2_of self.new.log2s table ≡ log2_of self.old.log2s table) }
        ensures others { (t : TableId) → t ≢ table → log2_of self.new.log2s t ≡ log2_of self.old.log2s t }
        ensures own_kept { (t : TableId) → has_own self.old.log2s t ≡ true → has_own self.new.log2s t ≡ true }
    {
        tables::segregate(self.alloc, &mut self.tables, &mut self.rest, table)
    }

    /// Gives a table half as many runs: those of two tablets with one parent become its run. `NoMemory` leaves the map
    /// and the run counts.
    pub fn join_groups(&mut self, table: TableId) -> Result<(), NoMemory>
        requires { 0 < log2_of self.old.log2s table }
        ensures map { self.new.cells ≡ self.old.cells }
        ensures ok { OnOk result (log2_of self.new.log2s table + 1 ≡ log2_of self.old.log2s table) }
        ensures err { OnErr result (log2_of self.new.log2s table ≡ log2_of self.old.log2s table) }
        ensures others { (t : TableId) → t ≢ table → log2_of self.new.log2s t ≡ log2_of self.old.log2s t }
        ensures own_kept { (t : TableId) → has_own self.old.log2s t ≡ true → has_own self.new.log2s t ≡ true }
    {
        tables::join_groups(self.alloc, &mut self.tables, &mut self.rest, table)
    }

    /// The logarithm of the count of a table's runs.
    fn log2(&self, table: TableId) -> u8
        ensures log2 { result ≡ log2_of self.now.log2s table }
        ensures few { result ≤ 10 }
    {
        tables::log2_of(self.tables.as_slice(), table)
    }

    /// Gives a table runs of its own.
    fn adopt(&mut self, table: TableId) -> Result<(), NoMemory>
        ensures map { self.new.cells ≡ self.old.cells }
        ensures runs { (t : TableId) → log2_of self.new.log2s t ≡ log2_of self.old.log2s t }
        ensures few { log2_of self.new.log2s table ≤ 10 }
        ensures own { OnOk result (has_own self.new.log2s table ≡ true) }
        ensures own_kept { (t : TableId) → has_own self.old.log2s t ≡ true → has_own self.new.log2s t ≡ true }
    {
        tables::adopt(self.alloc, &mut self.tables, &mut self.rest, table)?;
        Ok(())
    }
}

impl Store for RunStore {
    ghost use Rattle.std.specs.Prelude.{ℕ, [], true, Some, ◌^◌, ◌<◌, ◌≡◌, ◌≢◌, ◌≤◌, ◌↔◌, IsTrue, OnOk, OnErr, length, take};
    ghost use Rattle.base_ids.specs.declared.ids.TableId.{TableId};
    ghost use Rattle.token_ring.specs.Ring.{tablet_at};
    ghost use Rattle.replica_store.specs.Cells.{IsOrdered, IsRegrouped, range_cells};
    ghost use Rattle.run_store.specs.Runs.{first_run_cells};
    ghost use Rattle.run_store.specs.Tables.{has_own, log2_of};

    ghost cells = { λ s. s.cells };

    ghost spare = { λ s. s.spare };

    ghost runs = { λ s table. Some (2 ^ log2_of s.log2s table) };

    fn reserve(&mut self, n: usize) -> Result<(), NoMemory> {
        self.rest.reserve(n)?;
        tables::reserve(&mut self.tables, n)
    }

    fn put(&mut self, table: TableId, token: Token, cell: Cell) {
        tables::put(
            &mut self.tables,
            &mut self.rest,
            table,
            Stored { token, cell },
        );
    }

    fn get(&self, table: TableId, token: Token) -> Option<&Cell> {
        tables::get(self.tables.as_slice(), &self.rest, table, token)
    }

    /// Lends cells of one run alone: the first `max` of those in the first run that has any of the range above `after`.
    fn chunk(
        &self,
        table: TableId,
        range: TokenRange,
        after: Option<Token>,
        max: usize,
    ) -> Chunk<'_>
        requires { 1 ≤ max }
        ensures one_run { result.cells.now
            ≡ take max (first_run_cells (log2_of self.now.log2s table) (range_cells self.now.cells table range after)) }
        ensures prefix { result.cells.now
            ≡ take (length result.cells.now) (range_cells self.now.cells table range after) }
        ensures most { length result.cells.now ≤ max }
        ensures some { result.cells.now ≡ [] → range_cells self.now.cells table range after ≡ [] }
        ensures more { IsTrue result.more
            ↔ (length result.cells.now < length (range_cells self.now.cells table range after)) }
        ensures full { (log2 : ℕ) → Some (2 ^ log2_of self.now.log2s table) ≡ Some (2 ^ log2)
            → tablet_at log2 range.first.value ≡ tablet_at log2 range.last.value
            → result.cells.now ≡ take max (range_cells self.now.cells table range after) }
        ensures ordered { IsOrdered self.now.cells }
    {
        tables::chunk(self.tables.as_slice(), &self.rest, table, range, after, max)
    }

    fn drop_range(&mut self, table: TableId, range: TokenRange) {
        tables::drop_range(&mut self.tables, &mut self.rest, table, range);
    }

    /// Lays the cells of a table into `2^log2` runs of its own. No table loses its own runs.
    fn regroup(&mut self, table: TableId, log2: u8) -> Result<(), NoMemory>
        requires { log2 ≤ 10 }
        ensures map { self.new.cells ≡ self.old.cells }
        ensures ok { OnOk result (Some (2 ^ log2_of self.new.log2s table) ≡ Some (2 ^ log2)) }
        ensures err { OnErr result
            (IsRegrouped (Some (2 ^ log2_of self.old.log2s table)) (Some (2 ^ log2_of self.new.log2s table))) }
        ensures other_runs { (t : TableId) → t ≢ table
            → Some (2 ^ log2_of self.new.log2s t) ≡ Some (2 ^ log2_of self.old.log2s t) }
        ensures own { OnOk result (has_own self.new.log2s table ≡ true) }
        ensures own_kept { (t : TableId) → has_own self.old.log2s t ≡ true → has_own self.new.log2s t ≡ true }
    {
        self.adopt(table)?;
        'cutting: while self.log2(table) < log2 {
            self.segregate(table)?;
        }
        'joining: while self.log2(table) > log2 {
            self.join_groups(table)?;
        }
        Ok(())
    }
}
