//! A table with runs of its own.
ghost use Rattle.std.specs.Prelude.{◌≡◌, ◌↔◌, ◌+◌, ◌^◌, ◌<◌, ◌≤◌, [], length, take, IsTrue, IfOk, OnOk, OnErr};
ghost use Rattle.std.specs.Option.{option_copied};
ghost use Rattle.token_ring.specs.Ring.{tablet_at};
ghost use Rattle.replica_store.specs.Cells.{IsOrdered, cell_at, range_cells, outside};
ghost use Rattle.replica_store.specs.Columns.{put_at};
ghost use Rattle.run_store.specs.Runs.{of_table, first_run_cells, tablet_cells};

use crate::run::Run;
use crate::{chunks, regrouping, runs};
use base_ids::{NoMemory, TableId};
use cell_merge::Cell;
use replica_store::{Chunk, Stored};
use std::alloc::Global;
use std::marker::Model;
use token_ring::{Token, TokenRange};

/// The cells of a table, in one run for each of `2^log2` tablets.
#[derive(Drop)]
pub struct TableRuns {
    table: TableId,
    log2: u8,
    runs: Vec<Run>,
}

impl Model for TableRuns {
    ghost use Rattle.run_store.specs.Runs.{run_cells, least_spare, IsGrouped};
    ghost use Rattle.run_store.specs.Tables.{Grouped};

    ghost Value = { Grouped };

    ghost view = { λ t. record {
      table = t.table;
      log2 = t.log2;
      cells = run_cells t.table t.runs.items;
      spare = least_spare t.runs.items;
    } };

    ghost invariant = { λ t. IsGrouped t.table t.log2 t.runs.items };
}

impl TableRuns {
    /// A table with these cells, in one run.
    pub fn new(alloc: Global, table: TableId, cells: &[Stored]) -> Result<TableRuns, NoMemory>
        requires { IsOrdered (of_table table cells.now) }
        ensures table { IfOk result (λ t. t.table ≡ table) }
        ensures log2 { IfOk result (λ t. t.log2 ≡ 0) }
        ensures cells { IfOk result (λ t. t.cells ≡ of_table table cells.now) }
    {
        let runs = runs::single(alloc, cells)?;
        Ok(TableRuns {
            table,
            log2: 0,
            runs,
        })
    }

    /// The number of the table.
    pub fn table(&self) -> TableId
        ensures { result ≡ self.now.table }
    {
        self.table
    }

    /// The logarithm of the count of runs.
    pub fn log2(&self) -> u8
        ensures log2 { result ≡ self.now.log2 }
        ensures few { result ≤ 10 }
    {
        self.log2
    }

    /// The cell that is stored for a token.
    pub fn get(&self, token: Token) -> Option<&Cell>
        ensures { option_copied result ≡ cell_at self.now.cells self.now.table token }
    {
        runs::find(self.table, self.log2, self.runs.as_slice(), token)
    }

    /// Makes room for `n` more cells in each run. `NoMemory` leaves the cells, and the room is not less.
    pub fn reserve(&mut self, n: usize) -> Result<(), NoMemory>
        ensures table { self.new.table ≡ self.old.table }
        ensures log2 { self.new.log2 ≡ self.old.log2 }
        ensures cells { self.new.cells ≡ self.old.cells }
        ensures ok { OnOk result (n ≤ self.new.spare) }
        ensures room { self.old.spare ≤ self.new.spare }
    {
        runs::reserve(&mut self.runs, n)
    }

    /// Puts a cell into its place, or keeps the greater one where a cell stands there. Only its run is changed.
    pub fn put(&mut self, put: Stored)
        requires { 1 ≤ self.old.spare }
        ensures table { self.new.table ≡ self.old.table }
        ensures log2 { self.new.log2 ≡ self.old.log2 }
        ensures cells { self.new.cells ≡ put_at self.old.cells (self.old.table, put) }
        ensures room { self.old.spare ≤ self.new.spare + 1 }
    {
        runs::put(self.table, self.log2, &mut self.runs, put);
    }

    /// The first cells of a range above `after`, at most `max` of them and of one run alone: of the first that has any.
    pub fn chunk(&self, range: TokenRange, after: Option<Token>, max: usize) -> Chunk<'_>
        requires { 1 ≤ max }
        ensures prefix { result.cells.now
            ≡ take (length result.cells.now) (range_cells self.now.cells self.now.table range after) }
        ensures most { length result.cells.now ≤ max }
        ensures some { result.cells.now ≡ [] → range_cells self.now.cells self.now.table range after ≡ [] }
        ensures more { IsTrue result.more
            ↔ (length result.cells.now < length (range_cells self.now.cells self.now.table range after)) }
        ensures full { tablet_at self.now.log2 range.first.value ≡ tablet_at self.now.log2 range.last.value
            → result.cells.now ≡ take max (range_cells self.now.cells self.now.table range after) }
        ensures one_run { result.cells.now
            ≡ take max (first_run_cells self.now.log2 (range_cells self.now.cells self.now.table range after)) }
    {
        chunks::chunk(
            self.table,
            self.log2,
            self.runs.as_slice(),
            range,
            after,
            max,
        )
    }

    /// Takes out the cells of a range.
    pub fn drop_range(&mut self, range: TokenRange)
        ensures table { self.new.table ≡ self.old.table }
        ensures log2 { self.new.log2 ≡ self.old.log2 }
        ensures cells { self.new.cells ≡ outside self.old.cells self.old.table range }
        ensures room { self.old.spare ≤ self.new.spare }
    {
        runs::drop_range(self.table, self.log2, &mut self.runs, range);
    }

    /// Twice as many runs. `NoMemory` leaves the table.
    pub fn segregate(&mut self, alloc: Global) -> Result<(), NoMemory>
        requires { self.old.log2 < 10 }
        ensures table { self.new.table ≡ self.old.table }
        ensures cells { self.new.cells ≡ self.old.cells }
        ensures few { self.new.log2 ≤ 10 }
        ensures ok { OnOk result (self.new.log2 ≡ self.old.log2 + 1) }
        ensures err { OnErr result (self.new ≡ self.old) }
    {
        self.runs = regrouping::halves(alloc, self.table, self.log2, self.runs.as_slice())?;
        self.log2 += 1;
        Ok(())
    }

    /// Half as many runs. `NoMemory` leaves the table.
    pub fn join_groups(&mut self, alloc: Global) -> Result<(), NoMemory>
        requires { 0 < self.old.log2 }
        ensures table { self.new.table ≡ self.old.table }
        ensures cells { self.new.cells ≡ self.old.cells }
        ensures few { self.new.log2 ≤ 10 }
        ensures ok { OnOk result (self.new.log2 + 1 ≡ self.old.log2) }
        ensures err { OnErr result (self.new ≡ self.old) }
    {
        self.runs = regrouping::pairs(alloc, self.runs.as_slice())?;
        self.log2 -= 1;
        Ok(())
    }

    /// The cells of a tablet, in the order of their tokens.
    pub fn run(&self, tablet: usize) -> &[Stored]
        requires { tablet < 2 ^ self.now.log2 }
        ensures { result.now ≡ tablet_cells self.now.cells self.now.table self.now.log2 tablet }
    {
        self.runs[tablet].as_slice()
    }
}
