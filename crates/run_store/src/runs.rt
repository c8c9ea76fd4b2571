//! The runs of one table, one for each of its tablets.
ghost use Rattle.std.specs.Prelude.{◌≡◌, ◌+◌, ◌^◌, ◌<◌, ◌≤◌, [], ◌∷◌, ◌++◌, map, IfOk, OnOk};
ghost use Rattle.std.specs.Option.{option_copied};
ghost use Rattle.base_ids.specs.declared.ids.TableId.{TableId};
ghost use Rattle.token_ring.specs.Ring.{tablet_at};
ghost use Rattle.replica_store.specs.Cells.{IsOrdered, cell_at, outside};
ghost use Rattle.replica_store.specs.Columns.{put_at};
ghost use Rattle.run_store.specs.Runs.{of_table, run_cells, IsGrouped, least_spare};

use crate::run::{self, Run};
use base_ids::{NoMemory, TableId};
use cell_merge::Cell;
use replica_store::Stored;
use std::alloc::Global;
use token_ring::{Token, TokenRange, tablet_of};

/// The index of the run of a token.
pub fn index_of(log2: u8, token: Token) -> usize
    requires { log2 ≤ 10 }
    ensures tablet { result ≡ tablet_at log2 token.value }
    ensures within { result < 2 ^ log2 }
{
    tablet_of(log2, token).0 as usize
}

/// The index behind the run of a token.
pub fn end_of(log2: u8, token: Token) -> usize
    requires { log2 ≤ 10 }
    ensures tablet { result ≡ tablet_at log2 token.value + 1 }
    ensures within { result ≤ 2 ^ log2 }
{
    index_of(log2, token) + 1
}

/// One run of all cells of a table.
pub fn single(alloc: Global, cells: &[Stored]) -> Result<Vec<Run>, NoMemory>
    ensures grouped { IfOk result (λ runs. (table : TableId)
        → IsOrdered (of_table table cells.now) → IsGrouped table 0 runs.items) }
    ensures cells { IfOk result (λ runs. (table : TableId) → run_cells table runs.items ≡ of_table table cells.now) }
{
    let run = Run::copied(alloc, cells)?;
    let mut runs = Vec::new(alloc);
    push(&mut runs, run)?;
    Ok(runs)
}

/// Adds a run at the end.
pub fn push(runs: &mut Vec<Run>, run: Run) -> Result<(), NoMemory>
    ensures { OnOk result (runs.new.items ≡ runs.old.items ++ run ∷ []) }
{
    match runs.push(run) {
        Ok(()) => Ok(()),
        Err(_) => Err(NoMemory),
    }
}

/// The cell that is stored for a token.
pub fn find(table: TableId, log2: u8, runs: &[Run], token: Token) -> Option<&Cell>
    requires { IsGrouped table log2 runs.now }
    ensures { option_copied result ≡ cell_at (run_cells table runs.now) table token }
{
    let at = index_of(log2, token);
    let run = &runs[at];
    run::find(table, run.as_slice(), token)
}

/// Puts a cell into its place, or keeps the greater one where a cell stands there. Only its run is changed.
pub fn put(table: TableId, log2: u8, runs: &mut Vec<Run>, put: Stored)
    requires runs { IsGrouped table log2 runs.old.items }
    requires room { 1 ≤ least_spare runs.old.items }
    ensures runs { IsGrouped table log2 runs.new.items }
    ensures cells { run_cells table runs.new.items ≡ put_at (run_cells table runs.old.items) (table, put) }
    ensures room { least_spare runs.old.items ≤ least_spare runs.new.items + 1 }
{
    let at = index_of(log2, put.token);
    let run = &mut runs[at];
    run.put(table, put);
}

/// Makes room for `n` more cells in each run. `NoMemory` leaves the cells, and the room is not less.
pub fn reserve(runs: &mut Vec<Run>, n: usize) -> Result<(), NoMemory>
    ensures same { map (λ run. run.stored) runs.new.items ≡ map (λ run. run.stored) runs.old.items }
    ensures ok { OnOk result (n ≤ least_spare runs.new.items) }
    ensures room { least_spare runs.old.items ≤ least_spare runs.new.items }
{
    for at in 0..runs.len() {
        let run = &mut runs[at];
        run.reserve(n)?;
    }
    Ok(())
}

/// Takes out the cells of a range, of which there are none but in the runs from its first token's to its last token's.
pub fn drop_range(table: TableId, log2: u8, runs: &mut Vec<Run>, range: TokenRange)
    requires { IsGrouped table log2 runs.old.items }
    ensures runs { IsGrouped table log2 runs.new.items }
    ensures cells { run_cells table runs.new.items ≡ outside (run_cells table runs.old.items) table range }
    ensures room { least_spare runs.old.items ≤ least_spare runs.new.items }
{
    let from = index_of(log2, range.first);
    let until = end_of(log2, range.last);
    for at in from..until {
        let run = &mut runs[at];
        run.drop_range(table, range);
    }
}
