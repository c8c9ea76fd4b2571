//! What a store lends of the runs of a table: the first cells of a range, of one run alone.
ghost use Rattle.std.specs.Prelude.{ℕ, ◌≡◌, ◌↔◌, ◌⊎◌, ◌+◌, ◌^◌, ◌<◌, ◌≤◌, [], length, take, slice_index_or, nat_lt, IsTrue};
ghost use Rattle.token_ring.specs.Ring.{offset, tablet_at};
ghost use Rattle.replica_store.specs.Cells.{range_cells, rank};
ghost use Rattle.replica_store.specs.Columns.{start_of};
ghost use Rattle.run_store.specs.Runs.{Filled, of_table, run_cells, first_run_cells, AreOrdered, AreRuns, IsGrouped};

use crate::run::{self, Run};
use crate::runs::index_of;
use base_ids::TableId;
use replica_store::{Chunk, Stored};
use token_ring::{Token, TokenRange};

/// The first cells of a range above `after`, at most `max` of them and of one run alone: of the first that has any.
pub fn chunk(
    table: TableId,
    log2: u8,
    runs: &[Run],
    range: TokenRange,
    after: Option<Token>,
    max: usize,
) -> Chunk<'_>
    requires grouped { IsGrouped table log2 runs.now }
    requires max { 1 ≤ max }
    ensures prefix { result.cells.now
        ≡ take (length result.cells.now) (range_cells (run_cells table runs.now) table range after) }
    ensures most { length result.cells.now ≤ max }
    ensures some { result.cells.now ≡ [] → range_cells (run_cells table runs.now) table range after ≡ [] }
    ensures more { IsTrue result.more
        ↔ (length result.cells.now < length (range_cells (run_cells table runs.now) table range after)) }
    ensures full { tablet_at log2 range.first.value ≡ tablet_at log2 range.last.value
        → result.cells.now ≡ take max (range_cells (run_cells table runs.now) table range after) }
    ensures one_run { result.cells.now
        ≡ take max (first_run_cells log2 (range_cells (run_cells table runs.now) table range after)) }
{
    let from = index_of(log2, first_asked(range, after));
    let until = index_of(log2, range.last) + 1;
    if from < until {
        chunk_of(table, &runs[from..until], range, after, max)
    } else {
        Chunk {
            cells: &[],
            more: false,
        }
    }
}

/// A token that no cell of the range above `after` is below: the greater one of `after` and of the range's first.
fn first_asked(range: TokenRange, after: Option<Token>) -> Token
    ensures above_first { offset range.first.value ≤ offset result.value }
    ensures asked { (table : _) → rank table result ≤ start_of table range after }
{
    match after {
        Some(token) if range.first.get() < token.get() => token,
        _ => range.first,
    }
}

/// The same over some runs, whichever their tablets.
fn chunk_of(
    table: TableId,
    runs: &[Run],
    range: TokenRange,
    after: Option<Token>,
    max: usize,
) -> Chunk<'_>
    requires ordered { AreOrdered table runs.now }
    requires max { 1 ≤ max }
    ensures prefix { result.cells.now
        ≡ take (length result.cells.now) (range_cells (run_cells table runs.now) table range after) }
    ensures most { length result.cells.now ≤ max }
    ensures some { result.cells.now ≡ [] → range_cells (run_cells table runs.now) table range after ≡ [] }
    ensures more { IsTrue result.more
        ↔ (length result.cells.now < length (range_cells (run_cells table runs.now) table range after)) }
    ensures full { length runs.now ≤ 1
        → result.cells.now ≡ take max (range_cells (run_cells table runs.now) table range after) }
    ensures one_run { (log2 first : ℕ) → AreRuns table log2 first runs.now → result.cells.now
        ≡ take max (first_run_cells log2 (range_cells (run_cells table runs.now) table range after)) }
{
    let at = first_with(table, runs, range, after);
    if at < runs.len() {
        let run = &runs[at];
        let (_, later) = runs.split_at(at + 1);
        let cells = run::range_of(table, run.as_slice(), range, after);
        lend(cells, has_any(table, later, range, after), max)
    } else {
        Chunk {
            cells: &[],
            more: false,
        }
    }
}

/// Whether there is a cell of the range above `after`.
fn has_any(table: TableId, runs: &[Run], range: TokenRange, after: Option<Token>) -> bool
    requires { AreOrdered table runs.now }
    ensures { result ≡ nat_lt 0 (length (range_cells (run_cells table runs.now) table range after)) }
{
    first_with(table, runs, range, after) < runs.len()
}

/// The least index of a run in which the range has cells above `after`, or the count of the runs.
fn first_with(table: TableId, runs: &[Run], range: TokenRange, after: Option<Token>) -> usize
    requires { AreOrdered table runs.now }
    ensures within { result ≤ length runs.now }
    ensures none { range_cells (run_cells table (take result runs.now)) table range after ≡ [] }
    ensures some { (d : Filled) → result < length runs.now
        → 0 < length (range_cells (of_table table (slice_index_or runs.now result d).stored) table range after) }
{
    for (at, run) in runs.iter().enumerate() {
        if !run::range_of(table, run.as_slice(), range, after).is_empty() {
            return at;
        }
    }
    runs.len()
}

/// Lends at most the first `max` of some cells, and says whether there are more of them or further ones.
fn lend(cells: &[Stored], further: bool, max: usize) -> Chunk<'_>
    ensures first { result.cells.now ≡ take max cells.now }
    ensures more { IsTrue result.more ↔ (length result.cells.now < length cells.now) ⊎ IsTrue further }
{
    let lent = cells.len().min(max);
    Chunk {
        cells: &cells[..lent],
        more: lent < cells.len() || further,
    }
}
