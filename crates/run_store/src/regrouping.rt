//! The runs of a table for twice or half as many tablets, copied.
ghost use Rattle.std.specs.Prelude.{◌≡◌, ℕ, ◌+◌, ◌*◌, ◌^◌, ◌<◌, ◌++◌, IfOk};
ghost use Rattle.base_ids.specs.declared.ids.TableId.{TableId};
ghost use Rattle.token_ring.specs.Ring.{first_offset};
ghost use Rattle.run_store.specs.Runs.{of_table, run_cells, IsRun, IsGrouped};

use crate::run::{self, Run};
use crate::runs::push;
use base_ids::{NoMemory, TableId};
use replica_store::{Stored, rank};
use std::alloc::Global;
use token_ring::{TabletId, children, range_of};

/// For each run those of its tablet's two children.
pub fn halves(alloc: Global, table: TableId, log2: u8, runs: &[Run]) -> Result<Vec<Run>, NoMemory>
    requires grouped { IsGrouped table log2 runs.now }
    requires few { log2 < 10 }
    ensures grouped { IfOk result (λ halves. IsGrouped table (log2 + 1) halves.items) }
    ensures cells { IfOk result (λ halves. run_cells table halves.items ≡ run_cells table runs.now) }
{
    let mut halves = Vec::new(alloc);
    for at in 0..runs.len() {
        let run = &runs[at];
        let (left, right) = halves_of(table, log2, at, run.as_slice());
        push(&mut halves, Run::copied(alloc, left)?)?;
        push(&mut halves, Run::copied(alloc, right)?)?;
    }
    Ok(halves)
}

/// For each two runs, of tablets with one parent, the run of the parent.
pub fn pairs(alloc: Global, runs: &[Run]) -> Result<Vec<Run>, NoMemory>
    ensures grouped { IfOk result (λ pairs. (table : TableId) (log2 : ℕ)
        → IsGrouped table (log2 + 1) runs.now → IsGrouped table log2 pairs.items) }
    ensures cells { IfOk result (λ pairs. (table : TableId) (log2 : ℕ)
        → IsGrouped table (log2 + 1) runs.now → run_cells table pairs.items ≡ run_cells table runs.now) }
{
    let mut pairs = Vec::new(alloc);
    for at in 0..runs.len() / 2 {
        let left = &runs[2 * at];
        let right = &runs[2 * at + 1];
        push(
            &mut pairs,
            Run::joined(alloc, left.as_slice(), right.as_slice())?,
        )?;
    }
    Ok(pairs)
}

/// The cells of a tablet's left child, and those of its right one.
fn halves_of(table: TableId, log2: u8, at: usize, stored: &[Stored]) -> (&[Stored], &[Stored])
    requires few { log2 < 10 }
    requires tablet { at < 2 ^ log2 }
    requires run { IsRun log2 at (of_table table stored.now) }
    ensures all { result.0.now ++ result.1.now ≡ stored.now }
    ensures left { IsRun (log2 + 1) (2 * at) (of_table table result.0.now) }
    ensures right { IsRun (log2 + 1) (2 * at + 1) (of_table table result.1.now) }
{
    let cut = run::first_from(table, stored, boundary_of(table, log2, at));
    stored.split_at(cut)
}

/// The place of the first token of a tablet's right child, among the places of the tokens of all tables.
fn boundary_of(table: TableId, log2: u8, at: usize) -> u128
    requires few { log2 < 10 }
    requires tablet { at < 2 ^ log2 }
    ensures { result ≡ table.0 * 2 ^ 64 + first_offset (log2 + 1) (2 * at + 1) }
{
    let (_, right) = children(TabletId(at as u32));
    rank(table, range_of(log2 + 1, right).first)
}
