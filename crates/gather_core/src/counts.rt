//! How many cells a range has, and how many of them are new.
ghost use Rattle.std.specs.Prelude.{◌≡◌, ◌≤◌, ◌-◌, ◌^◌, ◌≤ℤ◌, min, drop, length};
ghost use Rattle.replica_store.specs.Cells.{IsAscending, stored_at};
ghost use Rattle.token_ring.specs.declared.token.Token.{Token};
ghost use Rattle.gather_core.specs.Counts.{cells_held, is_new, new_in, is_other, starts_below, IsFrom};

use base_ids::TableId;
use cell_merge::Cell;
use replica_store::{Chunk, Store, Stored};
use token_ring::{Token, TokenRange};

/// How many cells the store has of a range; 2^64 - 1 where they are more. Takes no memory, and copies no cell.
pub fn count_cells<S: Store>(store: &S, table: TableId, range: TokenRange) -> usize
    ensures { result ≡ min (cells_held (S.cells store.now) table range) (2 ^ 64 - 1) }
{
    let mut count: usize = 0;
    let mut after = None;
    'counting: loop {
        let Chunk { cells, more } = store.chunk(table, range, after, usize::MAX);
        count = count.saturating_add(cells.len());
        if !more {
            return count;
        }
        match cells.last() {
            Some(stored) => after = Some(stored.token),
            None => unreachable!(),
        }
    }
}

/// Whether there is a cell at this index, and it is below the token.
fn is_below(cells: &[Stored], at: usize, token: Token) -> bool
    ensures { result ≡ starts_below token (drop at cells.now) }
{
    at < cells.len() && cells[at].token.get() < token.get()
}

/// The index of the first cell, from this index on, that is not below the token.
fn start_from(cells: &[Stored], from: usize, token: Token) -> usize
    requires { from ≤ length cells.now }
    ensures within { result ≤ length cells.now }
    ensures first { IsFrom token (drop result cells.now) }
    ensures same { (k : Token) → token.value ≤ℤ k.value
        → stored_at (drop result cells.now) k ≡ stored_at (drop from cells.now) k }
{
    let mut at = from;
    'skipping: while is_below(cells, at, token) {
        at += 1;
    }
    at
}

/// Whether a cell has a greater token than one before, or is another one.
fn is_other(before: &Stored, stored: &Stored) -> bool
    ensures { result ≡ is_other before.now stored.now }
{
    stored.token.get() < before.token.get() || !Cell::compare(&before.cell, &stored.cell).is_eq()
}

/// Whether the cell is another one than that at this index, or has another token.
#[tactic(auto, using(crate::proofs::CountLemmas::new_at, crate::proofs::CountLemmas::new_end))]
fn is_new_at(cells: &[Stored], at: usize, stored: &Stored) -> bool
    requires within { at ≤ length cells.now }
    requires ordered { IsAscending cells.now }
    requires first { IsFrom stored.now.token (drop at cells.now) }
    ensures { result ≡ is_new (stored_at (drop at cells.now) stored.now.token) stored.now.cell }
{
    if at == cells.len() {
        return true;
    }
    is_other(&cells[at], stored)
}

/// How many cells of a list are not in one that was there before. Both are in the order of their tokens, and are gone
/// over once.
pub fn count_new(before: &[Stored], now: &[Stored]) -> usize
    requires before { IsAscending before.now }
    requires now { IsAscending now.now }
    ensures { result ≡ new_in before.now now.now }
{
    let mut count = 0;
    let mut at = 0;
    'counting: for stored in now {
        at = start_from(before, at, stored.token);
        if is_new_at(before, at, stored) {
            count += 1;
        }
    }
    count
}
