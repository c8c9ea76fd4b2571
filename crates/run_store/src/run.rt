//! One run: stored cells of one table, in the order of their tokens.
ghost use Rattle.std.specs.Prelude.{◌≡◌, ◌+◌, ◌-◌, ◌<◌, ◌≤◌, ◌++◌, length, drop, vec_len, IfOk, OnOk};
ghost use Rattle.std.specs.Vec.{vec_capacity};
ghost use Rattle.std.specs.Option.{option_copied};
ghost use Rattle.replica_store.specs.Cells.{IsOrdered, cell_at, range_cells, outside};
ghost use Rattle.replica_store.specs.Columns.{first_from, begins_at, put_at};
ghost use Rattle.run_store.specs.Runs.{of_table};

use base_ids::{NoMemory, TableId};
use cell_merge::Cell;
use replica_store::{Stored, insert, raise, rank, start_of, take_out};
use std::alloc::Global;
use std::marker::Model;
use token_ring::{Token, TokenRange};

/// Stored cells of one table, whose number is told beside them.
#[derive(Drop)]
pub struct Run {
    stored: Vec<Stored>,
}

impl Model for Run {
    ghost use Rattle.std.specs.Prelude.{◌-◌, vec_len};
    ghost use Rattle.std.specs.Vec.{vec_capacity};
    ghost use Rattle.run_store.specs.Runs.{Filled};

    ghost Value = { Filled };

    ghost view = { λ r. record { stored = r.stored.items; spare = vec_capacity r.stored - vec_len r.stored } };
}

impl Run {
    /// A run of these cells.
    pub fn copied(alloc: Global, cells: &[Stored]) -> Result<Run, NoMemory>
        ensures { IfOk result (λ run. run.stored ≡ cells.now) }
    {
        match Vec::from_slice(alloc, cells) {
            Ok(stored) => Ok(Run { stored }),
            Err(_) => Err(NoMemory),
        }
    }

    /// A run of these cells and then of those.
    pub fn joined(alloc: Global, first: &[Stored], second: &[Stored]) -> Result<Run, NoMemory>
        ensures { IfOk result (λ run. run.stored ≡ first.now ++ second.now) }
    {
        let Ok(mut stored) = Vec::from_slice(alloc, first) else {
            return Err(NoMemory);
        };
        if stored.extend_from_slice(second).is_err() {
            return Err(NoMemory);
        }
        Ok(Run { stored })
    }

    /// The cells of the run.
    pub fn as_slice(&self) -> &[Stored]
        ensures { result.now ≡ self.now.stored }
    {
        self.stored.as_slice()
    }

    /// Makes room for `n` more cells.
    pub fn reserve(&mut self, n: usize) -> Result<(), NoMemory>
        ensures same { self.new.stored ≡ self.old.stored }
        ensures ok { OnOk result (n ≤ self.new.spare) }
        ensures room { self.old.spare ≤ self.new.spare }
    {
        if self.stored.reserve(n).is_err() {
            return Err(NoMemory);
        }
        Ok(())
    }

    /// Puts a cell into its place, or keeps the greater one where a cell stands there.
    pub fn put(&mut self, table: TableId, put: Stored)
        requires ordered { IsOrdered (of_table table self.old.stored) }
        requires room { 1 ≤ self.old.spare }
        ensures cells { of_table table self.new.stored ≡ put_at (of_table table self.old.stored) (table, put) }
        ensures room { self.old.spare ≤ self.new.spare + 1 }
    {
        put_in(&mut self.stored, table, put);
    }

    /// Takes out the cells of a range.
    pub fn drop_range(&mut self, table: TableId, range: TokenRange)
        requires { IsOrdered (of_table table self.old.stored) }
        ensures cells { of_table table self.new.stored ≡ outside (of_table table self.old.stored) table range }
        ensures room { self.old.spare ≤ self.new.spare }
    {
        drop_from(&mut self.stored, table, range);
    }
}

/// The index of the first cell at this place or after it, by halving.
pub fn first_from(table: TableId, stored: &[Stored], from: u128) -> usize
    requires { IsOrdered (of_table table stored.now) }
    ensures index { result ≡ first_from (of_table table stored.now) from }
    ensures within { result ≤ length stored.now }
{
    let mut low = 0;
    let mut high = stored.len();
    'halving: while low < high {
        let middle = low + (high - low) / 2;
        if rank(table, stored[middle].token) < from {
            low = middle + 1;
        } else {
            high = middle;
        }
    }
    low
}

/// Whether a cell stands at this index and has this place.
fn is_at(table: TableId, stored: &[Stored], at: usize, place: u128) -> bool
    ensures { result ≡ begins_at (drop at (of_table table stored.now)) place }
{
    if at < stored.len() {
        rank(table, stored[at].token) == place
    } else {
        false
    }
}

/// The cell that is stored for a token.
pub fn find(table: TableId, stored: &[Stored], token: Token) -> Option<&Cell>
    requires { IsOrdered (of_table table stored.now) }
    ensures { option_copied result ≡ cell_at (of_table table stored.now) table token }
{
    let place = rank(table, token);
    let at = first_from(table, stored, place);
    if is_at(table, stored, at, place) {
        Some(&stored[at].cell)
    } else {
        None
    }
}

/// The index of the first cell from one place on, and how many follow from there that stand before another place.
fn between(table: TableId, stored: &[Stored], from: u128, until: u128) -> (usize, usize)
    requires { IsOrdered (of_table table stored.now) }
    ensures start { result.0 ≡ first_from (of_table table stored.now) from }
    ensures count { result.1 ≡ first_from (drop result.0 (of_table table stored.now)) until }
    ensures within { result.0 + result.1 ≤ length stored.now }
{
    let start = first_from(table, stored, from);
    let (_, behind) = stored.split_at(start);
    (start, first_from(table, behind, until))
}

/// The cells of a range above `after`.
pub fn range_of(
    table: TableId,
    stored: &[Stored],
    range: TokenRange,
    after: Option<Token>,
) -> &[Stored]
    requires { IsOrdered (of_table table stored.now) }
    ensures { result.now ≡ range_cells (of_table table stored.now) table range after }
{
    let from = start_of(table, range, after);
    let until = rank(table, range.last) + 1;
    let (start, count) = between(table, stored, from, until);
    let (_, behind) = stored.split_at(start);
    let (cells, _) = behind.split_at(count);
    cells
}

/// Puts a cell into its place, or keeps the greater one where a cell stands there. There is room for one more.
fn put_in(stored: &mut Vec<Stored>, table: TableId, put: Stored)
    requires ordered { IsOrdered (of_table table stored.old.items) }
    requires room { vec_len stored.old < vec_capacity stored.old }
    ensures cells { of_table table stored.new.items ≡ put_at (of_table table stored.old.items) (table, put) }
    ensures room { vec_capacity stored.old - vec_len stored.old ≤ vec_capacity stored.new - vec_len stored.new + 1 }
{
    let place = rank(table, put.token);
    let at = first_from(table, stored.as_slice(), place);
    if is_at(table, stored.as_slice(), at, place) {
        raise(&mut stored[at].cell, &put.cell);
    } else {
        insert(stored, at, put);
    }
}

/// Takes out the cells of a range.
fn drop_from(stored: &mut Vec<Stored>, table: TableId, range: TokenRange)
    requires { IsOrdered (of_table table stored.old.items) }
    ensures cells { of_table table stored.new.items ≡ outside (of_table table stored.old.items) table range }
    ensures room { vec_capacity stored.old - vec_len stored.old ≤ vec_capacity stored.new - vec_len stored.new }
{
    let first = rank(table, range.first);
    let behind = rank(table, range.last) + 1;
    let (start, count) = between(table, stored.as_slice(), first, behind);
    take_out(stored, start, start + count);
}
