//! Two columns, of tables and of stored cells, in the order of tables and tokens.
ghost use Rattle.std.specs.Prelude.{◌≡◌, ◌+◌, ◌-◌, ◌^◌, ◌<◌, ◌≤◌, ◌++◌, length, take, drop, insert, vec_len, if◌then◌else◌};
ghost use Rattle.std.specs.Option.{option_copied};
ghost use Rattle.std.specs.Ordering.{is_lt};
ghost use Rattle.cell_merge.specs.Cell.{cell_order};
ghost use Rattle.std.specs.Vec.{vec_capacity};
ghost use Rattle.replica_store.specs.Cells.{rank, cell_at, range_cells, outside};
ghost use Rattle.replica_store.specs.Columns.{AreColumns, first_from, begins_at, start_of, end_of, put_at};
ghost use Rattle.std.specs.List.{zip};

use crate::store::Stored;
use base_ids::TableId;
use cell_merge::Cell;
use std::cmp::Ordering;
use token_ring::{Token, TokenRange};

/// The place of a token of a table among the places of all tables.
pub fn rank(table: TableId, token: Token) -> u128
    ensures place { result ≡ rank table token }
    ensures bound { result < 2 ^ 96 }
{
    (u128::from(table.0) << 64) + u128::from(token.get().abs_diff(i64::MIN))
}

/// The index of the first cell at this place or after it, by halving.
fn first_from(tables: &[TableId], stored: &[Stored], from: u128) -> usize
    requires { AreColumns tables.now stored.now }
    ensures index { result ≡ first_from (zip tables.now stored.now) from }
    ensures within { result ≤ length tables.now }
{
    let mut low = 0;
    let mut high = tables.len();
    'halving: while low < high {
        let middle = low + (high - low) / 2;
        if rank(tables[middle], stored[middle].token) < from {
            low = middle + 1;
        } else {
            high = middle;
        }
    }
    low
}

/// Whether a cell stands at this index and has this place.
fn is_at(tables: &[TableId], stored: &[Stored], at: usize, place: u128) -> bool
    requires { length stored.now ≡ length tables.now }
    ensures { result ≡ begins_at (drop at (zip tables.now stored.now)) place }
{
    if at < tables.len() {
        rank(tables[at], stored[at].token) == place
    } else {
        false
    }
}

/// The cell that is stored for a token.
pub(crate) fn find<'a>(
    tables: &[TableId],
    stored: &'a [Stored],
    table: TableId,
    token: Token,
) -> Option<&'a Cell>
    requires { AreColumns tables.now stored.now }
    ensures { option_copied result ≡ cell_at (zip tables.now stored.now) table token }
{
    let place = rank(table, token);
    let at = first_from(tables, stored, place);
    if is_at(tables, stored, at, place) {
        Some(&stored[at].cell)
    } else {
        None
    }
}

/// The first place of a range above `after`.
pub fn start_of(table: TableId, range: TokenRange, after: Option<Token>) -> u128
    ensures { result ≡ start_of table range after }
{
    let first = rank(table, range.first);
    match after {
        None => first,
        Some(token) => first.max(rank(table, token) + 1),
    }
}

/// The index of the first cell from one place on, and how many follow from there that stand before another place.
fn between(tables: &[TableId], stored: &[Stored], from: u128, until: u128) -> (usize, usize)
    requires { AreColumns tables.now stored.now }
    ensures start { result.0 ≡ first_from (zip tables.now stored.now) from }
    ensures count { result.1 ≡ first_from (drop result.0 (zip tables.now stored.now)) until }
    ensures within { result.0 + result.1 ≤ length stored.now }
{
    let start = first_from(tables, stored, from);
    let (_, tables_behind) = tables.split_at(start);
    let (_, stored_behind) = stored.split_at(start);
    (start, first_from(tables_behind, stored_behind, until))
}

/// The cells of a range above `after`.
pub(crate) fn range_of<'a>(
    tables: &[TableId],
    stored: &'a [Stored],
    table: TableId,
    range: TokenRange,
    after: Option<Token>,
) -> &'a [Stored]
    requires { AreColumns tables.now stored.now }
    ensures { result.now ≡ range_cells (zip tables.now stored.now) table range after }
{
    let from = start_of(table, range, after);
    let until = rank(table, range.last) + 1;
    let (start, count) = between(tables, stored, from, until);
    let (_, behind) = stored.split_at(start);
    let (cells, _) = behind.split_at(count);
    cells
}

/// Puts a cell into its place, or keeps the greater one where a cell stands there. There is room for one more.
pub(crate) fn put(tables: &mut Vec<TableId>, stored: &mut Vec<Stored>, table: TableId, put: Stored)
    requires columns { AreColumns tables.old.items stored.old.items }
    requires table_room { vec_len tables.old < vec_capacity tables.old }
    requires stored_room { vec_len stored.old < vec_capacity stored.old }
    ensures columns { AreColumns tables.new.items stored.new.items }
    ensures cells { zip tables.new.items stored.new.items ≡ put_at (zip tables.old.items stored.old.items)
        (table, put) }
    ensures tables_left { vec_capacity tables.old - vec_len tables.old ≤
        vec_capacity tables.new - vec_len tables.new + 1 }
    ensures stored_left { vec_capacity stored.old - vec_len stored.old ≤
        vec_capacity stored.new - vec_len stored.new + 1 }
{
    let place = rank(table, put.token);
    let at = first_from(tables.as_slice(), stored.as_slice(), place);
    if is_at(tables.as_slice(), stored.as_slice(), at, place) {
        raise(&mut stored[at].cell, &put.cell);
    } else {
        insert(tables, at, table);
        insert(stored, at, put);
    }
}

/// Takes out the cells of a range.
pub(crate) fn drop_range(
    tables: &mut Vec<TableId>,
    stored: &mut Vec<Stored>,
    table: TableId,
    range: TokenRange,
)
    requires columns { AreColumns tables.old.items stored.old.items }
    ensures columns { AreColumns tables.new.items stored.new.items }
    ensures cells { zip tables.new.items stored.new.items ≡
        outside (zip tables.old.items stored.old.items) table range }
    ensures tables_left { vec_capacity tables.old - vec_len tables.old ≤ vec_capacity tables.new - vec_len tables.new }
    ensures stored_left { vec_capacity stored.old - vec_len stored.old ≤ vec_capacity stored.new - vec_len stored.new }
{
    let first = rank(table, range.first);
    let behind = rank(table, range.last) + 1;
    let (start, count) = between(tables.as_slice(), stored.as_slice(), first, behind);
    take_out(tables, start, start + count);
    take_out(stored, start, start + count);
}

/// Makes a cell the greater one of itself and another.
pub fn raise(cell: &mut Cell, other: &Cell)
    ensures { cell.new ≡ (if is_lt (cell_order cell.old other.now) then other.now else cell.old) }
{
    if Cell::compare(cell, other) == Ordering::Less {
        *cell = *other;
    }
}

/// Inserts an item into a column that has room for it.
pub fn insert<T: Drop>(column: &mut Vec<T>, at: usize, item: T)
    requires within { at ≤ length column.old.items }
    requires room { vec_len column.old < vec_capacity column.old }
    ensures items { column.new.items ≡ insert column.old.items at item }
    ensures len { vec_len column.new ≡ vec_len column.old + 1 }
    ensures room { vec_capacity column.old ≤ vec_capacity column.new }
{
    if column.insert(at, item).is_err() {
        unreachable!()
    }
}

/// Takes the items from `start` to below `end` out of a column.
pub fn take_out<T: Drop>(column: &mut Vec<T>, start: usize, end: usize)
    requires ends { start ≤ end }
    requires within { end ≤ length column.old.items }
    ensures items { column.new.items ≡ take start column.old.items ++ drop end column.old.items }
    ensures len { vec_len column.new ≤ vec_len column.old }
    ensures room { vec_capacity column.new ≡ vec_capacity column.old }
{
    column.drain(start..end);
}
