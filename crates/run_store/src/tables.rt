//! Tables with runs of their own, and one sorted list for the rest.
ghost use Rattle.std.specs.Prelude.{◌≡◌, ◌≢◌, ◌↔◌, ℕ, ◌+◌, ◌^◌, ◌<◌, ◌≤◌, [], ◌∷◌, ◌++◌, true, length, take, IsTrue, IfOk, OnOk, OnErr};
ghost use Rattle.std.specs.Option.{option_copied};
ghost use Rattle.base_ids.specs.declared.ids.TableId.{TableId};
ghost use Rattle.cell_merge.specs.Cell.{greater_cell};
ghost use Rattle.token_ring.specs.Ring.{tablet_at};
ghost use Rattle.token_ring.specs.declared.token.Token.{Token};
ghost use Rattle.replica_store.specs.Cells.{Cells, cell_at, is_within, only_at, outside, range_cells};
ghost use Rattle.run_store.specs.Runs.{first_run_cells, tablet_cells};
ghost use Rattle.run_store.specs.Tables.{AreTables, IsLaid, has_own, index_of, least_room, log2_of, log2s_of, store_cells, without};

use crate::table::TableRuns;
use base_ids::{NoMemory, TableId};
use cell_merge::Cell;
use replica_store::{Chunk, Store, Stored, VecStore};
use std::alloc::Global;
use token_ring::{TabletId, Token, TokenRange, range_of};

/// The index of a table among those with runs of their own, or their count.
pub fn index_of(tables: &[TableRuns], table: TableId) -> usize
    ensures { result ≡ index_of tables.now table }
{
    for (at, own) in tables.iter().enumerate() {
        if own.table() == table {
            return at;
        }
    }
    tables.len()
}

/// The cell that is stored for a token.
pub fn get<'a>(
    tables: &'a [TableRuns],
    rest: &'a VecStore,
    table: TableId,
    token: Token,
) -> Option<&'a Cell>
    requires { IsLaid tables.now rest.now.cells }
    ensures { option_copied result ≡ cell_at (store_cells tables.now rest.now.cells) table token }
{
    let at = index_of(tables, table);
    if at < tables.len() {
        let own = &tables[at];
        own.get(token)
    } else {
        rest.get(table, token)
    }
}

/// Makes room for `n` more cells in each run of each table. `NoMemory` leaves the cells, and the room is not less.
pub fn reserve(tables: &mut Vec<TableRuns>, n: usize) -> Result<(), NoMemory>
    ensures laid { (rest : Cells) → IsLaid tables.old.items rest → IsLaid tables.new.items rest }
    ensures cells { (rest : Cells) → store_cells tables.new.items rest ≡ store_cells tables.old.items rest }
    ensures log2s { log2s_of tables.new.items ≡ log2s_of tables.old.items }
    ensures ok { OnOk result (n ≤ least_room tables.new.items) }
    ensures room { least_room tables.old.items ≤ least_room tables.new.items }
{
    for at in 0..tables.len() {
        let own = &mut tables[at];
        own.reserve(n)?;
    }
    Ok(())
}

/// Puts a cell into its place, or keeps the greater one where a cell stands there.
pub fn put(tables: &mut Vec<TableRuns>, rest: &mut VecStore, table: TableId, put: Stored)
    requires laid { IsLaid tables.old.items rest.old.cells }
    requires rest_room { 1 ≤ rest.old.spare }
    requires tables_room { 1 ≤ least_room tables.old.items }
    ensures laid { IsLaid tables.new.items rest.new.cells }
    ensures map { (t : TableId) (k : Token) → cell_at (store_cells tables.new.items rest.new.cells) t k
        ≡ greater_cell (cell_at (store_cells tables.old.items rest.old.cells) t k)
        (only_at table put.token put.cell t k) }
    ensures log2s { log2s_of tables.new.items ≡ log2s_of tables.old.items }
    ensures rest_left { rest.old.spare ≤ rest.new.spare + 1 }
    ensures tables_left { least_room tables.old.items ≤ least_room tables.new.items + 1 }
{
    let at = index_of(tables.as_slice(), table);
    if at < tables.len() {
        let own = &mut tables[at];
        own.put(put);
    } else {
        rest.put(table, put.token, put.cell);
    }
}

/// The first cells of a range above `after`, at most `max` of them and of one run alone: of the first that has any.
pub fn chunk<'a>(
    tables: &'a [TableRuns],
    rest: &'a VecStore,
    table: TableId,
    range: TokenRange,
    after: Option<Token>,
    max: usize,
) -> Chunk<'a>
    requires laid { IsLaid tables.now rest.now.cells }
    requires max { 1 ≤ max }
    ensures prefix { result.cells.now
        ≡ take (length result.cells.now) (range_cells (store_cells tables.now rest.now.cells) table range after) }
    ensures most { length result.cells.now ≤ max }
    ensures some { result.cells.now ≡ [] → range_cells (store_cells tables.now rest.now.cells) table range after ≡ [] }
    ensures more { IsTrue result.more
        ↔ (length result.cells.now < length (range_cells (store_cells tables.now rest.now.cells) table range after)) }
    ensures full { tablet_at (log2_of (log2s_of tables.now) table) range.first.value
        ≡ tablet_at (log2_of (log2s_of tables.now) table) range.last.value
        → result.cells.now ≡ take max (range_cells (store_cells tables.now rest.now.cells) table range after) }
    ensures one_run { result.cells.now ≡ take max (first_run_cells (log2_of (log2s_of tables.now) table)
        (range_cells (store_cells tables.now rest.now.cells) table range after)) }
{
    let at = index_of(tables, table);
    if at < tables.len() {
        let own = &tables[at];
        own.chunk(range, after, max)
    } else {
        rest.chunk(table, range, after, max)
    }
}

/// Takes out a range of a table.
pub fn drop_range(
    tables: &mut Vec<TableRuns>,
    rest: &mut VecStore,
    table: TableId,
    range: TokenRange,
)
    requires { IsLaid tables.old.items rest.old.cells }
    ensures laid { IsLaid tables.new.items rest.new.cells }
    ensures cells { store_cells tables.new.items rest.new.cells
        ≡ outside (store_cells tables.old.items rest.old.cells) table range }
    ensures log2s { log2s_of tables.new.items ≡ log2s_of tables.old.items }
    ensures rest_left { rest.old.spare ≤ rest.new.spare }
    ensures tables_left { least_room tables.old.items ≤ least_room tables.new.items }
{
    let at = index_of(tables.as_slice(), table);
    if at < tables.len() {
        let own = &mut tables[at];
        own.drop_range(range);
    } else {
        rest.drop_range(table, range);
    }
}

/// All tokens.
fn whole() -> TokenRange
    ensures { (t : TableId) (k : Token) → is_within t result t k ≡ true }
{
    range_of(0, TabletId(0))
}

/// The index of a table with runs of its own. One that has none gets one run, of its cells among the rest.
pub fn adopt(
    alloc: Global,
    tables: &mut Vec<TableRuns>,
    rest: &mut VecStore,
    table: TableId,
) -> Result<usize, NoMemory>
    requires { IsLaid tables.old.items rest.old.cells }
    ensures laid { IsLaid tables.new.items rest.new.cells }
    ensures cells { store_cells tables.new.items rest.new.cells ≡ store_cells tables.old.items rest.old.cells }
    ensures log2s { (t : TableId) → log2_of (log2s_of tables.new.items) t ≡ log2_of (log2s_of tables.old.items) t }
    ensures at { IfOk result (λ at. at ≡ index_of tables.new.items table) }
    ensures within { IfOk result (λ at. at < length tables.new.items) }
    ensures moved { IfOk result (λ _. length tables.old.items ≤ index_of tables.old.items table
        → rest.new.cells ≡ without table rest.old.cells) }
    ensures kept { IfOk result (λ _. index_of tables.old.items table < length tables.old.items
        → (tables.new.items ≡ tables.old.items) × (rest.new.cells ≡ rest.old.cells)) }
    ensures own { IfOk result (λ _. has_own (log2s_of tables.new.items) table ≡ true) }
    ensures own_kept { (t : TableId) → has_own (log2s_of tables.old.items) t ≡ true
        → has_own (log2s_of tables.new.items) t ≡ true }
{
    let at = index_of(tables.as_slice(), table);
    if at < tables.len() {
        return Ok(at);
    }
    let own = TableRuns::new(alloc, table, rest.range(table, whole()))?;
    push(tables, own)?;
    rest.drop_range(table, whole());
    Ok(at)
}

/// Adds a table at the end.
fn push(tables: &mut Vec<TableRuns>, own: TableRuns) -> Result<(), NoMemory>
    ensures ok { OnOk result (tables.new.items ≡ tables.old.items ++ own ∷ []) }
    ensures err { OnErr result (tables.new.items ≡ tables.old.items) }
{
    match tables.push(own) {
        Ok(()) => Ok(()),
        Err(_) => Err(NoMemory),
    }
}

/// Gives a table twice as many runs.
pub fn segregate(
    alloc: Global,
    tables: &mut Vec<TableRuns>,
    rest: &mut VecStore,
    table: TableId,
) -> Result<(), NoMemory>
    requires laid { IsLaid tables.old.items rest.old.cells }
    requires few { log2_of (log2s_of tables.old.items) table < 10 }
    ensures laid { IsLaid tables.new.items rest.new.cells }
    ensures cells { store_cells tables.new.items rest.new.cells ≡ store_cells tables.old.items rest.old.cells }
    ensures ok { OnOk result
        (log2_of (log2s_of tables.new.items) table ≡ log2_of (log2s_of tables.old.items) table + 1) }
    ensures err { OnErr result (log2_of (log2s_of tables.new.items) table ≡ log2_of (log2s_of tables.old.items) table) }
    ensures others { (t : TableId) → t ≢ table
        → log2_of (log2s_of tables.new.items) t ≡ log2_of (log2s_of tables.old.items) t }
    ensures own_kept { (t : TableId) → has_own (log2s_of tables.old.items) t ≡ true
        → has_own (log2s_of tables.new.items) t ≡ true }
{
    let at = adopt(alloc, tables, rest, table)?;
    let own = &mut tables[at];
    own.segregate(alloc)
}

/// Gives a table half as many runs.
pub fn join_groups(
    alloc: Global,
    tables: &mut Vec<TableRuns>,
    rest: &mut VecStore,
    table: TableId,
) -> Result<(), NoMemory>
    requires laid { IsLaid tables.old.items rest.old.cells }
    requires several { 0 < log2_of (log2s_of tables.old.items) table }
    ensures laid { IsLaid tables.new.items rest.new.cells }
    ensures cells { store_cells tables.new.items rest.new.cells ≡ store_cells tables.old.items rest.old.cells }
    ensures ok { OnOk result
        (log2_of (log2s_of tables.new.items) table + 1 ≡ log2_of (log2s_of tables.old.items) table) }
    ensures err { OnErr result (log2_of (log2s_of tables.new.items) table ≡ log2_of (log2s_of tables.old.items) table) }
    ensures others { (t : TableId) → t ≢ table
        → log2_of (log2s_of tables.new.items) t ≡ log2_of (log2s_of tables.old.items) t }
    ensures own_kept { (t : TableId) → has_own (log2s_of tables.old.items) t ≡ true
        → has_own (log2s_of tables.new.items) t ≡ true }
{
    let at = adopt(alloc, tables, rest, table)?;
    let own = &mut tables[at];
    own.join_groups(alloc)
}

/// The logarithm of a table's run count.
pub fn log2_of(tables: &[TableRuns], table: TableId) -> u8
    requires { AreTables tables.now }
    ensures log2 { result ≡ log2_of (log2s_of tables.now) table }
    ensures few { result ≤ 10 }
{
    let at = index_of(tables, table);
    if at < tables.len() {
        let own = &tables[at];
        own.log2()
    } else {
        0
    }
}

/// The cells of a table's tablet, in the order of their tokens.
pub fn run<'a>(
    tables: &'a [TableRuns],
    rest: &'a VecStore,
    table: TableId,
    tablet: usize,
) -> &'a [Stored]
    requires laid { IsLaid tables.now rest.now.cells }
    requires tablet { tablet < 2 ^ log2_of (log2s_of tables.now) table }
    ensures { result.now
        ≡ tablet_cells (store_cells tables.now rest.now.cells) table (log2_of (log2s_of tables.now) table) tablet }
{
    let at = index_of(tables, table);
    if at < tables.len() {
        let own = &tables[at];
        own.run(tablet)
    } else {
        rest.range(table, whole())
    }
}
