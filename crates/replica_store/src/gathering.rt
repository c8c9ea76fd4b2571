//! A whole range of any store, by several chunks.
ghost use Rattle.std.specs.Prelude.{◌≡◌, ◌≤◌, ◌++◌, None, IfOk, OnErr, OnOk, take};
ghost use Rattle.replica_store.specs.Cells.{range_cells};

use crate::store::{Chunk, Store, Stored, StoredList};
use base_ids::{NoMemory, TableId};
use std::alloc::Global;
use token_ring::TokenRange;

/// All cells of a range in the order of their tokens, asked for in chunks of at most `max`. `NoMemory` comes where
/// memory for the list is refused.
pub fn gather<S: Store>(
    alloc: Global,
    store: &S,
    table: TableId,
    range: TokenRange,
    max: usize,
) -> Result<StoredList, NoMemory>
    requires { 1 ≤ max }
    ensures { IfOk result (λ list. list ≡ range_cells (S.cells store.now) table range None) }
{
    let mut list = StoredList::new(alloc);
    let mut after = None;
    'gathering: loop {
        let Chunk { cells, more } = store.chunk(table, range, after, max);
        append_cells(&mut list, cells)?;
        if !more {
            return Ok(list);
        }
        match cells.last() {
            Some(stored) => after = Some(stored.token),
            None => unreachable!(),
        }
    }
}

/// Adds cells at the end of a list. `NoMemory` comes where memory for the list is refused, and leaves it as it was.
pub fn append_cells(list: &mut StoredList, cells: &[Stored]) -> Result<(), NoMemory>
    ensures ok { OnOk result (list.new ≡ list.old ++ cells.now) }
    ensures err { OnErr result (list.new ≡ list.old) }
{
    let before = list.len();
    'cells: for stored in cells {
        if list.push(*stored).is_err() {
            shorten(list, before);
            return Err(NoMemory);
        }
    }
    Ok(())
}

/// Leaves the first cells of a list, so many of them.
fn shorten(list: &mut StoredList, count: usize)
    ensures { list.new ≡ take count list.old }
{
    'dropping: while list.len() > count {
        let _last = list.pop();
    }
}
