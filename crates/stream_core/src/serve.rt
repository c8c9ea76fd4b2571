//! The chunk that a host sends.
ghost use Rattle.std.specs.Prelude.{◌≡◌, ◌≤◌, take, length, nat_lt, IfOk};
ghost use Rattle.replica_store.specs.Cells.{range_cells};
ghost use Rattle.stream_core.specs.Pulls.{most_cells, served_chunk};

use crate::data::{ChunkAsk, ChunkMsg};
use base_ids::NoMemory;
use replica_store::{Chunk, Store, StoredList, append_cells};
use std::alloc::Global;

/// A chunk has at most so many cells.
const MOST_CELLS: usize = 64;

/// The chunk that is asked for: the first 64 cells of the range above `after`, and whether there are more. The store
/// lends them by as many chunks of its own as it takes.
pub fn serve_chunk<S: Store>(alloc: Global, store: &S, ask: &ChunkAsk) -> Result<ChunkMsg, NoMemory>
    ensures { IfOk result (λ chunk. chunk ≡ served_chunk (S.cells store.now) ask.now) }
{
    let (cells, more) = first_cells(alloc, store, ask)?;
    Ok(ChunkMsg {
        session: ask.session,
        after: ask.after,
        cells,
        more,
        to: ask.by,
    })
}

/// The first 64 cells that are asked for, and whether there are more.
fn first_cells<S: Store>(
    alloc: Global,
    store: &S,
    ask: &ChunkAsk,
) -> Result<(StoredList, bool), NoMemory>
    ensures cells { IfOk result (λ r. r.0
        ≡ take most_cells (range_cells (S.cells store.now) ask.now.table ask.now.range ask.now.after)) }
    ensures more { IfOk result (λ r. r.1
        ≡ nat_lt most_cells (length (range_cells (S.cells store.now) ask.now.table ask.now.range ask.now.after))) }
{
    let mut list = StoredList::new(alloc);
    let mut after = ask.after;
    let mut room = MOST_CELLS;
    'gathering: loop {
        let Chunk { cells, more } = store.chunk(ask.table, ask.range, after, room);
        append_cells(&mut list, cells)?;
        room -= cells.len();
        if !more || room == 0 {
            return Ok((list, more));
        }
        match cells.last() {
            Some(stored) => after = Some(stored.token),
            None => unreachable!(),
        }
    }
}
