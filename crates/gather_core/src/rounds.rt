//! Pulls over stores that are all at hand.
ghost use Rattle.std.specs.Prelude.{◌≡◌, ◌<◌, true, length, IfOk, OnOk, option_map, Some, None};
ghost use Rattle.replica_store.specs.Cells.{IsOrdered};
ghost use Rattle.stream_core.specs.Pulls.{next_ask};
ghost use Rattle.gather_core.specs.Laws.{AreOrdered};
ghost use Rattle.gather_core.specs.Rounds.{cells_in, round_stores, round_gather, CanGather, IsCome, is_of, pulls_left};

use crate::gather::Gather;
use base_ids::{NoMemory, Session};
use replica_store::Store;
use std::alloc::Global;
use stream_core::{ChunkAsk, serve_chunk};

/// Serves the next ask, and takes its chunk. `NoMemory` comes where the chunk or the room for it is refused; what the
/// stores hold is then what they held.
pub fn gather_once<S: Store>(
    alloc: Global,
    stores: &mut [S],
    gather: &mut Gather,
    ask: &ChunkAsk,
) -> Result<(), NoMemory>
    requires asked { option_map next_ask gather.old.pull ≡ Some ask.now }
    requires by { ask.now.by.0 < length stores.old }
    requires to { ask.now.to.0 < length stores.old }
    requires ordered { AreOrdered (cells_in S.cells stores.old) }
    ensures gather { OnOk result (gather.new ≡ round_gather (cells_in S.cells stores.old) gather.old ask.now) }
    ensures stores { OnOk result
        (cells_in S.cells stores.new ≡ round_stores (cells_in S.cells stores.old) gather.old ask.now) }
    ensures length { length stores.new ≡ length stores.old }
{
    let chunk = serve_chunk(alloc, &stores[usize::from(ask.to.0)], ask)?;
    gather.take(&mut stores[usize::from(ask.by.0)], &chunk)?;
    Ok(())
}

/// Takes chunks until the pull of this session, which goes on, is done.
fn pull_through<S: Store>(
    alloc: Global,
    stores: &mut [S],
    gather: &mut Gather,
    session: Session,
) -> Result<(), NoMemory>
    requires can { CanGather (length stores.old) gather.old }
    requires ordered { AreOrdered (cells_in S.cells stores.old) }
    requires session { is_of session gather.old.pull ≡ true }
    ensures come { OnOk result (IsCome (length stores.old)
        (cells_in S.cells stores.old) gather.old (cells_in S.cells stores.new) gather.new) }
    ensures fewer { OnOk result (pulls_left gather.new < pulls_left gather.old) }
    ensures length { length stores.new ≡ length stores.old }
{
    while let Some(ask) = gather.next_ask() {
        if ask.session.0 != session.0 {
            return Ok(());
        }
        gather_once(alloc, stores, gather, &ask)?;
    }
    Ok(())
}

/// Makes all pulls over stores that are all at hand, the store of host n the n-th. At `NoMemory` some of the pulls may
/// have been made.
pub fn gather_all<S: Store>(
    alloc: Global,
    stores: &mut [S],
    gather: &mut Gather,
) -> Result<(), NoMemory>
    requires can { CanGather (length stores.old) gather.old }
    requires ordered { AreOrdered (cells_in S.cells stores.old) }
    ensures come { OnOk result (IsCome (length stores.old)
        (cells_in S.cells stores.old) gather.old (cells_in S.cells stores.new) gather.new) }
    ensures done { OnOk result (gather.new.pull ≡ None) }
    ensures length { length stores.new ≡ length stores.old }
{
    while let Some(ask) = gather.next_ask() {
        pull_through(alloc, stores, gather, ask.session)?;
    }
    Ok(())
}
