//! What an input changes, over the parts of a host. Nothing here takes memory.
ghost use Rattle.std.specs.Prelude.{◌≡◌, ◌≤◌, length, Some, None};
ghost use Rattle.base_ids.specs.declared.ids.TableId.{TableId};
ghost use Rattle.replica_store.specs.Cells.{IsOrdered};
ghost use Rattle.host_core.specs.Host.{cells_with_chunk, chunk_pulls, clean_cells, clean_pulls, kept_pulls, with_begun, later_version};
ghost use Rattle.replica_core.specs.Cleanups.{cleanup_of, cleaned_cells};
ghost use Rattle.host_core.specs.Pulls.{pull_in};

use crate::pulls::PullTable;
use barrier_core::What;
use base_ids::{HostId, Session, Version};
use replica_core::{Cleanup, serve_cleanup};
use replica_store::Store;
use stream_core::{ChunkMsg, Pull};
use topo_state::TopoState;

/// The greater one of two versions.
pub fn greater_version(a: Version, b: Version) -> Version
    ensures { result ≡ later_version a b }
{
    if a.0 < b.0 { b } else { a }
}

/// Stores the cells of a chunk, where it is the next one of a pull.
pub fn take_chunk<S: Store>(store: &mut S, pulls: &mut PullTable, chunk: &ChunkMsg)
    requires ordered { IsOrdered (S.cells store.old) }
    requires room { length chunk.now.cells ≤ S.spare store.old }
    ensures cells { S.cells store.new
        ≡ cells_with_chunk (S.cells store.old) chunk.now (pull_in pulls.old.list chunk.now.session) }
    ensures pulls { pulls.new.list
        ≡ chunk_pulls pulls.old.list chunk.now (pull_in pulls.old.list chunk.now.session) }
    ensures ordered { IsOrdered (S.cells store.new) }
    ensures same_runs { (t : TableId) → S.runs store.new t ≡ S.runs store.old t }
{
    match pulls.get(chunk.session) {
        None => {}
        Some(found) => {
            let mut pull = found.copied();
            pull.take_chunk(store, chunk);
            pulls.put(chunk.session, pull);
        }
    }
}

/// Drops what a session's move leaves behind on the host, and then the session's pull too.
fn clean_session<S: Store>(
    store: &mut S,
    pulls: &mut PullTable,
    host: HostId,
    state: &TopoState,
    session: Session,
)
    ensures cells { S.cells store.new ≡ cleaned_cells (S.cells store.old) state.now host session }
    ensures ordered { IsOrdered (S.cells store.old) → IsOrdered (S.cells store.new) }
    ensures pulls { pulls.new.list ≡ kept_pulls pulls.old.list session (cleanup_of state.now host session) }
    ensures same_runs { (t : TableId) → S.runs store.new t ≡ S.runs store.old t }
{
    match serve_cleanup(store, host, state, session) {
        Cleanup::Cleaned => pulls.remove(session),
        Cleanup::NotMine => {}
    }
}

/// Cleans the host, where that is asked for and is its to do.
pub fn clean<S: Store>(
    store: &mut S,
    pulls: &mut PullTable,
    host: HostId,
    state: &TopoState,
    what: What,
)
    ensures cells { S.cells store.new ≡ clean_cells (S.cells store.old) state.now host what }
    ensures ordered { IsOrdered (S.cells store.old) → IsOrdered (S.cells store.new) }
    ensures pulls { pulls.new.list ≡ clean_pulls pulls.old.list state.now host what }
    ensures same_runs { (t : TableId) → S.runs store.new t ≡ S.runs store.old t }
{
    match what {
        What::Clean(session) => clean_session(store, pulls, host, state, session),
        _ => {}
    }
}

/// Begins a pull, where one is to begin.
pub fn begin_pull(pulls: &mut PullTable, session: Session, begun: Option<Pull>)
    requires { 1 ≤ pulls.old.spare }
    ensures { pulls.new.list ≡ with_begun pulls.old.list session begun }
{
    match begun {
        Some(pull) => pulls.put(session, pull),
        None => {}
    }
}
