//! Cleaning what a move leaves behind.
ghost use Rattle.std.specs.Prelude.{◌≡◌, ◌≤◌};
ghost use Rattle.base_ids.specs.declared.ids.TableId.{TableId};
ghost use Rattle.replica_store.specs.Cells.{IsOrdered};
ghost use Rattle.replica_core.specs.Cleanups.{cleanup_by, cleanup_of, cells_cleaned_by, cleaned_cells};

use base_ids::{HostId, Session};
use replica_store::Store;
use topo_state::{Move, TopoState, move_of};

/// What became of a cleanup.
#[derive(Clone, Copy, Debug, PartialEq, Eq)]
pub enum Cleanup {
    /// The range of the session's tablet was dropped.
    Cleaned,
    /// In the state the session does not clean this host, and nothing was dropped.
    NotMine,
}

/// What a cleanup for a session is on a host: `Cleaned` on the leaving replica's host while the state has the session
/// in `cleanup`, and on the pending replica's while it has it in `cleanup_target`; else `NotMine`.
pub fn cleanup_of(host: HostId, state: &TopoState, session: Session) -> Cleanup
    ensures { result ≡ cleanup_of state.now host session }
{
    cleanup_by(host, &move_of(state, session))
}

/// Drops what a session's move leaves behind on the host: at `Cleaned` exactly the cells of the moved tablet's range.
/// At `NotMine` the store stays. Takes no memory.
pub fn serve_cleanup<S: Store>(
    store: &mut S,
    host: HostId,
    state: &TopoState,
    session: Session,
) -> Cleanup
    ensures cleanup { result ≡ cleanup_of state.now host session }
    ensures cells { S.cells store.new ≡ cleaned_cells (S.cells store.old) state.now host session }
    ensures ordered { IsOrdered (S.cells store.old) → IsOrdered (S.cells store.new) }
    ensures not_mine { result ≡ Cleanup.NotMine → store.new ≡ store.old }
    ensures room { S.spare store.old ≤ S.spare store.new }
    ensures same_runs { (t : TableId) → S.runs store.new t ≡ S.runs store.old t }
{
    clean(store, host, &move_of(state, session))
}

/// What a move cleans on the host.
fn cleanup_by(host: HostId, found: &Option<Move>) -> Cleanup
    ensures { result ≡ cleanup_by host found.now }
{
    match found {
        Some(found) if found.cleans_host(host) => Cleanup::Cleaned,
        _ => Cleanup::NotMine,
    }
}

/// Drops the range of a move, where it cleans the host.
fn clean<S: Store>(store: &mut S, host: HostId, found: &Option<Move>) -> Cleanup
    ensures cleanup { result ≡ cleanup_by host found.now }
    ensures cells { S.cells store.new ≡ cells_cleaned_by (S.cells store.old) host found.now }
    ensures ordered { IsOrdered (S.cells store.old) → IsOrdered (S.cells store.new) }
    ensures not_mine { result ≡ Cleanup.NotMine → store.new ≡ store.old }
    ensures room { S.spare store.old ≤ S.spare store.new }
    ensures same_runs { (t : TableId) → S.runs store.new t ≡ S.runs store.old t }
{
    match found {
        Some(found) => {
            if found.cleans_host(host) {
                store.drop_range(found.table, found.range);
                Cleanup::Cleaned
            } else {
                Cleanup::NotMine
            }
        }
        None => Cleanup::NotMine,
    }
}
