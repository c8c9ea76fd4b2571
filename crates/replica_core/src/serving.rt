//! Serving writes and reads.
ghost use Rattle.std.specs.Prelude.{◌≡◌, ◌≤◌, IsTrue, if◌then◌else◌};
ghost use Rattle.base_ids.specs.declared.ids.TableId.{TableId};
ghost use Rattle.cell_merge.specs.Cell.{greater_cell};
ghost use Rattle.token_ring.specs.declared.token.Token.{Token};
ghost use Rattle.replica_store.specs.Cells.{IsOrdered, cell_at, only_at};
ghost use Rattle.replica_core.specs.Serving.{is_stale, said_by_fence, write_answer, read_answer, written_cells};

use base_ids::Version;
use quorum_ops::{Answer, ReadAsk, Said, WriteAsk};
use replica_store::{Store, Stored, put_one};

/// What is said to a request of a version, where one that is not refused is told `said`.
fn said_to(version: Version, fence: Version, said: Said) -> Said
    ensures { result ≡ said_by_fence version fence said }
{
    if version.0 < fence.0 {
        Said::Stale { fence }
    } else {
        said
    }
}

/// What a replica with this fence answers to a write: `Stale` exactly where the version of the write is below the
/// fence.
pub fn write_answer(fence: Version, ask: &WriteAsk) -> Answer
    ensures { result ≡ write_answer fence ask.now }
{
    Answer {
        lane: ask.lane,
        op: ask.op,
        from: ask.to,
        said: said_to(ask.version, fence, Said::Written),
    }
}

/// Stores the cell of a write and says so. Where the version of the write is below the fence, it says `Stale`, and
/// the store stays. Takes no memory.
pub fn serve_write<S: Store>(store: &mut S, fence: Version, ask: &WriteAsk) -> Answer
    requires { 1 ≤ S.spare store.old }
    ensures answer { result ≡ write_answer fence ask.now }
    ensures cells { IsOrdered (S.cells store.old)
        → S.cells store.new ≡ written_cells fence (S.cells store.old) ask.now }
    ensures ordered { IsOrdered (S.cells store.old) → IsOrdered (S.cells store.new) }
    ensures stale { IsTrue (is_stale ask.now.version fence) → store.new ≡ store.old }
    ensures map { (t : TableId) (k : Token) → cell_at (S.cells store.new) t k
        ≡ (if is_stale ask.now.version fence then cell_at (S.cells store.old) t k
        else greater_cell (cell_at (S.cells store.old) t k) (only_at ask.now.table ask.now.token ask.now.cell t k)) }
    ensures same_runs { (t : TableId) → S.runs store.new t ≡ S.runs store.old t }
{
    if ask.version.0 >= fence.0 {
        let stored = Stored {
            token: ask.token,
            cell: ask.cell,
        };
        put_one(store, ask.table, &stored);
    }
    write_answer(fence, ask)
}

/// Tells the cell that is stored. Where the version of the read is below the fence, it says `Stale`.
pub fn serve_read<S: Store>(store: &S, fence: Version, ask: &ReadAsk) -> Answer
    ensures { result ≡ read_answer fence (S.cells store.now) ask.now }
{
    let found = Said::Found(store.get(ask.table, ask.token).copied());
    Answer {
        lane: ask.lane,
        op: ask.op,
        from: ask.to,
        said: said_to(ask.version, fence, found),
    }
}
