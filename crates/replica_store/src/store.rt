//! The trait of all stores.
ghost use Rattle.std.specs.Prelude.{◌≡◌, ◌≢◌, ◌↔◌, ℕ, ◌+◌, ◌^◌, ◌<◌, ◌≤◌, [], length, take, IsTrue, OnOk, OnErr, Option, Some, None, option_map};
ghost use Rattle.std.specs.Option.{option_copied};
ghost use Rattle.base_ids.specs.declared.ids.TableId.{TableId};
ghost use Rattle.cell_merge.specs.Cell.{greater_cell};
ghost use Rattle.token_ring.specs.Ring.{tablet_at};
ghost use Rattle.token_ring.specs.declared.token.Token.{Token};

use base_ids::{Items, NoMemory, TableId};
use cell_merge::Cell;
use token_ring::{Token, TokenRange};

/// A cell with its token. The table is told beside it.
#[derive(Clone, Copy, Debug, PartialEq, Eq)]
pub struct Stored {
    /// The token of its key.
    pub token: Token,
    /// The cell.
    pub cell: Cell,
}

/// A list of cells with their tokens.
pub type StoredList = Items<Stored>;

/// Cells that a store lends, in the order of their tokens.
#[derive(Clone, Copy, Debug)]
pub struct Chunk<'a> {
    /// The cells, each with its token.
    pub cells: &'a [Stored],
    /// Whether cells of the range are left after these.
    pub more: bool,
}

/// A finite map from tables and tokens to cells.
///
/// Callers see three things of a store: `cells`, the map as a list in the order of tables and tokens; `spare`, how many
/// cells can be put without taking memory; and `runs`, where the store tells it, in how many runs a table's cells lie.
pub trait Store {
    ghost use Rattle.replica_store.specs.Cells.{Cells, IsOrdered, IsRegrouped, cell_at, only_at, range_cells, outside};

    ghost cells: { Self → Cells };

    ghost spare: { Self → ℕ };

    ghost runs: { Self → TableId → Option ℕ };

    /// Makes room for `n` more cells. `NoMemory` leaves the map, and the room is not less.
    fn reserve(&mut self, n: usize) -> Result<(), NoMemory>
        ensures map { cells self.new ≡ cells self.old }
        ensures ok { OnOk result (n ≤ spare self.new) }
        ensures room { spare self.old ≤ spare self.new }
        ensures same_runs { (t : TableId) → runs self.new t ≡ runs self.old t };

    /// Stores a cell, where no greater one is stored. Takes no memory.
    fn put(&mut self, table: TableId, token: Token, cell: Cell)
        requires { 1 ≤ spare self.old }
        // each place has the greater one of its old cell and what was put there, and what was put is at its place alone
        ensures map { (t : TableId) (k : Token)
            → cell_at (cells self.new) t k ≡ greater_cell (cell_at (cells self.old) t k)
            (only_at table token cell t k) }
        ensures ordered { IsOrdered (cells self.new) }
        ensures room { spare self.old ≤ spare self.new + 1 }
        ensures same_runs { (t : TableId) → runs self.new t ≡ runs self.old t };

    /// The cell that is stored for a token.
    fn get(&self, table: TableId, token: Token) -> Option<&Cell>
        ensures cell { option_copied result ≡ cell_at (cells self.now) table token }
        ensures ordered { IsOrdered (cells self.now) };

    /// Lends the first cells of a range above `after`, at most `max` of them. Where the range lies in several runs,
    /// they may be fewer than `max` though there are more.
    fn chunk(
        &self,
        table: TableId,
        range: TokenRange,
        after: Option<Token>,
        max: usize,
    ) -> Chunk<'_>
        requires { 1 ≤ max }
        ensures prefix { result.cells.now
            ≡ take (length result.cells.now) (range_cells (cells self.now) table range after) }
        ensures most { length result.cells.now ≤ max }
        ensures some { result.cells.now ≡ [] → range_cells (cells self.now) table range after ≡ [] }
        ensures more { IsTrue result.more
            ↔ (length result.cells.now < length (range_cells (cells self.now) table range after)) }
        // the first `max`, where both ends of the range have one tablet, hence lie in one run
        ensures full { (log2 : ℕ) → runs self.now table ≡ Some (2 ^ log2)
            → tablet_at log2 range.first.value ≡ tablet_at log2 range.last.value
            → result.cells.now ≡ take max (range_cells (cells self.now) table range after) }
        ensures ordered { IsOrdered (cells self.now) };

    /// Takes out a range of a table.
    fn drop_range(&mut self, table: TableId, range: TokenRange)
        ensures map { cells self.new ≡ outside (cells self.old) table range }
        ensures room { spare self.old ≤ spare self.new }
        ensures same_runs { (t : TableId) → runs self.new t ≡ runs self.old t };

    /// Lays the cells of a table into `2^log2` runs, one for each tablet. Of the room afterwards nothing is said.
    /// `NoMemory` leaves the map, and as run count of the table, where it is told, some power of two up to 1024.
    fn regroup(&mut self, table: TableId, log2: u8) -> Result<(), NoMemory>
        requires { log2 ≤ 10 }
        ensures map { cells self.new ≡ cells self.old }
        ensures ok { OnOk result (runs self.new table ≡ option_map (λ _. 2 ^ log2) (runs self.old table)) }
        ensures err { OnErr result (IsRegrouped (runs self.old table) (runs self.new table)) }
        ensures other_runs { (t : TableId) → t ≢ table → runs self.new t ≡ runs self.old t };
}
