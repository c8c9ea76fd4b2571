//! Laws of the list that a store is seen as. Each is a call that does nothing and ensures the law.
ghost use Rattle.std.specs.Prelude.{◌≡◌, ◌&&◌, Option, None, if◌then◌else◌};
ghost use Rattle.base_ids.specs.declared.ids.TableId.{TableId};
ghost use Rattle.token_ring.specs.declared.token.Token.{Token};
ghost use Rattle.token_ring.specs.declared.ring.TokenRange.{TokenRange};
ghost use Rattle.replica_store.specs.Cells.{Cells, IsOrdered, cell_at, outside, range_cells, stored_at, is_within, is_above, IsAscending};

/// Outside of a dropped range each token keeps its cell, and inside none has one.
pub fn law_outside()
    ensures { (cells : Cells) (table : TableId) (range : TokenRange) (t : TableId) (k : Token)
        → cell_at (outside cells table range) t k
        ≡ (if is_within table range t k then None else cell_at cells t k) }
{}

/// The cells of a range above `after` are those that are stored for its tokens above `after`, in the order of their
/// tokens.
pub fn law_range()
    ensures cells { (cells : Cells) (table : TableId) (range : TokenRange) (after : Option Token)
        → (k : Token)
        → stored_at (range_cells cells table range after) k
        ≡ (if is_within table range table k && is_above after k then cell_at cells table k else None) }
    ensures order { (cells : Cells) (table : TableId) (range : TokenRange) (after : Option Token)
        → IsOrdered cells → IsAscending (range_cells cells table range after) }
{}

/// Two lists in order that have the same cell for each token of each table are one list.
pub fn law_one_list()
    ensures { (cells others : Cells) → IsOrdered cells → IsOrdered others
        → ((t : TableId) (k : Token) → cell_at cells t k ≡ cell_at others t k) → cells ≡ others }
{}
