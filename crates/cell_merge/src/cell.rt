ghost use Rattle.std.specs.Prelude.{◌≡◌};
ghost use Rattle.std.specs.Option.{option_copied};
ghost use Rattle.std.specs.Cmp.{IsTotalOrder};
ghost use Rattle.std.specs.FinMap.{IsAntisymmetric};
ghost use Rattle.cell_merge.specs.Cell.{cell_order, greater_cell, IsNotBelow};
ghost use Rattle.cell_merge.specs.Laws.{IsAssociative, IsCommutative, IsIdempotent, IsIdentity, IsChoice, IsLeastUpperBound, IsTotal};

use crate::bytes::Bytes64;
use std::cmp::Ordering;

/// What a replica stores at a key, and what a write writes.
#[derive(Clone, Copy, Debug, PartialEq, Eq)]
pub struct Cell {
    /// When the cell was written, as its client says: any number.
    pub timestamp: i64,
    /// What it says of its key.
    pub body: Body,
}

/// What a cell says of its key.
#[derive(Clone, Copy, Debug, PartialEq, Eq)]
pub enum Body {
    /// The key has this value.
    Live(Bytes64),
    /// The key was deleted, at this time in seconds.
    Dead(u32),
}

impl Cell {
    /// ScyllaDB's order of cells, but for expiry: by timestamp first; then deletions above values; values by their
    /// bytes, deletions by their time.
    pub fn compare(a: &Cell, b: &Cell) -> Ordering
        ensures { result ≡ cell_order a.now b.now }
    {
        let by_body = match (&a.body, &b.body) {
            (Body::Live(x), Body::Live(y)) => x.as_slice().cmp(y.as_slice()),
            (Body::Live(_), Body::Dead(_)) => Ordering::Less,
            (Body::Dead(_), Body::Live(_)) => Ordering::Greater,
            (Body::Dead(s), Body::Dead(t)) => s.cmp(t),
        };
        a.timestamp.cmp(&b.timestamp).then(by_body)
    }
}

/// The greater one of two cells. Where neither is greater it is `a`; a missing cell is least.
pub fn merge<'a>(a: Option<&'a Cell>, b: Option<&'a Cell>) -> Option<&'a Cell>
    ensures { option_copied result ≡ greater_cell (option_copied a.entry) (option_copied b.entry) }
{
    match (a, b) {
        (Some(x), Some(y)) => {
            if Cell::compare(x, y) == Ordering::Less {
                Some(y)
            } else {
                Some(x)
            }
        }
        (None, y) => y,
        (x, None) => x,
    }
}

/// The laws of the order and of the greater cell. It does nothing: its clauses are what it is for.
pub fn order_laws()
    ensures order { IsTotalOrder cell_order }
    ensures tells_apart { IsAntisymmetric cell_order }
    ensures not_below { IsTotal IsNotBelow }

    ensures associative { IsAssociative greater_cell }
    ensures commutative { IsCommutative greater_cell }
    ensures idempotent { IsIdempotent greater_cell }
    ensures identity { IsIdentity greater_cell None }
    ensures choice { IsChoice greater_cell }
    ensures bound { IsLeastUpperBound IsNotBelow greater_cell }
{}
