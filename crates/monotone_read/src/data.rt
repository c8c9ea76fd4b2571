//! Repaired reads, and what is kept of requests to find them.
use base_ids::{Items, LaneId, OpId};
use cell_merge::Cell;
use register_model::Key;

/// A repaired read: its request, what it returned, and the entry at which it is answered.
#[derive(Clone, Copy, Debug, PartialEq, Eq)]
pub struct Repaired {
    /// The lane of the read.
    pub lane: LaneId,
    /// The number of the read.
    pub op: OpId,
    /// What it returned.
    pub cell: Option<Cell>,
    /// The number of the entry at which it is answered: that of its reply, or of the reply to the write.
    pub place: u64,
}

/// A list of repaired reads.
pub type RepairedList = Items<Repaired>;

/// What is kept of a request.
#[derive(Clone, Copy)]
pub(crate) enum Note {
    /// A quorum read of this key, that has not been told a cell.
    Reading(Key),
    /// A quorum read of this key, that was told this cell.
    Found(Key, Cell),
    /// A quorum write of this cell, that the lane's read before it was told before the write began.
    Back(Cell),
}
