//! Chunks of a range, and what asks for them.
use base_ids::{HostId, Session, TableId};
use replica_store::StoredList;
use token_ring::{Token, TokenRange};

/// Asks a host for the next cells of a range.
#[derive(Clone, Copy, Debug, PartialEq, Eq)]
pub struct ChunkAsk {
    /// The session of the move.
    pub session: Session,
    /// The table of the range.
    pub table: TableId,
    /// The range of the tablet that moves.
    pub range: TokenRange,
    /// The token above which cells are asked for; none at first.
    pub after: Option<Token>,
    /// The host that asks.
    pub by: HostId,
    /// The host that is asked.
    pub to: HostId,
}

/// At most 64 cells of a range, in the order of their tokens. It names no table: the cells go to the table of the pull
/// that takes them.
#[derive(Debug, Drop)]
pub struct ChunkMsg {
    /// The session of the move.
    pub session: Session,
    /// The token above which the cells were asked for.
    pub after: Option<Token>,
    /// The cells.
    pub cells: StoredList,
    /// Whether the range has further cells after these.
    pub more: bool,
    /// The host that asked.
    pub to: HostId,
}
