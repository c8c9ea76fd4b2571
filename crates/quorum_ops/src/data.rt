// What a lane asks of replicas, what they answer, and what the client is told.
use base_ids::{Items, LaneId, OpId, Replica, TableId, Version};
use cell_merge::Cell;
use token_ring::Token;

/// Asks one replica to store a cell.
#[derive(Clone, Copy, Debug, PartialEq, Eq)]
pub struct WriteAsk {
    /// The lane that asks.
    pub lane: LaneId,
    /// The number of the request in its lane.
    pub op: OpId,
    /// The version of the topology that the request uses.
    pub version: Version,
    /// The table that is written.
    pub table: TableId,
    /// The token that is written.
    pub token: Token,
    /// The cell to store.
    pub cell: Cell,
    /// The replica that is asked.
    pub to: Replica,
}

/// Asks one replica for the cell that it holds.
#[derive(Clone, Copy, Debug, PartialEq, Eq)]
pub struct ReadAsk {
    /// The lane that asks.
    pub lane: LaneId,
    /// The number of the request in its lane.
    pub op: OpId,
    /// The version of the topology that the request uses.
    pub version: Version,
    /// The table that is read.
    pub table: TableId,
    /// The token that is read.
    pub token: Token,
    /// The replica that is asked.
    pub to: Replica,
}

/// The asks of a write, one for each target.
pub type WriteAskList = Items<WriteAsk>;
/// The asks of a read, one for each target.
pub type ReadAskList = Items<ReadAsk>;

/// What a replica answers.
#[derive(Clone, Copy, Debug, PartialEq, Eq)]
pub enum Said {
    /// The cell was stored.
    Written,
    /// The cell that the replica holds, or none.
    Found(Option<Cell>),
    /// The request's version is below the replica's fence: ScyllaDB's stale topology exception.
    Stale {
        /// The fence of the replica.
        fence: Version,
    },
}

/// The answer of one replica to one request.
#[derive(Clone, Copy, Debug, PartialEq, Eq)]
pub struct Answer {
    /// The lane of the request.
    pub lane: LaneId,
    /// The number of the request in its lane.
    pub op: OpId,
    /// The replica that answers.
    pub from: Replica,
    /// What it says.
    pub said: Said,
}

/// What a client is told of its request.
#[derive(Clone, Copy, Debug, PartialEq, Eq)]
pub enum Reply {
    /// The write was acknowledged by as many replicas as needed.
    Ok,
    /// The greatest cell that the counted replicas found, or none.
    Read(Option<Cell>),
    /// So many replicas refused that the rest is fewer than needed.
    Stale {
        /// How many refused.
        refused: u8,
        /// The fence of the last refusal.
        fence: Version,
    },
    /// The request was given up.
    Timeout {
        /// How many replicas had answered.
        answered: u8,
        /// How many were needed.
        required: u8,
    },
    /// The table is not in the topology at the request's version.
    NoTable,
    /// The lane's host is no member of the topology at the request's version.
    NotMember,
}
