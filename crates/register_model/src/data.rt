// What clients speak of, and what is seen from outside.
use base_ids::{Items, LaneId, OpId, TableId};
use cell_merge::Cell;
use token_ring::Token;

/// A key: a table and a token of it. Each key is a register of its own.
#[derive(Clone, Copy, Debug, PartialEq, Eq, PartialOrd, Ord)]
pub struct Key {
    /// The table.
    pub table: TableId,
    /// The token.
    pub token: Token,
}

/// The name of a client's request.
#[derive(Clone, Copy, Debug, PartialEq, Eq, PartialOrd, Ord)]
pub struct Request {
    /// The lane that the client asked.
    pub lane: LaneId,
    /// The number of the request in its lane.
    pub op: OpId,
}

/// What a client does or is told.
#[derive(Clone, Copy, Debug, PartialEq, Eq)]
pub enum ClientEvent {
    /// A write begins.
    WriteBegun {
        /// The request.
        request: Request,
        /// The key that it writes.
        key: Key,
        /// The cell that it writes.
        cell: Cell,
        /// How strong it is: how many replicas its level asks for. Once it is acknowledged, a read that begins later
        /// and is blind to less than that does not miss it.
        strength: u8,
    },
    /// A write is acknowledged.
    WriteAcked {
        /// The request.
        request: Request,
    },
    /// A read begins.
    ReadBegun {
        /// The request.
        request: Request,
        /// The key that it reads.
        key: Key,
        /// What it is blind to: how many replicas its level does not ask for. It may miss writes up to that strength.
        blind: u8,
    },
    /// A read returns.
    ReadOk {
        /// The request.
        request: Request,
        /// The cell that it returns, or none.
        cell: Option<Cell>,
    },
    /// A request ends with neither.
    Ended {
        /// The request.
        request: Request,
    },
}

/// Client events in order.
pub type ClientEventList = Items<ClientEvent>;
