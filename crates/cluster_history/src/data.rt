//! Events, messages, outputs, entries, the opening and the journal.
use barrier_core::{Ask, Fact, What};
use base_ids::{
    Actor, Appended, HostId, HostList, Items, LaneId, MsgRef, OpId, Session, TableId, Version,
};
use cell_merge::Cell;
use quorum_ops::{Answer, ReadAsk, Reply, WriteAsk};
use shared_value::Shared;
use stage_graph::{Kind, Level};
use stream_core::{ChunkAsk, ChunkMsg};
use token_ring::Token;
use topo_state::{Command, Rule, TableList};

/// How the cluster stands before its first event.
#[derive(Debug, Drop)]
pub struct Opening {
    /// The hosts are those numbered from 0 to below this: 1 to 256, and 0 in the opening of no cluster.
    pub hosts: u16,
    /// Each host has the lanes numbered from 0 to below this: 1 to 4.
    pub lanes: u8,
    /// Each host has the shards numbered from 0 to below this: 1 to 16.
    pub shards: u8,
    /// The hosts that are members at first, one or more.
    pub members: HostList,
    /// The tables at first: at most 64, with at most 1024 tablets in all.
    pub tables: TableList,
}

/// What a client asks of a lane.
#[derive(Debug, PartialEq, Eq, Drop)]
pub enum Operation {
    /// To write a cell.
    Write {
        /// The table that is written.
        table: TableId,
        /// The token that is written.
        token: Token,
        /// The cell to write. Its timestamp is the client's.
        cell: Cell,
        /// How many replicas have to answer.
        level: Level,
    },
    /// To read the cell.
    Read {
        /// The table that is read.
        table: TableId,
        /// The token that is read.
        token: Token,
        /// How many replicas have to answer.
        level: Level,
    },
}

/// One atomic step of one actor: of a lane (begin, take, timeout), of a host (apply to take chunk), of a topology
/// coordinator, which is named by its host (look to propose), or a restart of any of them.
#[derive(Debug, Drop)]
pub enum Event {
    /// A lane begins its next request, and asks each target or replies at once.
    Begin {
        /// The lane.
        lane: LaneId,
        /// What the client asks.
        operation: Operation,
        /// The version of the topology that the request uses.
        version: Version,
    },
    /// A lane takes an answer.
    Take {
        /// The lane.
        lane: LaneId,
        /// The message that it takes.
        at: MsgRef,
    },
    /// A lane gives up a live request.
    Timeout {
        /// The lane.
        lane: LaneId,
        /// The number of the request in its lane.
        op: OpId,
    },
    /// A host applies the next command of the log.
    Apply {
        /// The host.
        host: HostId,
    },
    /// A host promises that its lanes begin nothing below a version.
    Quiet {
        /// The host.
        host: HostId,
        /// The version.
        version: Version,
    },
    /// A host serves an ask: it stores a cell, tells one, or sends the next cells of a range.
    Serve {
        /// The host.
        host: HostId,
        /// The message that it serves.
        at: MsgRef,
    },
    /// A host tells a coordinator that what it asked for holds. A cleanup is asked for otherwise.
    Answer {
        /// The host.
        host: HostId,
        /// The message that it answers.
        at: MsgRef,
    },
    /// A host drops what a move leaves behind there, where the move's session says so.
    Clean {
        /// The host.
        host: HostId,
        /// The message that asks for it.
        at: MsgRef,
    },
    /// A host begins to pull what a session streams to it, or asks for the next chunk.
    Pull {
        /// The host.
        host: HostId,
        /// The session.
        session: Session,
    },
    /// A host takes a chunk.
    TakeChunk {
        /// The host.
        host: HostId,
        /// The message that it takes.
        at: MsgRef,
    },
    /// A coordinator looks at the log.
    Look {
        /// The host of the coordinator.
        topo: HostId,
    },
    /// A coordinator asks a host.
    Ask {
        /// The host of the coordinator.
        topo: HostId,
        /// The host that is asked.
        host: HostId,
        /// What is asked.
        what: What,
    },
    /// A coordinator hears what a host tells it.
    Hear {
        /// The host of the coordinator.
        topo: HostId,
        /// The message that it hears.
        at: MsgRef,
    },
    /// A coordinator proposes a command to the log.
    Propose {
        /// The host of the coordinator.
        topo: HostId,
        /// The command.
        command: Command,
    },
    /// An actor forgets what it does not keep. Of a host these are the pulls, of a lane the live requests, of a
    /// coordinator its look and what it heard.
    Restart {
        /// The actor.
        actor: Actor,
    },
}

/// What one actor sends to another.
#[derive(Debug, Drop)]
pub enum Message {
    /// From a lane to the host of a replica: store a cell.
    Write(WriteAsk),
    /// From a lane to the host of a replica: tell the cell.
    Read(ReadAsk),
    /// From a host to a lane: what the replica says.
    Answer(Answer),
    /// From a host to another: send the next cells of a range.
    ChunkAsk(ChunkAsk),
    /// From a host to another: the next cells of a range.
    Chunk(Shared<ChunkMsg>),
    /// From a coordinator to a host: is this so, or clean this.
    Ask(Ask),
    /// From a host to a coordinator: this holds.
    Fact(Fact),
    /// From a host to a coordinator: in its state the session cleans nothing there.
    NotMine {
        /// The host that was asked to clean.
        from: HostId,
        /// The host of the coordinator.
        to: HostId,
        /// The session.
        session: Session,
    },
}

/// What an event gives.
#[derive(Debug, Drop)]
pub enum Output {
    /// A message. Later events may hand it to its addressee once or often, and it may be lost.
    Sent(Message),
    /// What a client is told of its request.
    Reply {
        /// The number of the request in its lane.
        op: OpId,
        /// The version of the request.
        version: Version,
        /// Whether it reads or writes.
        kind: Kind,
        /// What the client is told.
        reply: Reply,
    },
    /// A host has pulled all that a session streams to it.
    Pulled {
        /// The session.
        session: Session,
    },
    /// What became of a proposal.
    Proposed(Appended<Rule>),
}

/// The outputs of an event, numbered from 0.
pub type OutputList = Items<Output>;

/// One event, and what it gave.
#[derive(Debug, Drop)]
pub struct Entry {
    /// The event.
    pub event: Event,
    /// Its outputs, in order.
    pub outputs: OutputList,
}

/// Entries in order, numbered from 1.
pub type EntryList = Items<Entry>;

/// An opening, and what happened since.
#[derive(Debug, Drop)]
pub struct Journal {
    /// How the cluster stood at first.
    pub opening: Opening,
    /// What happened, the oldest first.
    pub entries: EntryList,
}
