//! What a host takes, and what comes of it.
use barrier_core::{Ask, Fact};
use base_ids::{HostId, Session, Version};
use quorum_ops::{Answer, ReadAsk, WriteAsk};
use shared_value::Shared;
use stream_core::{ChunkAsk, ChunkMsg};
use topo_state::{Command, TopoState};

/// What a host takes. Each event of a host is exactly one of these.
#[derive(Debug, Drop)]
pub enum HostInput {
    /// Applies the next command of the log.
    Apply(Shared<Command>),
    /// Promises that its lanes begin nothing below the version.
    Quiet(Version),
    /// Stores a cell.
    Write(WriteAsk),
    /// Tells the cell that it holds.
    Read(ReadAsk),
    /// Sends the next cells of a range.
    SendChunk(ChunkAsk),
    /// Stores the next cells of a range that it pulls.
    TakeChunk(Shared<ChunkMsg>),
    /// Tells a coordinator that what it asked for holds. Cleanups are asked for otherwise.
    Answer(Ask),
    /// Drops what a move leaves behind here, where the move's session says so.
    Clean(Ask),
    /// Begins to pull what the session streams to it, or asks for the next chunk.
    Pull(Session),
}

/// What comes of an input.
#[derive(Debug, Drop)]
pub enum HostOut {
    /// Nothing.
    Nothing,
    /// An answer to a lane.
    Answer(Answer),
    /// An ask for the next chunk of a pull.
    Ask(ChunkAsk),
    /// The chunk that was asked for.
    Chunk(Shared<ChunkMsg>),
    /// A fact that was asked for.
    Fact(Fact),
    /// A cleanup was asked for that is not this host's.
    NotMine {
        /// The host of the coordinator that asked.
        to: HostId,
        /// The session of the cleanup.
        session: Session,
    },
    /// A chunk was stored, and the pull of the session is done by it.
    Pulled(Session),
    /// A chunk was stored, and the pull of the session goes on.
    Pulling(Session),
}

/// What is made of an input before it is settled, where that takes memory.
#[derive(Drop)]
pub enum Made {
    /// The state after the command that is applied.
    State(TopoState),
    /// The chunk that was asked for.
    Sent(Shared<ChunkMsg>),
}
