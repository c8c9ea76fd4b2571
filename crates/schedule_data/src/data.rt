//! Schedules, their lines, and what a line says.
use barrier_core::What;
use base_ids::{Actor, HostId, Items, LaneId, MsgRef, OpId, Session, TableId, Version};
use cluster_history::{Opening, Operation};
use token_ring::Token;
use topo_state::Command;

/// What is to be played: how the cluster stands at first, and what happens line by line.
#[derive(Debug, Drop)]
pub struct Schedule {
    /// How the cluster stands at first.
    pub opening: Opening,
    /// What happens then, in order.
    pub lines: SchedLineList,
}

/// The lines of a schedule, in order.
pub type SchedLineList = Items<SchedLine>;

/// One line of a schedule.
#[derive(Debug, Drop)]
pub struct SchedLine {
    /// The number of the line in its text, from 1.
    pub line: u64,
    /// What it says.
    pub act: LineAct,
}

/// What a line says.
#[derive(Debug, Drop)]
pub enum LineAct {
    /// One event.
    Event(LineEvent),
    /// The events that a shorthand stands for.
    Short(Shorthand),
}

/// How a line names a message.
#[derive(Clone, Copy, Debug, PartialEq, Eq)]
pub enum LineRef {
    /// By an earlier line with an event: an output of that event.
    Line {
        /// The number of that line.
        line: u64,
        /// The number of the output, from 0.
        out: u32,
    },
    /// By its number in the journal.
    Journal(MsgRef),
}

/// An event as a line says it. A message may be named by a line, and the version of a begin may be left out.
#[derive(Debug, Drop)]
pub enum LineEvent {
    /// A lane begins its next request, and asks each target or replies at once.
    Begin {
        /// The lane.
        lane: LaneId,
        /// What the client asks.
        operation: Operation,
        /// The version of the topology that the request uses; `None` is the version of the lane's host.
        version: Option<Version>,
    },
    /// A lane takes an answer.
    Take {
        /// The lane.
        lane: LaneId,
        /// The message that it takes.
        at: LineRef,
    },
    /// A lane gives up a live request.
    Timeout {
        /// The lane.
        lane: LaneId,
        /// The number of the request in its lane.
        op: OpId,
    },
    /// A host applies the next command of the log.
    Apply {
        /// The host.
        host: HostId,
    },
    /// A host promises that its lanes begin nothing below a version.
    Quiet {
        /// The host.
        host: HostId,
        /// The version.
        version: Version,
    },
    /// A host serves an ask: it stores a cell, tells one, or sends the next cells of a range.
    Serve {
        /// The host.
        host: HostId,
        /// The message that it serves.
        at: LineRef,
    },
    /// A host tells a coordinator that what it asked for holds. A cleanup is asked for otherwise.
    Answer {
        /// The host.
        host: HostId,
        /// The message that it answers.
        at: LineRef,
    },
    /// A host drops what a move leaves behind there, where the move's session says so.
    Clean {
        /// The host.
        host: HostId,
        /// The message that asks for it.
        at: LineRef,
    },
    /// A host begins to pull what a session streams to it, or asks for the next chunk.
    Pull {
        /// The host.
        host: HostId,
        /// The session.
        session: Session,
    },
    /// A host takes a chunk.
    TakeChunk {
        /// The host.
        host: HostId,
        /// The message that it takes.
        at: LineRef,
    },
    /// A coordinator looks at the log.
    Look {
        /// The host of the coordinator.
        topo: HostId,
    },
    /// A coordinator asks a host.
    Ask {
        /// The host of the coordinator.
        topo: HostId,
        /// The host that is asked.
        host: HostId,
        /// What is asked.
        what: What,
    },
    /// A coordinator hears what a host tells it.
    Hear {
        /// The host of the coordinator.
        topo: HostId,
        /// The message that it hears.
        at: LineRef,
    },
    /// A coordinator proposes a command to the log.
    Propose {
        /// The host of the coordinator.
        topo: HostId,
        /// The command.
        command: Command,
    },
    /// An actor loses what it does not keep.
    Restart {
        /// The actor.
        actor: Actor,
    },
}

/// Stands for several events, each of which depends on the journal before it. A coordinator is named by its host.
#[derive(Debug, Drop)]
pub enum Shorthand {
    /// Each host applies the whole log.
    Sync,
    /// A lane begins a request at the version of its host, and the targets answer in order until it is decided.
    Do {
        /// The lane.
        lane: LaneId,
        /// What the client asks.
        operation: Operation,
    },
    /// A lane reads at a majority, and where the read finds a cell it writes that cell back at a majority: both with all
    /// that follows, as a request by itself.
    Mono {
        /// The lane.
        lane: LaneId,
        /// The table that is read.
        table: TableId,
        /// The token that is read.
        token: Token,
    },
    /// A coordinator hears from each host that its lanes have left the versions before the log's last one.
    Drain(HostId),
    /// A coordinator fences those versions off, and hears from each host that it refuses them.
    Fence(HostId),
    /// Drains, proposes a command, and lets each host apply the log.
    Step {
        /// The host of the coordinator.
        topo: HostId,
        /// The command.
        command: Command,
    },
    /// Fences, proposes a command, and lets each host apply the log.
    Force {
        /// The host of the coordinator.
        topo: HostId,
        /// The command.
        command: Command,
    },
    /// The pending host of a session pulls all that is streamed to it, and the coordinator hears of it.
    Stream {
        /// The host of the coordinator.
        topo: HostId,
        /// The session.
        session: Session,
    },
    /// The host that a session's stage cleans is cleaned, and the coordinator hears of it.
    Tidy {
        /// The host of the coordinator.
        topo: HostId,
        /// The session.
        session: Session,
    },
    /// Each host of a table that is to be split gets ready for it, and the coordinator hears of it.
    Ready {
        /// The host of the coordinator.
        topo: HostId,
        /// The number of the decision to split.
        session: Session,
    },
}
