// Identifiers. Hosts and tables are named by numbers, where ScyllaDB uses UUIDs.

/// The number of a host (a node), from 0.
#[derive(Clone, Copy, Debug, PartialEq, Eq, PartialOrd, Ord, Hash)]
pub struct HostId(pub u16);

/// The number of a shard of a host, from 0.
#[derive(Clone, Copy, Debug, PartialEq, Eq, PartialOrd, Ord)]
pub struct ShardId(pub u8);

/// A replica of a tablet: a host and a shard of it.
#[derive(Clone, Copy, Debug, PartialEq, Eq, PartialOrd, Ord)]
pub struct Replica {
    /// The host that holds the replica.
    pub host: HostId,
    /// The shard of that host.
    pub shard: ShardId,
}

/// A lane: one of the request coordinators of a host, numbered from 0 on each host.
#[derive(Clone, Copy, Debug, PartialEq, Eq, PartialOrd, Ord, Hash)]
pub struct LaneId {
    /// The host that the lane runs on.
    pub host: HostId,
    /// Its number on that host.
    pub lane: u8,
}

/// The number of a table.
#[derive(Clone, Copy, Debug, PartialEq, Eq, PartialOrd, Ord, Hash)]
pub struct TableId(pub u32);

/// A version of the topology, from 1. Requests and fences carry one.
#[derive(Clone, Copy, Debug, PartialEq, Eq, PartialOrd, Ord, Hash)]
pub struct Version(pub u64);

/// The version of the topology at first.
pub const FIRST_VERSION: Version = Version(1);

/// The id of a state of group 0: the count of its accepted entries, where ScyllaDB uses time UUIDs.
#[derive(Clone, Copy, Debug, PartialEq, Eq, PartialOrd, Ord, Hash)]
pub struct StateId(pub u64);

/// A session of a tablet transition, or the number of a resize: the log index of its command.
#[derive(Clone, Copy, Debug, PartialEq, Eq, PartialOrd, Ord, Hash)]
pub struct Session(pub u64);

/// The number of a request of a lane, from 1 in the order of their begins.
#[derive(Clone, Copy, Debug, PartialEq, Eq, PartialOrd, Ord, Hash)]
pub struct OpId(pub u64);

/// Names a message: the entry of the journal that sent it, from 1, and the output of it, from 0.
#[derive(Clone, Copy, Debug, PartialEq, Eq, PartialOrd, Ord, Hash)]
pub struct MsgRef {
    /// The number of the entry in the journal.
    pub event: u64,
    /// The number of the output of that entry.
    pub out: u32,
}

/// Whose an event is.
#[derive(Clone, Copy, Debug, PartialEq, Eq)]
pub enum Actor {
    /// A host as a replica.
    Host(HostId),
    /// A lane, which coordinates requests.
    Lane(LaneId),
    /// The topology coordinator that runs on a host.
    Topo(HostId),
}
