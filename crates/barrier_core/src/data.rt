//! What topology coordinators ask hosts, and what hosts tell them.
use base_ids::{HostId, Session, Version};

/// What a coordinator asks of a host, and what the host then tells it.
#[derive(Clone, Copy, Debug, PartialEq, Eq, Hash)]
pub enum What {
    /// The host's lanes have no live request below this version and begin none.
    Drain(Version),
    /// The host refuses requests below this version.
    Fence(Version),
    /// The host has pulled all that the move of this session hands it.
    Done(Session),
    /// The host has dropped what the move of this session leaves behind there.
    Clean(Session),
    /// The host has grouped its store for the split of this number.
    Ready(Session),
}

/// A question of a coordinator to a host.
#[derive(Clone, Copy, Debug, PartialEq, Eq)]
pub struct Ask {
    /// The host of the coordinator.
    pub by: HostId,
    /// The host that is asked.
    pub to: HostId,
    /// What is asked.
    pub what: What,
}

/// What a host tells a coordinator.
#[derive(Clone, Copy, Debug, PartialEq, Eq)]
pub struct Fact {
    /// The host of which it is true.
    pub from: HostId,
    /// The host of the coordinator.
    pub to: HostId,
    /// What is true.
    pub what: What,
}

/// What one host has told. A fact's coordinator is left out: it is the one that notes it.
#[derive(Clone, Copy, Debug, PartialEq, Eq, Hash)]
pub struct Told {
    /// The host of which it is true.
    pub from: HostId,
    /// What is true.
    pub what: What,
}

/// How a version became old on all hosts.
#[derive(Clone, Copy, Debug, PartialEq, Eq)]
pub enum Mode {
    /// Each host has told that its lanes have no request below the version.
    Drained,
    /// Each host has told that it refuses requests below the version.
    Fenced,
}
