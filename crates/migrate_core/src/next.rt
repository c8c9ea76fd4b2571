use base_ids::HostId;
use topo_state::Command;

/// What a coordinator does next.
#[derive(Debug, Drop)]
pub enum Next {
    /// Asks this host whether it has drained the version of the state.
    Barrier(HostId),
    /// Asks this host whether it has pulled all of the session.
    Stream(HostId),
    /// Asks this host to clean what the session leaves behind there.
    Clean(HostId),
    /// Asks this host whether it is ready for the split.
    Ready(HostId),
    /// Proposes this command.
    Propose(Command),
    /// Nothing: the state has no such session or decision.
    Nothing,
}
