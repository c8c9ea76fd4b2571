use barrier_core::{Ask, Fact, What};
use base_ids::{HostId, StateId};
use topo_state::{Command, TopoState};

/// What happens to a coordinator.
#[derive(Debug, Drop)]
pub enum TopoInput {
    /// It looks at the log.
    Look {
        /// How many commands the log has.
        len: u64,
        /// The state after them.
        state: TopoState,
    },
    /// It asks a host.
    Ask {
        /// The host.
        to: HostId,
        /// What it asks.
        what: What,
    },
    /// It hears what a host tells it, and notes it.
    Hear(Fact),
    /// It hears that a host has nothing to clean, and notes nothing.
    HearNotMine,
    /// It proposes a command.
    Propose(Command),
}

/// What a coordinator gives out.
#[derive(Debug, Drop)]
pub enum TopoOut {
    /// Nothing.
    Nothing,
    /// An ask to a host.
    Ask(Ask),
    /// A command for the log, which accepts it only where it still has the state that is named.
    Propose {
        /// The state that the coordinator looked at.
        read: StateId,
        /// The command.
        command: Command,
    },
}
