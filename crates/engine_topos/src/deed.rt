//! What a coordinator does in a turn, and why it does nothing.
use crate::notes::Asked;
use base_ids::{Appended, EventRule};
use plan_facts::Ending;
use stage_graph::Stage;
use topo_state::Rule;

/// Why the command that is due is not proposed.
#[derive(Debug, Clone, Copy, PartialEq, Eq)]
pub enum Hindrance {
    /// The coordinator has not looked since its last proposal.
    Unseen,
    /// It makes a table of too many tablets, or of none or too many replicas.
    Unfit,
    /// It breaks this rule by what the coordinator has seen and heard.
    Early(EventRule),
    /// It is an advance that breaks this rule in the state that was seen.
    Unsafe(Rule),
}

/// Why no host is asked.
#[derive(Debug, Clone, Copy, PartialEq, Eq)]
pub enum Silence {
    /// There is nothing that a host could be asked.
    Unasked,
    /// The cluster has no such host.
    Absent,
    /// The host was asked this as often as the plan allows.
    Spent,
    /// It was asked this, and the time to answer has not passed.
    Waiting,
}

/// What a coordinator did for its move.
#[derive(Debug, Clone, Copy, PartialEq, Eq)]
pub enum Deed {
    /// It proposed the command that was due, and this became of it.
    Proposed(Appended<Rule>),
    /// A command is due, but not proposed.
    Hindered(Hindrance),
    /// It asked a host, by the entry of this number.
    Inquired(u64, Asked),
    /// It waits for a host that it did not ask.
    Silent(Silence),
    /// The move has nothing more to do: it is over, or the state that was seen has nothing under its number.
    Idle,
}

/// How a move ended.
#[derive(Debug, Clone, Copy, PartialEq, Eq)]
pub enum MoveEnd {
    /// Nothing more is to be proposed for it.
    Ended(Ending),
    /// It was given up, when its tablet was last seen in this stage.
    Unfinished(Option<Stage>),
}
