//! How a coordinator's move stands.
use base_ids::Session;
use topo_state::Rule;

/// How a move ended.
#[derive(Debug, Clone, Copy, PartialEq, Eq)]
pub enum Ending {
    /// What it was to bring about is so.
    Moved,
    /// It went back, and all is as before.
    Reverted,
    /// Its first or its last command was judged illegal, by this rule.
    Refused(Rule),
}

/// How a move stands after the proposals that were made for it.
#[derive(Debug, Clone, Copy, PartialEq, Eq)]
pub enum Standing {
    /// Its first command is not accepted yet.
    Before,
    /// It goes on under the number that its start or its resize has in the log.
    Going(Session),
    /// Nothing more is to be proposed for it.
    Over(Ending),
}
