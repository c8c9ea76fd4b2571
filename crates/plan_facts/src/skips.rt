//! Messages that an actor took and made no entry of.
use base_ids::MsgRef;

/// Why an actor made no entry of a message.
#[derive(Debug, Clone, Copy, PartialEq, Eq)]
pub enum SkipCause {
    /// The message is another's to take.
    Wrong,
    /// It asks a host whether something is so that was not so on the host then.
    NotTrue,
    /// The actor had made entries of it before, as many as the plan allows.
    Repeat,
    /// The actor's work ended before it made an entry of it.
    Stopped,
}

/// A message that an actor took and made no entry of.
#[derive(Debug, Clone, Copy, PartialEq, Eq)]
pub struct Skip {
    /// The message.
    pub at: MsgRef,
    /// How many entries the actor had then.
    pub after: u64,
    /// Why.
    pub cause: SkipCause,
}
