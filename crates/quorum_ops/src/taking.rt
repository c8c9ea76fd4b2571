// What an answer comes to.
use crate::data::Reply;

/// What taking an answer comes to.
#[derive(Clone, Copy, Debug, PartialEq, Eq)]
pub enum Taking {
    /// The request is decided, with this reply.
    Decided(Reply),
    /// Nothing is decided yet.
    Waiting,
}
