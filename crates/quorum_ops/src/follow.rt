// What comes after a read's reply.
ghost use Rattle.std.specs.Prelude.{◌≡◌};
ghost use Rattle.quorum_ops.specs.Follows.{follow_up};

use crate::data::Reply;
use cell_merge::Cell;

/// What a client that repairs its reads does after a reply.
#[derive(Clone, Copy, Debug, PartialEq, Eq)]
pub enum Follow {
    /// It writes this cell back.
    WriteBack(Cell),
    /// The read is answered: nothing is to be written back.
    Answered,
    /// The reply is no answer of a read.
    Ended,
}

/// What a client that repairs its reads does after this reply: a cell that was read is written back, a read of none is
/// answered, and every other reply ends the read. It takes no memory.
pub fn follow_up(reply: &Reply) -> Follow
    ensures { result ≡ follow_up reply.now }
{
    match reply {
        Reply::Read(Some(cell)) => Follow::WriteBack(*cell),
        Reply::Read(None) => Follow::Answered,
        Reply::Ok
        | Reply::Stale { .. }
        | Reply::Timeout { .. }
        | Reply::NoTable
        | Reply::NotMember => Follow::Ended,
    }
}
