// What a refusal comes to.
ghost use Rattle.std.specs.Prelude.{◌≡◌};
ghost use Rattle.quorum_ops.specs.Pending.{refusal_taking};

use crate::data::Reply;
use crate::taking::Taking;
use base_ids::Version;
use quorum_tally::{Tally, Verdict};

/// What a refusal with this fence comes to, once it is marked.
pub fn refusal_taking(tally: &Tally, fence: Version) -> Taking
    ensures { result ≡ refusal_taking tally.now fence }
{
    match tally.verdict() {
        Verdict::Hopeless { refused } => Taking::Decided(Reply::Stale { refused, fence }),
        Verdict::Enough | Verdict::Open => Taking::Waiting,
    }
}
