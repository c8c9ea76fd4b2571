//! Laws of gathering. Each is a call that does nothing and ensures the law.
ghost use Rattle.gather_core.specs.Laws.{PullsSpread, PullsAdd, PullsKeep};
ghost use Rattle.gather_core.specs.Ends.{PullsEnd};

/// What a host had before the pull from it began, the host that pulled has once the pull is done: whichever chunks
/// come late or again, and whatever the stores take in between.
pub fn law_gather()
    ensures { PullsSpread }
{}

/// Where the stores take nothing but the chunks, hosts that pull from one another come to hold no more in the range
/// than one of them did.
pub fn law_bounded()
    ensures { PullsAdd }
{}

/// Where the stores take nothing but the chunks, a host keeps what it has outside of the range, and one that does not
/// pull keeps all.
pub fn law_kept()
    ensures { PullsKeep }
{}

/// Where no host is to pull from itself, asking, serving and taking in turn comes to an end.
pub fn law_ended()
    ensures { PullsEnd }
{}
