//! Laws of coordinators along histories. Each is a call that does nothing and ensures the law.
ghost use Rattle.topo_ties.specs.TopoTies.{ProposalsAreJudged, SessionsAreFoundOnce, ToposBegin, ToposHaveInputs, ToposPlay, ToposRestart, ToposStay};

/// After an enabled event of a coordinator it is what the history says of it, and it gives out the event's outputs.
pub fn law_topos_play()
    ensures { ToposPlay }
{}

/// An enabled event of a coordinator gives it an input or is its restart.
pub fn law_topos_have_inputs()
    ensures { ToposHaveInputs }
{}

/// An event of another actor leaves a coordinator as it was.
pub fn law_topos_stay()
    ensures { ToposStay }
{}

/// A restart loses the look and all that was heard.
pub fn law_topos_restart()
    ensures { ToposRestart }
{}

/// Before the first event a coordinator has seen the opening's state and heard nothing.
pub fn law_topos_begin()
    ensures { ToposBegin }
{}

/// The rule that a proposal breaks is the one that the coordinator finds.
pub fn law_proposals_are_judged()
    ensures { ProposalsAreJudged }
{}

/// In each state of a legal log no other tablet moves under a session than the one at which it is found.
pub fn law_sessions_are_found_once()
    ensures { SessionsAreFoundOnce }
{}
