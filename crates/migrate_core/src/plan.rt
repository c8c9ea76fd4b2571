//! The next act of a move.
ghost use Rattle.std.specs.Prelude.{◌≡◌};
ghost use Rattle.migrate_core.specs.Transitions.{target};
ghost use Rattle.migrate_core.specs.Plan.{unless_told, awaited_pull, awaited_cleanup, awaited_barrier, plan_next};

use crate::next::Next;
use crate::session::{cleaned_host, streamed_host, target, transition_of};
use barrier_core::{Evidence, Mode};
use base_ids::{HostId, Session};
use tablet_map::Transition;
use topo_state::{Command, TopoState};

/// What is to be done next for the move of a session. A host that is named is the one whose fact is waited for; where
/// several are, it is the least. Where the table of stages has two ways on, `back` chooses. `Nothing` exactly where no
/// tablet moves under the session.
pub fn plan_next(state: &TopoState, evidence: &Evidence, session: Session, back: bool) -> Next
    ensures { result ≡ plan_next state.now evidence.now.facts session back }
{
    let Some(transition) = transition_of(state, session) else {
        return Next::Nothing;
    };
    if let Some(host) = awaited_pull(evidence, session, back, transition) {
        return Next::Stream(host);
    }
    if let Some(host) = awaited_cleanup(evidence, session, transition) {
        return Next::Clean(host);
    }
    if let Some(host) = awaited_barrier(evidence, state) {
        return Next::Barrier(host);
    }
    Next::Propose(Command::Advance {
        session,
        to: target(transition.stage, back),
    })
}

/// Where the evidence for the state's version is not complete: the least host that has not told that it drained it.
pub fn awaited_barrier(evidence: &Evidence, state: &TopoState) -> Option<HostId>
    ensures { result ≡ awaited_barrier evidence.now.facts state.now }
{
    let (version, members, before) = (state.version(), state.members(), state.before());
    match evidence.complete(version, members, before) {
        Some(_) => None,
        None => evidence.first_without(Mode::Drained, version, members, before),
    }
}

/// The host that has still to pull.
fn awaited_pull(
    evidence: &Evidence,
    session: Session,
    back: bool,
    transition: Transition,
) -> Option<HostId>
    ensures { result ≡ awaited_pull evidence.now.facts session back transition }
{
    unless_told(
        back || evidence.has_done(session),
        streamed_host(transition),
    )
}

/// The host that has still to be cleaned.
fn awaited_cleanup(evidence: &Evidence, session: Session, transition: Transition) -> Option<HostId>
    ensures { result ≡ awaited_cleanup evidence.now.facts session transition }
{
    unless_told(evidence.has_cleaned(session), cleaned_host(transition))
}

/// The host, unless it has told what was asked of it.
fn unless_told(told: bool, host: Option<HostId>) -> Option<HostId>
    ensures { result ≡ unless_told told host }
{
    if told { None } else { host }
}
