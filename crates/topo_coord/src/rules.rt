//! The rules of a proposal.
ghost use Rattle.std.specs.Prelude.{◌≡◌, is_some};
ghost use Rattle.std.specs.List.{list_all};
ghost use Rattle.migrate_core.specs.Transitions.{transition_of, cleaned_host_in, streamed_host};
ghost use Rattle.topo_coord.specs.Rules.{awaits_evidence, awaits_done, awaits_cleaned, awaits_ready, is_split_numbered, is_ready_tablet, proposal_rule};

use barrier_core::Evidence;
use base_ids::{EventRule, Session};
use migrate_core::{cleaned_host, streamed_host, transition_of};
use stage_graph::Stage;
use tablet_map::Tablet;
use topo_state::{Command, Resize, ResizeKind, TopoState};

/// The first rule that proposing the command breaks.
pub(crate) fn propose_rule(
    state: &TopoState,
    evidence: &Evidence,
    command: &Command,
) -> Option<EventRule>
    ensures { result ≡ proposal_rule state.now evidence.now.facts command.now }
{
    if lacks_evidence(state, evidence, command) {
        return Some(EventRule::NoEvidence);
    }
    if lacks_done(state, evidence, command) {
        return Some(EventRule::NoDone);
    }
    if lacks_cleaned(state, evidence, command) {
        return Some(EventRule::NoCleaned);
    }
    if lacks_ready(state, evidence, command) {
        return Some(EventRule::NoReady);
    }
    None
}

/// Whether requests of the version that was seen may still be under way. A fence needs no evidence.
fn lacks_evidence(state: &TopoState, evidence: &Evidence, command: &Command) -> bool
    ensures { result ≡ awaits_evidence state.now evidence.now.facts command.now }
{
    match command {
        Command::SetFence(_) => false,
        _ => evidence
            .complete(state.version(), state.members(), state.before())
            .is_none(),
    }
}

/// Whether streaming would be left for reading the new replicas, and no host has told that it pulled all.
fn lacks_done(state: &TopoState, evidence: &Evidence, command: &Command) -> bool
    ensures { result ≡ awaits_done state.now evidence.now.facts command.now }
{
    match command {
        Command::Advance {
            session,
            to: Some(Stage::WriteBothReadNew),
        } => streams(state, *session) && !evidence.has_done(*session),
        _ => false,
    }
}

/// Whether a stage that cleans would be left, and no host has told that it cleaned.
fn lacks_cleaned(state: &TopoState, evidence: &Evidence, command: &Command) -> bool
    ensures { result ≡ awaits_cleaned state.now evidence.now.facts command.now }
{
    match command {
        Command::Advance { session, .. } => cleans(state, *session)
            && !evidence.has_cleaned(*session),
        _ => false,
    }
}

/// Whether a table would be split, and a host with a replica of it has not told that it is ready.
fn lacks_ready(state: &TopoState, evidence: &Evidence, command: &Command) -> bool
    ensures { result ≡ awaits_ready state.now evidence.now.facts command.now }
{
    match command {
        Command::FinalizeResize { table, seq } => match state.table(*table) {
            None => false,
            Some(table) => {
                splits_by(table.resize, *seq) && !are_ready(evidence, *seq, table.map.tablets())
            }
        },
        _ => false,
    }
}

/// Whether the session is at the stage that streams.
fn streams(state: &TopoState, session: Session) -> bool
    ensures { result ≡ is_some (streamed_host (transition_of state.now session)) }
{
    match transition_of(state, session) {
        None => false,
        Some(transition) => streamed_host(transition).is_some(),
    }
}

/// Whether the session is at a stage that cleans.
fn cleans(state: &TopoState, session: Session) -> bool
    ensures { result ≡ is_some (cleaned_host_in (transition_of state.now session)) }
{
    match transition_of(state, session) {
        None => false,
        Some(transition) => cleaned_host(transition).is_some(),
    }
}

/// Whether it is a decision to split that has this number.
fn splits_by(decision: Option<Resize>, seq: Session) -> bool
    ensures { result ≡ is_split_numbered seq decision }
{
    match decision {
        None => false,
        Some(decision) => decision.seq == seq && matches!(decision.kind, ResizeKind::Split),
    }
}

/// Whether each host with a replica of these tablets has told that it is ready.
fn are_ready(evidence: &Evidence, seq: Session, tablets: &[Tablet]) -> bool
    ensures { result ≡ list_all (is_ready_tablet evidence.now.facts seq) tablets.now }
{
    tablets
        .iter()
        .all(|tablet| is_ready_tablet(evidence, seq, tablet))
}

/// Whether each host with a replica of the tablet has told that it is ready.
fn is_ready_tablet(evidence: &Evidence, seq: Session, tablet: &Tablet) -> bool
    ensures { result ≡ is_ready_tablet evidence.now.facts seq tablet.now }
{
    tablet
        .replicas
        .as_slice()
        .iter()
        .all(|replica| evidence.has_ready(replica.host, seq))
}
