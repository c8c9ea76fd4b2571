//! The transition of a session in a state.
ghost use Rattle.std.specs.Prelude.{◌≡◌, option_map};
ghost use Rattle.topo_state.specs.Sessions.{place_of_session};
ghost use Rattle.migrate_core.specs.Transitions.{transition_of, place_seen, target, cleaned_at, streamed_at};

use base_ids::{HostId, Session, TableId};
use stage_graph::Stage;
use tablet_map::Transition;
use topo_state::{Table, TopoState};

/// The transition of a session. `None` exactly where no tablet moves under it.
pub fn transition_of(state: &TopoState, session: Session) -> Option<Transition>
    ensures { result ≡ transition_of state.now session }
{
    let (id, tablet) = place_of_session(state.tables(), session)?;
    let table = state.table(id)?;
    let tablet = table.map.tablets().get(tablet)?;
    tablet.transition
}

/// The first tablet of the first table that moves under the session.
fn place_of_session(tables: &[Table], session: Session) -> Option<(TableId, usize)>
    ensures { option_map place_seen result ≡ place_of_session tables.now session }
{
    for table in tables {
        if let Some(tablet) = table.map.find(session) {
            return Some((table.id, tablet.0 as usize));
        }
    }
    None
}

/// Where a transition goes from its stage. Where there are two ways, `back` chooses.
pub(crate) fn target(stage: Stage, back: bool) -> Option<Stage>
    ensures { result ≡ target stage back }
{
    match (stage, back) {
        (Stage::AllowWriteBothReadOld | Stage::WriteBothReadOld | Stage::Streaming, true)
        | (Stage::FallbackCleanup, _) => Some(Stage::CleanupTarget),
        (Stage::AllowWriteBothReadOld, false) => Some(Stage::WriteBothReadOld),
        (Stage::WriteBothReadOld, false) => Some(Stage::Streaming),
        (Stage::Streaming, false) => Some(Stage::WriteBothReadNew),
        (Stage::WriteBothReadNew, true) => Some(Stage::FallbackCleanup),
        (Stage::WriteBothReadNew, false) => Some(Stage::UseNew),
        (Stage::UseNew, _) => Some(Stage::Cleanup),
        (Stage::Cleanup, _) => Some(Stage::EndMigration),
        (Stage::CleanupTarget, _) => Some(Stage::RevertMigration),
        (Stage::EndMigration | Stage::RevertMigration, _) => None,
    }
}

/// The host that the transition's stage cleans: on the way forward the leaving replica's, on the way back the pending
/// one's.
pub fn cleaned_host(transition: Transition) -> Option<HostId>
    ensures { result ≡ cleaned_at transition.stage transition }
{
    match transition.stage {
        Stage::Cleanup => Some(transition.leaving.host),
        Stage::CleanupTarget => Some(transition.pending.host),
        _ => None,
    }
}

/// The host that the transition's stage streams to.
pub fn streamed_host(transition: Transition) -> Option<HostId>
    ensures { result ≡ streamed_at transition.stage transition }
{
    match transition.stage {
        Stage::Streaming => Some(transition.pending.host),
        _ => None,
    }
}
