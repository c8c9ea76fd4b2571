//! How a move stands, and what it is to propose next.
ghost use Rattle.std.specs.Prelude.{◌≡◌, IfOk};
ghost use Rattle.migrate_core.specs.Transitions.{transition_of};
ghost use Rattle.plan_facts.specs.Moves.{advanced_stage, advanced_standing, begun_standing, first_command, stage_in, standing_by, turns_back_at};
ghost use Rattle.engine_topos.specs.Acts.{planned, planned_move};

use barrier_core::Evidence;
use base_ids::{Appended, NoMemory, Session};
use migrate_core::{Next, plan_next, transition_of};
use plan_facts::{Ending, Standing};
use resize_core::plan_resize;
use run_plan::{Act, MoveAsk};
use stage_graph::Stage;
use std::alloc::Global;
use topo_state::{Command, ResizeKind, Rule, TopoState};

/// How a move stands once its first command has this number in the log.
fn begun_standing(act: &Act, index: u64) -> Standing
    ensures { result ≡ begun_standing act.now index }
{
    match act {
        Act::Move { .. } | Act::Split(_) | Act::Merge(_) => Standing::Going(Session(index)),
        Act::Join(_) | Act::Leave(_) | Act::Create { .. } => Standing::Over(Ending::Moved),
    }
}

/// How it stands once a later one is accepted.
fn advanced_standing(session: Session, command: &Command, stage: Option<Stage>) -> Standing
    ensures { result ≡ advanced_standing session command.now stage }
{
    match (command, stage) {
        (Command::Advance { to: Some(_), .. }, _) => Standing::Going(session),
        (Command::Advance { to: None, .. }, Some(Stage::RevertMigration)) => {
            Standing::Over(Ending::Reverted)
        }
        _ => Standing::Over(Ending::Moved),
    }
}

/// How the move stands after a proposal.
pub(crate) fn standing_by(
    ask: &MoveAsk,
    standing: Standing,
    command: &Command,
    stage: Option<Stage>,
    outcome: &Appended<Rule>,
) -> Standing
    ensures { result ≡ standing_by ask.now standing command.now stage outcome.now }
{
    match outcome {
        Appended::Conflict { .. } => standing,
        Appended::Illegal { rule } => Standing::Over(Ending::Refused(*rule)),
        Appended::Accepted { index } => match standing {
            Standing::Before => begun_standing(&ask.act, *index),
            Standing::Going(session) => advanced_standing(session, command, stage),
            Standing::Over(_) => standing,
        },
    }
}

/// The stage of a session in a state. `None` exactly where no tablet moves under it.
pub fn stage_in(state: &TopoState, session: Session) -> Option<Stage>
    ensures { result ≡ stage_in state.now session }
{
    match transition_of(state, session) {
        None => None,
        Some(transition) => Some(transition.stage),
    }
}

/// The stage of the session that the command advances.
pub(crate) fn advanced_stage(state: &TopoState, command: &Command) -> Option<Stage>
    ensures { result ≡ advanced_stage state.now command.now }
{
    match command {
        Command::Advance { session, .. } => stage_in(state, *session),
        _ => None,
    }
}

/// Whether a move that goes back from the first stage does so at the second.
fn turns_back_at(back_from: Option<Stage>, stage: Stage) -> bool
    ensures { result ≡ turns_back_at back_from stage }
{
    match (back_from, stage) {
        (Some(Stage::AllowWriteBothReadOld), Stage::AllowWriteBothReadOld)
        | (Some(Stage::WriteBothReadOld), Stage::WriteBothReadOld)
        | (Some(Stage::Streaming), Stage::Streaming)
        | (Some(Stage::WriteBothReadNew), Stage::WriteBothReadNew) => true,
        _ => false,
    }
}

/// The command that begins an act.
pub fn first_command(alloc: Global, act: &Act) -> Result<Command, NoMemory>
    ensures { IfOk result (λ command. command ≡ first_command act.now) }
{
    Ok(match act {
        Act::Move {
            table,
            tablet,
            from,
            to,
        } => Command::Start {
            table: *table,
            tablet: *tablet,
            leaving: *from,
            pending: *to,
        },
        Act::Split(table) => Command::Resize {
            table: *table,
            kind: ResizeKind::Split,
        },
        Act::Merge(table) => Command::Resize {
            table: *table,
            kind: ResizeKind::Merge,
        },
        Act::Join(host) => Command::Join(*host),
        Act::Leave(host) => Command::Leave(*host),
        Act::Create {
            table,
            log2,
            replicas,
        } => Command::CreateTable {
            table: *table,
            log2: *log2,
            replicas: replicas.clone_in(alloc)?,
        },
    })
}

/// What the move of a tablet is to do next.
fn planned_move(ask: &MoveAsk, session: Session, state: &TopoState, evidence: &Evidence) -> Next
    ensures { result ≡ planned_move ask.now.back_from session state.now evidence.now.facts }
{
    let back = match stage_in(state, session) {
        None => false,
        Some(stage) => turns_back_at(ask.back_from, stage),
    };
    plan_next(state, evidence, session, back)
}

/// What a move that goes on under this number is to do next, by the state and the facts. `Nothing` where the state has
/// no such session or decision.
pub fn planned(ask: &MoveAsk, session: Session, state: &TopoState, evidence: &Evidence) -> Next
    ensures { result ≡ planned ask.now session state.now evidence.now.facts }
{
    match &ask.act {
        Act::Move { .. } => planned_move(ask, session, state, evidence),
        Act::Split(table) | Act::Merge(table) => plan_resize(state, evidence, *table, session),
        Act::Join(_) | Act::Leave(_) | Act::Create { .. } => Next::Nothing,
    }
}
