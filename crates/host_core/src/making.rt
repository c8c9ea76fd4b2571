//! What is made of an input before it is settled. Nothing of the host changes.
ghost use Rattle.std.specs.Prelude.{◌≡◌, ◌+◌, ◌-◌, ◌^◌, ◌<◌, IfOk};
ghost use Rattle.std.specs.Option.{option_or};
ghost use Rattle.host_core.specs.Host.{told_fact, chunk_out, clean_out, begun_pull, pull_out};
ghost use Rattle.stream_core.specs.Pulls.{served_chunk, next_ask};
ghost use Rattle.host_core.specs.Pulls.{pull_in, pull_of_move, pull_of_state};
ghost use Rattle.topo_state.specs.After.{after};
ghost use Rattle.topo_state.specs.Rules.{rule, IsFit};

use crate::data::HostOut;
use crate::pulls::PullTable;
use barrier_core::{Ask, Fact, What};
use base_ids::{HostId, NoMemory, Session};
use replica_core::{Cleanup, cleanup_of};
use replica_store::Store;
use shared_value::Shared;
use std::alloc::Global;
use stream_core::{ChunkAsk, ChunkMsg, Pull, Took, serve_chunk};
use topo_state::{Command, Move, TopoState, move_of};

/// The state after the next command.
pub fn next_state(
    alloc: Global,
    state: &TopoState,
    applied: u64,
    command: &Command,
) -> Result<TopoState, NoMemory>
    requires fit { IsFit command.now }
    requires judged { rule state.now command.now ≡ None }
    requires version { state.now.version.0 < 2 ^ 64 - 1 }
    requires count { applied < 2 ^ 64 - 1 }
    ensures { IfOk result (λ next. next ≡ after state.now command.now (applied + 1)) }
{
    let mut next = state.clone_in(alloc)?;
    next.apply(alloc, command, applied + 1)?;
    Ok(next)
}

/// The pull that a move is for a host.
fn pull_for(host: HostId, session: Session, found: &Option<Move>) -> Option<Pull>
    ensures { result ≡ pull_of_move host session found.now }
{
    match found {
        None => None,
        Some(found) => {
            if found.streams_to(host) {
                let from = found.transition.leaving.host;
                Some(Pull::new(session, found.table, found.range, host, from))
            } else {
                None
            }
        }
    }
}

/// The pull that the state has for the session on a host.
pub fn first_pull(state: &TopoState, host: HostId, session: Session) -> Option<Pull>
    ensures { result ≡ pull_of_state state.now host session }
{
    pull_for(host, session, &move_of(state, session))
}

/// The pull that begins: the first one of a session that has none yet.
pub fn begun_pull(
    state: &TopoState,
    host: HostId,
    pulls: &PullTable,
    session: Session,
) -> Option<Pull>
    ensures { result ≡ begun_pull state.now host pulls.now.list session }
{
    match pulls.get(session) {
        Some(_) => None,
        None => first_pull(state, host, session),
    }
}

/// What comes of a pull event.
pub fn pull_out(state: &TopoState, host: HostId, pulls: &PullTable, session: Session) -> HostOut
    ensures { result ≡ pull_out (option_or (pull_in pulls.now.list session) (pull_of_state state.now host session)) }
{
    match pulls.get(session) {
        Some(pull) => HostOut::Ask(pull.ask()),
        None => match first_pull(state, host, session) {
            Some(pull) => HostOut::Ask(pull.ask()),
            None => HostOut::Nothing,
        },
    }
}

/// The chunk that is asked for, shared.
pub fn chunk_for<S: Store>(
    alloc: Global,
    store: &S,
    ask: &ChunkAsk,
) -> Result<Shared<ChunkMsg>, NoMemory>
    ensures { IfOk result (λ chunk. chunk ≡ served_chunk (S.cells store.now) ask.now) }
{
    let chunk = serve_chunk(alloc, store, ask)?;
    let shared = Shared::new(alloc, chunk)?;
    Ok(shared)
}

/// What comes of a chunk.
pub fn chunk_out(pulls: &PullTable, chunk: &ChunkMsg) -> HostOut
    ensures { result ≡ chunk_out chunk.now (pull_in pulls.now.list chunk.now.session) }
{
    match pulls.get(chunk.session) {
        None => HostOut::Nothing,
        Some(pull) => match pull.judge(chunk) {
            Took::More => HostOut::Pulling(chunk.session),
            Took::Done => HostOut::Pulled(chunk.session),
            Took::Foreign => HostOut::Nothing,
        },
    }
}

/// The fact that was asked for.
pub fn fact_for(ask: &Ask) -> Fact
    ensures { result ≡ told_fact ask.now }
{
    Fact {
        from: ask.to,
        to: ask.by,
        what: ask.what,
    }
}

/// What comes of a cleanup.
pub fn clean_out(state: &TopoState, host: HostId, ask: &Ask) -> HostOut
    ensures { result ≡ clean_out state.now host ask.now ask.now.what }
{
    match ask.what {
        What::Clean(session) => match cleanup_of(host, state, session) {
            Cleanup::Cleaned => HostOut::Fact(fact_for(ask)),
            Cleanup::NotMine => HostOut::NotMine {
                to: ask.by,
                session,
            },
        },
        _ => HostOut::Nothing,
    }
}
