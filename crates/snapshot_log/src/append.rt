//! How the log and the first states of versions grow.
ghost use Rattle.std.specs.Prelude.{◌≡◌, ◌<◌, ◌-◌, ◌^◌, ◌++◌, ◌∷◌, [], IfOk, None, OnErr, OnOk, option_copied, option_to_list, vec_len};
ghost use Rattle.std.specs.Vec.{vec_capacity};
ghost use Rattle.group0_log.specs.Log.{log_after, state_of};
ghost use Rattle.topo_state.specs.Rules.{IsFit, rule};
ghost use Rattle.snapshot_log.specs.First.{next_first, outcome_in, raised, snapshot_in};

use base_ids::{Appended, NoMemory, StateId, Version};
use group0_log::Log;
use meta_snap::Snapshot;
use shared_value::Shared;
use std::alloc::Global;
use topo_state::{Command, Rule, TopoState};

/// The snapshot of a state that others share.
fn snapshot_of(alloc: Global, state: Shared<TopoState>) -> Result<Shared<Snapshot>, NoMemory>
    ensures { IfOk result (λ snapshot. snapshot ≡ state) }
{
    let snapshot = Snapshot::over(alloc, state)?;
    Shared::new(alloc, snapshot)
}

/// The list of the first state alone.
pub(crate) fn first_snapshots(
    alloc: Global,
    state: Shared<TopoState>,
) -> Result<Vec<Shared<Snapshot>>, NoMemory>
    ensures { IfOk result (λ snapshots. snapshots.items ≡ state ∷ []) }
{
    let mut snapshots = Vec::new(alloc);
    snapshots.push(snapshot_of(alloc, state)?)?;
    Ok(snapshots)
}

/// The first state of a version.
pub(crate) fn snapshot_in(
    snapshots: &[Shared<Snapshot>],
    version: Version,
) -> Option<&Shared<Snapshot>>
    ensures { option_copied result ≡ snapshot_in snapshots.now version }
{
    if version.0 == 0 {
        None
    } else {
        snapshots.get((version.0 - 1) as usize)
    }
}

/// The snapshot of the state after a command, where the command raises the version. The state is shared.
fn raised(
    alloc: Global,
    command: &Command,
    next: &Shared<TopoState>,
) -> Result<Option<Shared<Snapshot>>, NoMemory>
    ensures { IfOk result (λ snapshot. snapshot ≡ raised command.now next.now) }
{
    if let Command::SetFence(_) = command {
        return Ok(None);
    }
    let state = next.share()?;
    Ok(Some(snapshot_of(alloc, state)?))
}

/// Adds an item, where there is one, to a list that has room.
fn add_some<T: Drop>(list: &mut Vec<T>, item: Option<T>)
    requires { vec_len list.old < vec_capacity list.old }
    ensures { list.new.items ≡ list.old.items ++ option_to_list item }
{
    match item {
        None => {}
        Some(item) => {
            if list.push(item).is_err() {
                unreachable!()
            }
        }
    }
}

/// The log has a further command, which is judged well: its state is made once, and the snapshot of a new version
/// shares it. `NoMemory` leaves the log and the first states.
fn append_accepted(
    alloc: Global,
    log: &mut Log,
    snapshots: &mut Vec<Shared<Snapshot>>,
    command: Shared<Command>,
) -> Result<(), NoMemory>
    requires fit { IsFit command }
    requires judged { rule (state_of log.old.first log.old.commands) command ≡ None }
    requires version { (state_of log.old.first log.old.commands).version.0 < 2 ^ 64 - 1 }
    ensures log { OnOk result (log.new ≡ record log.old { commands = command ∷ log.old.commands }) }
    ensures snapshots { OnOk result (snapshots.new.items ≡ snapshots.old.items
        ++ option_to_list (raised command (state_of log.old.first (command ∷ log.old.commands)))) }
    ensures log_kept { OnErr result (log.new ≡ log.old) }
    ensures snapshots_kept { OnErr result (snapshots.new.items ≡ snapshots.old.items) }
{
    snapshots.reserve(1)?;
    let next = log.next_state(alloc, command.get())?;
    let snapshot = raised(alloc, command.get(), &next)?;
    log.push(command, next)?;
    add_some(snapshots, snapshot);
    Ok(())
}

/// The log is asked, and the first states grow with it. `NoMemory` leaves both.
#[tactic(auto, using(crate::proofs::FirstLemmas::accepted_judged))]
pub(crate) fn append(
    alloc: Global,
    log: &mut Log,
    snapshots: &mut Vec<Shared<Snapshot>>,
    read: StateId,
    command: Shared<Command>,
) -> Result<Appended<Rule>, NoMemory>
    requires fit { IsFit command }
    requires version { (state_of log.old.first log.old.commands).version.0 < 2 ^ 64 - 1 }
    ensures outcome { IfOk result (λ appended. appended ≡ outcome_in log.old read.0 command) }
    ensures log { IfOk result (λ appended. log.new ≡ log_after log.old command appended) }
    ensures snapshots { IfOk result (λ appended. snapshots.new.items
        ≡ snapshots.old.items ++ option_to_list (next_first log.old command appended)) }
    ensures log_kept { OnErr result (log.new ≡ log.old) }
    ensures snapshots_kept { OnErr result (snapshots.new.items ≡ snapshots.old.items) }
{
    match log.outcome(read, command.get()) {
        Appended::Accepted { index } => {
            append_accepted(alloc, log, snapshots, command)?;
            Ok(Appended::Accepted { index })
        }
        Appended::Conflict { last } => Ok(Appended::Conflict { last }),
        Appended::Illegal { rule } => Ok(Appended::Illegal { rule }),
    }
}
