//! The next act of a resize.
ghost use Rattle.std.specs.Prelude.{◌≡◌};
ghost use Rattle.barrier_core.specs.Facts.{least_without};
ghost use Rattle.barrier_core.specs.declared.data.What.TheVariants.{Ready as ReadyFor};
ghost use Rattle.resize_core.specs.Plan.{hosts_of, replica_hosts, awaited_ready, plan_resize};

use barrier_core::{Evidence, lesser_host};
use base_ids::{HostId, Replica, Session, TableId};
use migrate_core::{Next, awaited_barrier};
use tablet_map::Tablet;
use topo_state::{Command, ResizeKind, TopoState};

/// What is to be done next to carry out the decision of this number on a table. A host that is named is the least one
/// whose fact is waited for. `Nothing` exactly where the table has no decision of this number.
pub fn plan_resize(state: &TopoState, evidence: &Evidence, table: TableId, seq: Session) -> Next
    ensures { result ≡ plan_resize state.now evidence.now.facts table seq }
{
    let Some(found) = state.table(table) else {
        return Next::Nothing;
    };
    let Some(decision) = found.resize else {
        return Next::Nothing;
    };
    if decision.seq != seq {
        return Next::Nothing;
    }
    if let Some(host) = awaited_ready(evidence, decision.kind, seq, found.map.tablets()) {
        return Next::Ready(host);
    }
    if let Some(host) = awaited_barrier(evidence, state) {
        return Next::Barrier(host);
    }
    Next::Propose(Command::FinalizeResize { table, seq })
}

/// Before a split, the least host with a replica that has not told that it is ready.
fn awaited_ready(
    evidence: &Evidence,
    kind: ResizeKind,
    seq: Session,
    tablets: &[Tablet],
) -> Option<HostId>
    ensures { result ≡ awaited_ready evidence.now.facts kind seq tablets.now }
{
    match kind {
        ResizeKind::Split => first_unready(evidence, seq, tablets),
        ResizeKind::Merge | ResizeKind::Keep => None,
    }
}

/// The least host with a replica of some tablet that has not told that it is ready.
fn first_unready(evidence: &Evidence, seq: Session, tablets: &[Tablet]) -> Option<HostId>
    ensures { result ≡ least_without evidence.now.facts (ReadyFor seq) (replica_hosts tablets.now) }
{
    let mut least = None;
    for tablet in tablets {
        least = lesser_host(least, unready_in(evidence, seq, tablet.replicas.as_slice()));
    }
    least
}

/// The same of the replicas of one tablet.
fn unready_in(evidence: &Evidence, seq: Session, replicas: &[Replica]) -> Option<HostId>
    ensures { result ≡ least_without evidence.now.facts (ReadyFor seq) (hosts_of replicas.now) }
{
    let mut least = None;
    for replica in replicas {
        if !evidence.has_ready(replica.host, seq) {
            least = lesser_host(least, Some(replica.host));
        }
    }
    least
}
