//! A host's event.
ghost use Rattle.std.specs.Prelude.{◌≡◌, OnErr, OnOk};
ghost use Rattle.plan_facts.specs.Suits.{Suits};
ghost use Rattle.engine_desk.specs.Desks.{IsDesk, IsSameDesk};
ghost use Rattle.engine_players.specs.Hosts.{IsHost, IsHostDue, IsHostPlayed};
ghost use Rattle.engine_hosts.specs.Turns.{HasNoMore};

use base_ids::HostId;
use cluster_history::Event;
use engine_desk::{Chair, Desk, Mail, Refused};
use engine_players::play_host;
use host_core::{HostCore, HostInput};
use replica_store::Store;
use run_plan::RunPlan;
use std::alloc::Global;
use std::sync::Wait;

/// A host plays an event that suits the plan. After an error the host itself is lost.
pub fn host_event<C: Chair, M: Mail, S: Store, R: Wait>(
    rt: &R,
    alloc: Global,
    plan: &RunPlan,
    desk: &mut Desk<C, M>,
    core: &mut HostCore<S>,
    host: HostId,
    event: Event,
    input: HostInput,
) -> Result<u64, Refused>
    requires named { host ≡ core.old.core.host }
    requires desk { IsDesk plan.now desk.old }
    requires host { IsHost desk.old.known core.old.core }
    requires due { IsHostDue desk.old core.old.core event input }
    requires suits { Suits plan.now desk.old.known.opening desk.old.known.seen event }
    ensures desk { IsDesk plan.now desk.new }
    ensures played { IsHostPlayed desk.old core.old.core event input result desk.new core.new.core }
    ensures same { IsSameDesk desk.old desk.new }
    ensures takes { desk.new.takes ≡ desk.old.takes }
    ensures lost { OnErr result (HasNoMore desk.old.known desk.new.known) }
{
    play_host(rt, alloc, desk, host, core, event, input)
}
