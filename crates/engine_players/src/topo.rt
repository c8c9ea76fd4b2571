//! A coordinator proposes.
ghost use Rattle.std.specs.Prelude.{◌≡◌, IfOk, OnOk};
ghost use Rattle.engine_desk.specs.Desks.{IsDesk, IsDeskProposal, IsSeated};
ghost use Rattle.engine_players.specs.Coordinators.{IsProposable, IsTopo, MovesOn};
ghost use Rattle.run_plan.specs.declared.plan.RunPlan.{RunPlan};

use base_ids::{Appended, HostId, StateId};
use engine_desk::{Chair, Desk, Mail, Refused};
use std::sync::Wait;
use topo_coord::TopoCore;
use topo_state::{Command, Rule};

/// A coordinator proposes a command by what it has read of the log, and learns what became of it. The desk carries out
/// whichever plan it carried out, and a move whose command this was goes on.
pub fn topo_propose<C: Chair, M: Mail, R: Wait>(
    rt: &R,
    desk: &mut Desk<C, M>,
    core: &TopoCore,
    topo: HostId,
    command: Command,
) -> Result<Appended<Rule>, Refused>
    requires seated { IsSeated desk.old.known }
    requires named { topo ≡ core.now.core.host }
    requires topo { IsTopo desk.old.known core.now.core }
    requires due { IsProposable desk.old core.now.core command }
    ensures proposed { IsDeskProposal desk.old topo command result desk.new }
    ensures desk { (plan : RunPlan) → IsDesk plan desk.old → IsDesk plan desk.new }
    ensures topo { OnOk result (IsTopo desk.new.known core.now.core) }
    ensures moves { IfOk result (λ outcome. MovesOn desk.old.known core.now.core command outcome desk.new.known) }
{
    let read = StateId(core.look());
    desk.propose(rt, topo, read, command)
}
