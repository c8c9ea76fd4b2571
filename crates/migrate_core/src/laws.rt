//! Laws of a plan. Each is a call that does nothing and ensures the law.
ghost use Rattle.std.specs.Prelude.{◌≡◌, Bool, true, not, List, None, is_some};
ghost use Rattle.barrier_core.specs.declared.data.Told.{Told};
ghost use Rattle.barrier_core.specs.Facts.{is_complete};
ghost use Rattle.base_ids.specs.declared.ids.Session.{Session};
ghost use Rattle.stage_graph.specs.declared.stage.Stage.{Stage};
ghost use Rattle.stage_graph.specs.Table.{next_ok};
ghost use Rattle.topo_state.specs.declared.command.Command.{Command};
ghost use Rattle.topo_state.specs.State.{Topology};
ghost use Rattle.topo_state.specs.Sound.{IsTopology};
ghost use Rattle.topo_state.specs.Rules.{rule};
ghost use Rattle.migrate_core.specs.Laws.{IsFoundOnce};
ghost use Rattle.migrate_core.specs.Plan.{awaited_barrier, plan_next};
ghost use Rattle.migrate_core.specs.Transitions.{target};
ghost use Rattle.migrate_core.specs.declared.next.Next.TheVariants.{Propose};

/// The table of stages has each move that is planned.
pub fn law_target_is_a_move()
    ensures { (stage : Stage) (back : Bool) → next_ok stage (target stage back) ≡ true }
{}

/// A host is waited for at a barrier exactly where the evidence for the state's version is not complete.
pub fn law_barrier_is_awaited()
    ensures { (facts : List Told) (state : Topology) →
        is_some (awaited_barrier facts state) ≡ not (is_complete facts state.version state.members state.before) }
{}

/// A command that is proposed for a move breaks no rule in the state by which it was planned.
pub fn law_planned_advance_is_judged()
    ensures { (state : Topology) (facts : List Told) (session : Session) (back : Bool)
        (command : Command) → IsTopology state → IsFoundOnce state session →
        plan_next state facts session back ≡ Propose command → rule state command ≡ None }
{}
