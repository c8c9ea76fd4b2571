//! Laws of proposals. Each is a call that does nothing and ensures the law.
ghost use Rattle.std.specs.Prelude.{◌≡◌, Bool, List, None};
ghost use Rattle.barrier_core.specs.declared.data.Told.{Told};
ghost use Rattle.base_ids.specs.declared.ids.Session.{Session};
ghost use Rattle.base_ids.specs.declared.ids.TableId.{TableId};
ghost use Rattle.topo_state.specs.declared.command.Command.{Command};
ghost use Rattle.topo_state.specs.State.{Topology};
ghost use Rattle.migrate_core.specs.Plan.{plan_next};
ghost use Rattle.migrate_core.specs.declared.next.Next.TheVariants.{Propose};
ghost use Rattle.resize_core.specs.Plan.{plan_resize};
ghost use Rattle.topo_coord.specs.Rules.{proposal_rule};

/// A command that is planned for a move may be proposed.
pub fn law_planned_move_is_allowed()
    ensures { (state : Topology) (facts : List Told) (session : Session) (back : Bool)
        (command : Command) → plan_next state facts session back ≡ Propose command →
        proposal_rule state facts command ≡ None }
{}

/// A command that is planned for a resize may be proposed.
pub fn law_planned_resize_is_allowed()
    ensures { (state : Topology) (facts : List Told) (table : TableId) (seq : Session)
        (command : Command) → plan_resize state facts table seq ≡ Propose command →
        proposal_rule state facts command ≡ None }
{}
