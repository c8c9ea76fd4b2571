//! Laws of plans that are written. Each is a call that does nothing and ensures the law.
ghost use Rattle.further_report.specs.Planned.{PlansAreMade};

/// In each sound state in which no tablet moves, the moves that are written are legal one after the other and leave a
/// spread of at most 1, and no shorter list does.
pub fn law_plans_are_made()
    ensures { PlansAreMade }
{}
