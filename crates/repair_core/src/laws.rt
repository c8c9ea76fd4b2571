//! Laws of repairs. Each is a call that does nothing and ensures the law.
ghost use Rattle.repair_core.specs.Laws.{RepairGathers, RepairIsExact};

/// Once the repair is done every replica holds, for each token of the range, no less than any replica held at the
/// start.
pub fn law_repair()
    ensures { RepairGathers }
{}

/// Where the stores take nothing but the chunks, every replica holds exactly the greatest of what the replicas held,
/// and all else is as it was.
pub fn law_exact()
    ensures { RepairIsExact }
{}
