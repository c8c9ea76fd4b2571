//! Laws of rebuilding. Each is a call that does nothing and ensures the law.
ghost use Rattle.rebuild_core.specs.Laws.{RebuildGathers, RebuildCovers, RebuildIsExact, RebuiltCovers};

/// Once the rebuild is done the pending host holds, for each token of the range, no less than any source held at the
/// start.
pub fn law_rebuild()
    ensures { RebuildGathers }
{}

/// What at least two replicas held, or a greater cell, as many hold of the list with the pending replica in the lost
/// one's place.
pub fn law_covers()
    ensures { RebuildCovers }
{}

/// Where the stores take nothing but the chunks, the pending host holds exactly the greatest of what it and the sources
/// held, and all else is as it was.
pub fn law_exact()
    ensures { RebuildIsExact }
{}

/// Where a tablet was rebuilt from all replicas but a lost one, what at least two replicas held before, or a greater
/// cell, as many hold of the list with the pending replica in the lost one's place.
pub fn law_rebuilt_covers()
    ensures { RebuiltCovers }
{}
