//! Laws of repaired reads. Each is a call that does nothing and ensures the law.
ghost use Rattle.cluster_history.specs.Legal.{IsLegalRun, history_of};
ghost use Rattle.monotone_read.specs.Lists.{ReadsAreFound};
ghost use Rattle.monotone_read.specs.Monotone.{NeverBack};

use cluster_history::Journal;
use overlap_law::law_quorum_reads;

/// In a legal run a quorum read that began after a repaired read of its key was answered returns no cell below the one
/// that the repaired read returned.
pub fn law_monotone(journal: &Journal)
    requires { IsLegalRun journal.now }
    ensures { NeverBack (history_of journal.now) }
{
    law_quorum_reads(journal);
}

/// The list of the repaired reads of a legal run has exactly these, in the order of the entries at which they are
/// answered.
pub fn law_reads_are_found(journal: &Journal)
    requires { IsLegalRun journal.now }
    ensures { ReadsAreFound journal.now }
{}
