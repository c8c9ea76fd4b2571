//! Laws of written journals. Each is a call that changes nothing and ensures the law.
ghost use Rattle.std.specs.Prelude.{◌≢◌};
ghost use Rattle.cluster_history.specs.Legal.{IsLegalRun};
ghost use Rattle.trace_law.specs.Traces.{EntriesArePlayed, IsTrace, IsWithin, WrittenRunsAreTraces};

use cluster_history::Journal;
use written_text::law_journals_fit;

/// The schedule that has a line for each entry of a legal run is played to its end, and its play is that run.
pub fn law_entries_are_played()
    ensures { EntriesArePlayed }
{}

/// The written form of a legal run of hosts within the limits, whose numbers fit the text's types, is the text of a
/// schedule whose play is that run.
pub fn law_written_runs_are_traces()
    ensures { WrittenRunsAreTraces }
{}

/// So the written form of each legal run of hosts within the limits that code holds is the text of a schedule whose
/// play is that run: its numbers fit. It reads each entry once, and takes no memory.
pub fn law_written_run_is_a_trace(journal: &Journal)
    requires legal { IsLegalRun journal.now }
    requires hosts { journal.now.opening.hosts ≢ 0 }
    requires within { IsWithin journal.now }
    ensures { IsTrace journal.now }
{
    law_journals_fit(journal);
    law_written_runs_are_traces();
}
