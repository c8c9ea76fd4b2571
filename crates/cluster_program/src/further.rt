//! The commands that write further lines after the report.
ghost use Rattle.std.specs.Prelude.{◌≡◌, ℕ, ◌≤◌, [], List, IfSome, None};
ghost use Rattle.std.specs.List.{concat};
ghost use Rattle.balance_plan.specs.Plans.{first_moving};
ghost use Rattle.cluster_history.specs.Legal.{IsLegalRun, history_of};
ghost use Rattle.fault_io.specs.Counts.{Rose};
ghost use Rattle.fault_io.specs.Written.{content_after};
ghost use Rattle.further_report.specs.Planned.{IsEvened};
ghost use Rattle.monotone_read.specs.Lists.{ReadsAreFound};
ghost use Rattle.monotone_read.specs.Monotone.{NeverBack};
ghost use Rattle.overlap_law.specs.Headline.{IsHeadline};
ghost use Rattle.cluster_program.specs.Endings.{IsBalanceEnding, IsReadsEnding};
ghost use Rattle.cluster_program.specs.Outcomes.{AnswersAs, IsAnswerAs, NoFault};
ghost use Rattle.cluster_program.specs.Program.{IsComplete, end_state};
ghost use Rattle.cluster_program.specs.Texts.{balance_report, reads_report};
ghost use Rattle.cluster_program.specs.declared.texts.Form.TheVariants.{Planned, Repaired};

use crate::outcome::Outcome;
use crate::sources::play_source;
use crate::texts::Form;
use fault_io::{Sink, Source};
use further_report::law_plans_are_made;
use monotone_read::{law_monotone, law_reads_are_found};
use std::alloc::Global;

/// Reads a schedule, plays it, and writes its report and a line for each repaired read: one that found a cell and whose
/// lane wrote that cell back by quorum, or that found none. It ends on a text as `play_main` does, but for these lines,
/// which come with status 0 alone.
pub fn reads_main<S: Source, K: Sink>(alloc: Global, source: &mut S, sink: &mut K) -> Outcome
    // The journal that is kept is a legal run. In it no read returns less than a write of its key that was acknowledged
    // before it began, and it returns none or a cell that such a write began with; a request is stale only below
    // fences of as many hosts as leave too few, and given up only where too few of its targets had answered;
    // and what clients saw is a run of the register machine.
    ensures legal { IsLegalRun result.journal }
    ensures headline { IsHeadline result.journal }

    // No quorum read returns less than a repaired read of its key that was answered before it began; and the repaired
    // reads are those whose lines are written.
    ensures never_back { NeverBack (history_of result.journal) }
    ensures found { ReadsAreFound result.journal }

    // What was to come of the text came, but for a read fault, a failed write and want of memory.
    ensures told { IfSome (S.account source.old).left (λ text. AnswersAs (IsReadsEnding text) result
        (S.account source.old) (S.account source.new) (K.account sink.old) (K.account sink.new)) }
    ensures taken { (taken : List ℕ) × IsAnswerAs (IsReadsEnding taken) taken result
        (S.account source.old) (S.account source.new) (K.account sink.old) (K.account sink.new) }
    ensures complete { IsComplete Repaired result
        (S.account source.old) (S.account source.new) (K.account sink.old) (K.account sink.new) }

    // What follows of the statuses 0, 5 and 6.
    ensures report { result.status ≡ 0 → (K.account sink.new).content
        ≡ content_after (K.account sink.old).content (concat (reads_report result.journal)) }
    ensures ended { result.status ≡ 0 → IfSome (S.account source.new).left (λ rest. rest ≡ []) }
    ensures quiet { result.status ≡ 0 → NoFault (S.account source.old) (S.account source.new)
        × ((K.account sink.new).faults ≡ (K.account sink.old).faults) }
    ensures read_fault { result.status ≡ 5 → Rose (S.account source.old).faults (S.account source.new).faults }
    ensures write_fault { result.status ≡ 6 → Rose (K.account sink.old).faults (K.account sink.new).faults }
    ensures read_later { (S.account source.old).faults ≤ (S.account source.new).faults }
    ensures write_later { (K.account sink.old).faults ≤ (K.account sink.new).faults }
{
    let outcome = play_source(alloc, Form::Repaired, source, sink);
    law_monotone(&outcome.journal);
    law_reads_are_found(&outcome.journal);
    outcome
}

/// Reads a schedule, plays it, and writes its report and the plan that evens out the tablets of the state that the log
/// came to: a line for each move, and one with their count and the spread after them; or one line that names the first
/// tablet in transition, where there is no plan. Nothing is moved. It ends on a text as `play_main` does, but for these
/// lines, which come with status 0 alone.
pub fn balance_main<S: Source, K: Sink>(alloc: Global, source: &mut S, sink: &mut K) -> Outcome
    // The journal that is kept is a legal run. In it no read returns less than a write of its key that was acknowledged
    // before it began, and it returns none or a cell that such a write began with; a request is stale only below
    // fences of as many hosts as leave too few, and given up only where too few of its targets had answered;
    // and what clients saw is a run of the register machine.
    ensures legal { IsLegalRun result.journal }
    ensures headline { IsHeadline result.journal }

    // What was to come of the text came, but for a read fault, a failed write and want of memory.
    ensures told { IfSome (S.account source.old).left (λ text. AnswersAs (IsBalanceEnding text) result
        (S.account source.old) (S.account source.new) (K.account sink.old) (K.account sink.new)) }
    ensures taken { (taken : List ℕ) × IsAnswerAs (IsBalanceEnding taken) taken result
        (S.account source.old) (S.account source.new) (K.account sink.old) (K.account sink.new) }
    ensures complete { IsComplete Planned result
        (S.account source.old) (S.account source.new) (K.account sink.old) (K.account sink.new) }

    // What follows of the statuses 0, 5 and 6. Where no tablet is in transition the moves of the plan are legal one
    // after the other and leave a spread of at most 1, and no shorter list of legal moves does.
    ensures report { result.status ≡ 0 → (K.account sink.new).content
        ≡ content_after (K.account sink.old).content (concat (balance_report result.journal)) }
    ensures evened { result.status ≡ 0 → first_moving (end_state result.journal).tables ≡ None →
        IsEvened (end_state result.journal) }
    ensures ended { result.status ≡ 0 → IfSome (S.account source.new).left (λ rest. rest ≡ []) }
    ensures quiet { result.status ≡ 0 → NoFault (S.account source.old) (S.account source.new)
        × ((K.account sink.new).faults ≡ (K.account sink.old).faults) }
    ensures read_fault { result.status ≡ 5 → Rose (S.account source.old).faults (S.account source.new).faults }
    ensures write_fault { result.status ≡ 6 → Rose (K.account sink.old).faults (K.account sink.new).faults }
    ensures read_later { (S.account source.old).faults ≤ (S.account source.new).faults }
    ensures write_later { (K.account sink.old).faults ≤ (K.account sink.new).faults }
{
    law_plans_are_made();
    play_source(alloc, Form::Planned, source, sink)
}
