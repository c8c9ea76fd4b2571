//! Schedules that are read from a source.
ghost use Rattle.std.specs.Prelude.{◌≡◌, ℕ, ◌≤◌, [], List, IfSome};
ghost use Rattle.cluster_history.specs.Legal.{IsLegalRun};
ghost use Rattle.fault_io.specs.Counts.{Rose};
ghost use Rattle.overlap_law.specs.Headline.{IsHeadline};
ghost use Rattle.topo_state.specs.Sound.{IsTopology};
ghost use Rattle.cluster_program.specs.Endings.{IsReadEnding};
ghost use Rattle.cluster_program.specs.Outcomes.{AnswersAs, IsAnswerAs, NoFault};
ghost use Rattle.cluster_program.specs.Program.{IsComplete, IsWrittenOf, end_state};

use crate::endings::not_read;
use crate::outcome::Outcome;
use crate::plays::play_text;
use crate::texts::Form;
use fault_io::{Sink, Source, read_all};
use overlap_law::law_headline;
use schedule_text::law_texts_are_read;
use std::alloc::Global;

/// A text has at most so many bytes. One more may be taken, to know that the source has more.
const INPUT_LIMIT: usize = 4194304;

/// Reads a schedule, plays it and writes what the form has of its play.
pub(crate) fn play_source<S: Source, K: Sink>(
    alloc: Global,
    form: Form,
    source: &mut S,
    sink: &mut K,
) -> Outcome
    ensures legal { IsLegalRun result.journal }
    ensures headline { IsHeadline result.journal }

    // What was to come of the text came, but for a read fault, a failed write and want of memory.
    ensures told { IfSome (S.account source.old).left (λ text. AnswersAs (IsReadEnding form text) result
        (S.account source.old) (S.account source.new) (K.account sink.old) (K.account sink.new)) }
    ensures taken { (taken : List ℕ) × IsAnswerAs (IsReadEnding form taken) taken result
        (S.account source.old) (S.account source.new) (K.account sink.old) (K.account sink.new) }
    ensures complete { IsComplete form result
        (S.account source.old) (S.account source.new) (K.account sink.old) (K.account sink.new) }

    // What follows of the statuses 0, 5 and 6.
    ensures written { result.status ≡ 0 → IsWrittenOf form result.journal (K.account sink.old) (K.account sink.new) }
    ensures sound { result.status ≡ 0 → IsTopology (end_state result.journal) }
    ensures ended { result.status ≡ 0 → IfSome (S.account source.new).left (λ rest. rest ≡ []) }
    ensures quiet { result.status ≡ 0 → NoFault (S.account source.old) (S.account source.new)
        × ((K.account sink.new).faults ≡ (K.account sink.old).faults) }
    ensures read_fault { result.status ≡ 5 → Rose (S.account source.old).faults (S.account source.new).faults }
    ensures write_fault { result.status ≡ 6 → Rose (K.account sink.old).faults (K.account sink.new).faults }
    ensures read_later { (S.account source.old).faults ≤ (S.account source.new).faults }
    ensures write_later { (K.account sink.old).faults ≤ (K.account sink.new).faults }
{
    law_texts_are_read();
    match read_all(alloc, source, INPUT_LIMIT) {
        Ok(bytes) => {
            let outcome = play_text(alloc, form, bytes.as_slice(), sink);
            law_headline(&outcome.journal);
            outcome
        }
        Err(error) => {
            let outcome = not_read(alloc, error, sink);
            law_headline(&outcome.journal);
            outcome
        }
    }
}
