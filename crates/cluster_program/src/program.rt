//! The commands of the program.
ghost use Rattle.std.specs.Prelude.{◌≡◌, ℕ, ◌≤◌, ◌≢◌, ◌∷◌, [], List, IfOk, IfSome, None, OnErr, Some};
ghost use Rattle.std.specs.List.{concat};
ghost use Rattle.balance_plan.specs.Plans.{first_moving};
ghost use Rattle.cluster_history.specs.Legal.{IsLegalRun, history_of};
ghost use Rattle.command_words.specs.Words.{asked_command};
ghost use Rattle.command_words.specs.declared.words.Command.TheVariants.{Balance, Gen, Play, Reads};
ghost use Rattle.fault_io.specs.Counts.{Rose};
ghost use Rattle.fault_io.specs.Written.{content_after};
ghost use Rattle.further_report.specs.Planned.{IsEvened};
ghost use Rattle.monotone_read.specs.Lists.{ReadsAreFound};
ghost use Rattle.monotone_read.specs.Monotone.{NeverBack};
ghost use Rattle.overlap_law.specs.Headline.{IsHeadline};
ghost use Rattle.report_text.specs.Report.{report};
ghost use Rattle.cluster_program.specs.Endings.{IsCommandEnding, IsGenEnding, IsPlayEnding, usage_ending};
ghost use Rattle.cluster_program.specs.Outcomes.{AnswersAs, CameAs, IsAnswerAs, IsSaidOrCut, NoFault};
ghost use Rattle.cluster_program.specs.Program.{IsComplete, IsSummed, asked_form, end_state};
ghost use Rattle.cluster_program.specs.Texts.{balance_report, reads_report};
ghost use Rattle.cluster_program.specs.declared.texts.Form.{Form};
ghost use Rattle.cluster_program.specs.declared.texts.Form.TheVariants.{Report};

use crate::endings::say_usage;
use crate::further::{balance_main, reads_main};
use crate::outcome::{Outcome, no_journal, starved};
use crate::plays::play_text;
use crate::sources::play_source;
use crate::texts::Form;
use base_ids::{Items, NoMemory, Text};
use command_words::{Command, is_command, read_words};
use fault_io::{Sink, Source};
use overlap_law::law_headline;
use schedule_gen::schedule;
use schedule_text::law_texts_are_read;
use std::alloc::Global;

/// The words of a command, after the program's name.
pub type Words = Items<Text>;

/// Reads a schedule, plays it and writes its report. How it ends is a function of the text, which is what the source
/// tells as its content, or else the bytes that it gives: with status 0 and the report; 3 and the first line at fault
/// with the rule that it breaks; 4, the report's lines so far, and the line whose event is not enabled with the first
/// rule that it breaks; or 7 and the limit that is passed, behind the report's lines so far where it stops the play. A
/// read fault gives 5, and wins over what the text says; a failed write gives 6 and leaves a part of what was to be
/// written. Want of memory may give 8 while the text is read or played or its lines are made, and then nothing was
/// written, and the journal has no opening or some of the first entries of the play.
pub fn play_main<S: Source, K: Sink>(alloc: Global, source: &mut S, sink: &mut K) -> Outcome
    // The journal that is kept is a legal run. In it no read returns less than a write of its key that was acknowledged
    // before it began, and it returns none or a cell that such a write began with; a request is stale only below
    // fences of as many hosts as leave too few, and given up only where too few of its targets had answered;
    // and what clients saw is a run of the register machine.
    ensures legal { IsLegalRun result.journal }
    ensures headline { IsHeadline result.journal }

    // What was to come of the text came, but for a read fault, a failed write and want of memory.
    ensures told { IfSome (S.account source.old).left (λ text. AnswersAs (IsPlayEnding text) result
        (S.account source.old) (S.account source.new) (K.account sink.old) (K.account sink.new)) }
    ensures taken { (taken : List ℕ) × IsAnswerAs (IsPlayEnding taken) taken result
        (S.account source.old) (S.account source.new) (K.account sink.old) (K.account sink.new) }
    ensures complete { IsComplete Report result
        (S.account source.old) (S.account source.new) (K.account sink.old) (K.account sink.new) }

    // What follows of the statuses 0, 5 and 6.
    ensures report { result.status ≡ 0 →
        (K.account sink.new).content ≡ content_after (K.account sink.old).content (concat (report result.journal)) }
    ensures ended { result.status ≡ 0 → IfSome (S.account source.new).left (λ rest. rest ≡ []) }
    ensures quiet { result.status ≡ 0 → NoFault (S.account source.old) (S.account source.new)
        × ((K.account sink.new).faults ≡ (K.account sink.old).faults) }
    ensures read_fault { result.status ≡ 5 → Rose (S.account source.old).faults (S.account source.new).faults }
    ensures write_fault { result.status ≡ 6 → Rose (K.account sink.old).faults (K.account sink.new).faults }
    ensures read_later { (S.account source.old).faults ≤ (S.account source.new).faults }
    ensures write_later { (K.account sink.old).faults ≤ (K.account sink.new).faults }
{
    play_source(alloc, Form::Report, source, sink)
}

/// Makes the schedule of a number, plays it, and writes one line of counts. How it ends is a function of the number, as
/// `play_main` ends on that text, but for the line in place of the report; nothing is read.
pub fn gen_main<K: Sink>(alloc: Global, n: u64, sink: &mut K) -> Outcome
    // The journal that is kept is a legal run. In it no read returns less than a write of its key that was acknowledged
    // before it began, and it returns none or a cell that such a write began with; a request is stale only below
    // fences of as many hosts as leave too few, and given up only where too few of its targets had answered;
    // and what clients saw is a run of the register machine.
    ensures legal { IsLegalRun result.journal }
    ensures headline { IsHeadline result.journal }

    // What was to come of the number came, but for a failed write and want of memory.
    ensures came { CameAs (IsGenEnding n) result (K.account sink.old) (K.account sink.new) }

    // What follows of the statuses 0, 5 and 6.
    ensures summary { result.status ≡ 0 → IsSummed n result.journal (K.account sink.old) (K.account sink.new) }
    ensures quiet { result.status ≡ 0 → (K.account sink.new).faults ≡ (K.account sink.old).faults }
    ensures unread { result.status ≢ 5 }
    ensures write_fault { result.status ≡ 6 → Rose (K.account sink.old).faults (K.account sink.new).faults }
    ensures write_later { (K.account sink.old).faults ≤ (K.account sink.new).faults }
{
    law_texts_are_read();
    match schedule(alloc, n) {
        Ok(text) => {
            let outcome = play_text(alloc, Form::Summary(n), text.as_slice(), sink);
            law_headline(&outcome.journal);
            outcome
        }
        Err(NoMemory) => {
            let outcome = starved(no_journal(alloc));
            law_headline(&outcome.journal);
            outcome
        }
    }
}

/// The command that the words ask for. `NoMemory` comes only for words that ask for one.
fn command_of(alloc: Global, words: &[Text]) -> Result<Option<Command>, NoMemory>
    ensures asked { IfOk result (λ command. command ≡ asked_command words.now) }
    ensures memory { OnErr result (asked_command words.now ≢ None) }
{
    if is_command(words) {
        read_words(alloc, words)
    } else {
        Ok(None)
    }
}

/// Does what the words say: `play` is `play_main`, `gen N` is `gen_main`, `reads` is `reads_main`, `balance` is
/// `balance_main`, and other words give the usage line and status 2, and never want of memory. `gen N` and other words
/// read nothing.
pub fn cluster_main<S: Source, K: Sink>(
    alloc: Global,
    words: &Words,
    source: &mut S,
    sink: &mut K,
) -> Outcome
    // The journal that is kept is a legal run. In it no read returns less than a write of its key that was acknowledged
    // before it began, and it returns none or a cell that such a write began with; a request is stale only below
    // fences of as many hosts as leave too few, and given up only where too few of its targets had answered;
    // and what clients saw is a run of the register machine.
    ensures legal { IsLegalRun result.journal }
    ensures headline { IsHeadline result.journal }

    // Words that are no command give the usage line, and nothing is read by these and by `gen N`.
    ensures usage { asked_command words.now ≡ None →
        IsSaidOrCut usage_ending result (K.account sink.old) (K.account sink.new) }
    ensures unread { asked_form (asked_command words.now) ≡ None → S.account source.new ≡ S.account source.old }
    ensures unread_by_gen { (n : ℕ) → asked_command words.now ≡ Some (Gen n) → result.status ≢ 5 }

    // What was to come of the words and the text came, but for a read fault, a failed write and want of memory.
    ensures told { IfSome (S.account source.old).left (λ text.
        AnswersAs (IsCommandEnding (asked_command words.now) text) result
        (S.account source.old) (S.account source.new) (K.account sink.old) (K.account sink.new)) }
    ensures taken { (taken : List ℕ) × IsAnswerAs (IsCommandEnding (asked_command words.now) taken) taken result
        (S.account source.old) (S.account source.new) (K.account sink.old) (K.account sink.new) }
    ensures complete { (form : Form) → asked_form (asked_command words.now) ≡ Some form → IsComplete form result
        (S.account source.old) (S.account source.new) (K.account sink.old) (K.account sink.new) }

    // By `reads`, no quorum read returns less than a repaired read of its key that was answered before it began, and
    // the repaired reads are those whose lines are written.
    ensures never_back { asked_command words.now ≡ Some Reads → NeverBack (history_of result.journal) }
    ensures found { asked_command words.now ≡ Some Reads → ReadsAreFound result.journal }

    // By `balance`, where no tablet is in transition, the moves of the plan are legal one after the other and leave a
    // spread of at most 1, and no shorter list of legal moves does.
    ensures evened { asked_command words.now ≡ Some Balance → result.status ≡ 0 →
        first_moving (end_state result.journal).tables ≡ None → IsEvened (end_state result.journal) }

    // What follows of the statuses 0, 5 and 6.
    ensures report { asked_command words.now ≡ Some Play → result.status ≡ 0 →
        (K.account sink.new).content ≡ content_after (K.account sink.old).content (concat (report result.journal)) }
    ensures reads { asked_command words.now ≡ Some Reads → result.status ≡ 0 → (K.account sink.new).content
        ≡ content_after (K.account sink.old).content (concat (reads_report result.journal)) }
    ensures balance { asked_command words.now ≡ Some Balance → result.status ≡ 0 → (K.account sink.new).content
        ≡ content_after (K.account sink.old).content (concat (balance_report result.journal)) }
    ensures summary { (n : ℕ) → asked_command words.now ≡ Some (Gen n) → result.status ≡ 0 →
        IsSummed n result.journal (K.account sink.old) (K.account sink.new) }
    ensures ended { (form : Form) → asked_form (asked_command words.now) ≡ Some form → result.status ≡ 0 →
        IfSome (S.account source.new).left (λ rest. rest ≡ []) }
    ensures quiet { result.status ≡ 0 → NoFault (S.account source.old) (S.account source.new)
        × ((K.account sink.new).faults ≡ (K.account sink.old).faults) }
    ensures read_fault { result.status ≡ 5 → Rose (S.account source.old).faults (S.account source.new).faults }
    ensures write_fault { result.status ≡ 6 → Rose (K.account sink.old).faults (K.account sink.new).faults }
    ensures read_later { (S.account source.old).faults ≤ (S.account source.new).faults }
    ensures write_later { (K.account sink.old).faults ≤ (K.account sink.new).faults }
{
    law_texts_are_read();
    match command_of(alloc, words.as_slice()) {
        Ok(Some(Command::Play)) => play_main(alloc, source, sink),
        Ok(Some(Command::Gen(n))) => gen_main(alloc, n, sink),
        Ok(Some(Command::Reads)) => reads_main(alloc, source, sink),
        Ok(Some(Command::Balance)) => balance_main(alloc, source, sink),
        Ok(None) => {
            let outcome = say_usage(alloc, sink);
            law_headline(&outcome.journal);
            outcome
        }
        Err(NoMemory) => {
            let outcome = starved(no_journal(alloc));
            law_headline(&outcome.journal);
            outcome
        }
    }
}
