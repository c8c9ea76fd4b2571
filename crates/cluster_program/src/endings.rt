//! What is written at the end of a call.
ghost use Rattle.std.specs.Prelude.{◌≡◌, ◌≢◌, ◌≤◌, OnErr, OnOk, Some, None};
ghost use Rattle.std.specs.List.{concat};
ghost use Rattle.cluster_history.specs.Legal.{IsLegalRun};
ghost use Rattle.fault_io.specs.Counts.{Rose};
ghost use Rattle.fault_io.specs.Written.{AddsPart, content_after};
ghost use Rattle.schedule_play.specs.Play.{AtLimit, AtRule};
ghost use Rattle.cluster_program.specs.Endings.{early, no_journal, stopped_ending, usage_ending, whole_ending};
ghost use Rattle.cluster_program.specs.Outcomes.{CameTo, CameToError, CameToFault, IsSaidOrCut};
ghost use Rattle.cluster_program.specs.Program.{end_state};
ghost use Rattle.cluster_program.specs.Texts.{limit_line, refused_line};
ghost use Rattle.topo_state.specs.Sound.{IsTopology};

use crate::outcome::{Outcome, ended, no_journal, starved};
use crate::status::Status;
use crate::texts::{Form, form_lines, limit_line, lines_to_limit, lines_to_rule, refused_line};
use base_ids::{EventRule, LimitName, Line, NoMemory};
use cluster_history::Journal;
use cluster_machine::Machine;
use fault_io::{ReadError, Sink, WriteFault, write_all};
use schedule_data::Schedule;
use schedule_text::ParseError;
use std::alloc::Global;
use text_grammar::TextRule;

/// Writes one line, and ends so.
pub(crate) fn say<K: Sink>(sink: &mut K, line: &[u8], status: Status, journal: Journal) -> Outcome
    ensures came { IsSaidOrCut (record { status = status; journal = journal; bytes = line.now }) result
        (K.account sink.old) (K.account sink.new) }
    ensures journal { result.journal ≡ journal }
    ensures later { (K.account sink.old).faults ≤ (K.account sink.new).faults }
{
    let written = write_all(sink, line);
    ended(status, journal, written)
}

/// Writes the lines one after the other.
fn write_lines<K: Sink>(sink: &mut K, lines: &[Line]) -> Result<(), WriteFault>
    ensures whole { OnOk result ((K.account sink.new).content
        ≡ content_after (K.account sink.old).content (concat lines.now)) }
    ensures part { OnErr result (AddsPart (K.account sink.old) (K.account sink.new) (concat lines.now)) }
    ensures later { (K.account sink.old).faults ≤ (K.account sink.new).faults }
    ensures cause { OnErr result (Rose (K.account sink.old).faults (K.account sink.new).faults) }
    ensures quiet { OnOk result ((K.account sink.new).faults ≡ (K.account sink.old).faults) }
{
    for line in lines {
        write_all(sink, line.as_slice())?;
    }
    Ok(())
}

/// Writes the lines, and ends so.
fn finish<K: Sink>(sink: &mut K, lines: &[Line], status: Status, journal: Journal) -> Outcome
    ensures came { IsSaidOrCut (record { status = status; journal = journal; bytes = concat lines.now }) result
        (K.account sink.old) (K.account sink.new) }
    ensures journal { result.journal ≡ journal }
    ensures later { (K.account sink.old).faults ≤ (K.account sink.new).faults }
{
    let written = write_lines(sink, lines);
    ended(status, journal, written)
}

/// The journal of a machine. The state that its log came to is sound.
pub(crate) fn kept_journal(machine: Machine) -> Journal
    ensures same { result ≡ machine }
    ensures legal { IsLegalRun result }
    ensures sound { IsTopology (end_state result) }
{
    let _tables = machine.log().state().tables();
    machine.into_journal()
}

/// Writes what is wanted of a schedule's play that came to its end.
pub(crate) fn tell_whole<K: Sink>(
    alloc: Global,
    form: Form,
    schedule: &Schedule,
    machine: Machine,
    sink: &mut K,
) -> Outcome
    ensures came { CameTo (whole_ending form schedule.now machine) result
        (K.account sink.old) (K.account sink.new) }
    ensures journal { result.journal ≡ machine }
    ensures legal { IsLegalRun result.journal }
    ensures sound { IsTopology (end_state result.journal) }
    ensures later { (K.account sink.old).faults ≤ (K.account sink.new).faults }
{
    let lines = form_lines(alloc, form, schedule, &machine);
    let journal = kept_journal(machine);
    match lines {
        Ok(lines) => finish(sink, lines.as_slice(), Status::Done, journal),
        Err(NoMemory) => starved(journal),
    }
}

/// Writes the report of a play that stopped at an event that is not enabled.
pub(crate) fn tell_rule<K: Sink>(
    alloc: Global,
    journal: Journal,
    line: u64,
    rule: EventRule,
    sink: &mut K,
) -> Outcome
    ensures came { CameTo (stopped_ending journal (AtRule line rule)) result
        (K.account sink.old) (K.account sink.new) }
    ensures journal { result.journal ≡ journal }
    ensures later { (K.account sink.old).faults ≤ (K.account sink.new).faults }
{
    match lines_to_rule(alloc, &journal, line, rule) {
        Ok(lines) => finish(sink, lines.as_slice(), Status::NotEnabled, journal),
        Err(NoMemory) => starved(journal),
    }
}

/// Writes the report of a play that stopped at a limit.
pub(crate) fn tell_limit<K: Sink>(
    alloc: Global,
    journal: Journal,
    name: LimitName,
    sink: &mut K,
) -> Outcome
    ensures came { CameTo (stopped_ending journal (AtLimit name)) result
        (K.account sink.old) (K.account sink.new) }
    ensures journal { result.journal ≡ journal }
    ensures later { (K.account sink.old).faults ≤ (K.account sink.new).faults }
{
    match lines_to_limit(alloc, &journal, name) {
        Ok(lines) => finish(sink, lines.as_slice(), Status::Limit, journal),
        Err(NoMemory) => starved(journal),
    }
}

/// Tells which rule a line of the text breaks.
fn refuse<K: Sink>(alloc: Global, line: u64, rule: TextRule, sink: &mut K) -> Outcome
    ensures came { CameTo (early Status.Refused (refused_line line rule)) result
        (K.account sink.old) (K.account sink.new) }
    ensures journal { result.journal ≡ no_journal }
    ensures later { (K.account sink.old).faults ≤ (K.account sink.new).faults }
{
    let journal = no_journal(alloc);
    match refused_line(alloc, line, rule) {
        Ok(text) => say(sink, text.as_slice(), Status::Refused, journal),
        Err(NoMemory) => starved(journal),
    }
}

/// Tells which limit the text passes.
fn limit<K: Sink>(alloc: Global, name: LimitName, sink: &mut K) -> Outcome
    ensures came { CameTo (early Status.Limit (limit_line name)) result (K.account sink.old) (K.account sink.new) }
    ensures journal { result.journal ≡ no_journal }
    ensures later { (K.account sink.old).faults ≤ (K.account sink.new).faults }
{
    let journal = no_journal(alloc);
    match limit_line(alloc, name) {
        Ok(text) => say(sink, text.as_slice(), Status::Limit, journal),
        Err(NoMemory) => starved(journal),
    }
}

/// Tells why a text says no schedule.
pub(crate) fn not_parsed<K: Sink>(alloc: Global, error: ParseError, sink: &mut K) -> Outcome
    ensures came { CameToFault error result (K.account sink.old) (K.account sink.new) }
    ensures early { result.status ≢ 0 }
    ensures journal { result.journal ≡ no_journal }
    ensures later { (K.account sink.old).faults ≤ (K.account sink.new).faults }
{
    match error {
        ParseError::Refused { line, rule } => refuse(alloc, line, rule, sink),
        ParseError::Limit { name } => limit(alloc, name, sink),
        ParseError::NoMemory => starved(no_journal(alloc)),
    }
}

/// Tells why a source was not read whole.
pub(crate) fn not_read<K: Sink>(alloc: Global, error: ReadError, sink: &mut K) -> Outcome
    ensures came { CameToError error result (K.account sink.old) (K.account sink.new) }
    ensures early { result.status ≢ 0 }
    ensures journal { result.journal ≡ no_journal }
    ensures later { (K.account sink.old).faults ≤ (K.account sink.new).faults }
{
    let journal = no_journal(alloc);
    match error {
        ReadError::ReadFault => say(sink, b"read-fault\n", Status::ReadFault, journal),
        ReadError::TooLong => say(sink, b"limit input\n", Status::Limit, journal),
        ReadError::NoMemory => starved(journal),
    }
}

/// Tells that the words are no command.
pub(crate) fn say_usage<K: Sink>(alloc: Global, sink: &mut K) -> Outcome
    ensures came { IsSaidOrCut usage_ending result (K.account sink.old) (K.account sink.new) }
    ensures journal { result.journal ≡ no_journal }
    ensures later { (K.account sink.old).faults ≤ (K.account sink.new).faults }
{
    let usage = b"usage: play | run | trace | gen N | reads | balance\n";
    say(sink, usage, Status::Usage, no_journal(alloc))
}
