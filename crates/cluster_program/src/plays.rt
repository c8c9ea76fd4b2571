//! Texts that are read and played.
ghost use Rattle.std.specs.Prelude.{◌≡◌, ◌≤◌, IfOk};
ghost use Rattle.cluster_history.specs.Legal.{IsLegalRun, opening_journal};
ghost use Rattle.schedule_data.specs.Playable.{IsPlayable};
ghost use Rattle.schedule_play.specs.Play.{IsFrontOf, played};
ghost use Rattle.cluster_program.specs.Endings.{play_ending};
ghost use Rattle.cluster_program.specs.Readings.{reading_ending, schedule_reading};
ghost use Rattle.cluster_program.specs.Outcomes.{CameTo};
ghost use Rattle.cluster_program.specs.Program.{end_state};
ghost use Rattle.topo_state.specs.Sound.{IsTopology};

use crate::endings::{kept_journal, not_parsed, tell_limit, tell_rule, tell_whole};
use crate::opening::copy_opening;
use crate::outcome::{Outcome, no_journal, starved};
use crate::texts::Form;
use base_ids::NoMemory;
use cluster_machine::Machine;
use fault_io::Sink;
use schedule_data::Schedule;
use schedule_play::{PlayError, play};
use schedule_text::parse;
use std::alloc::Global;

/// A machine with the schedule's opening.
fn machine_of(alloc: Global, schedule: &Schedule) -> Result<Machine, NoMemory>
    requires { IsPlayable schedule.now }
    ensures { IfOk result (λ machine. machine ≡ opening_journal schedule.now.opening) }
{
    let opening = copy_opening(alloc, &schedule.opening)?;
    Machine::new(alloc, opening)
}

/// Plays a schedule on a machine that nothing has happened to, and writes what came of it. At each status the journal
/// has some of the first entries of the play.
fn play_on<K: Sink>(
    alloc: Global,
    form: Form,
    schedule: &Schedule,
    mut machine: Machine,
    sink: &mut K,
) -> Outcome
    requires playable { IsPlayable schedule.now }
    requires fresh { machine ≡ opening_journal schedule.now.opening }
    ensures came { CameTo (play_ending form schedule.now) result (K.account sink.old) (K.account sink.new) }
    ensures front { IsFrontOf result.journal (played schedule.now).journal }
    ensures legal { IsLegalRun result.journal }
    ensures sound { IsTopology (end_state result.journal) }
    ensures later { (K.account sink.old).faults ≤ (K.account sink.new).faults }
{
    match play(alloc, schedule, &mut machine) {
        Ok(()) => tell_whole(alloc, form, schedule, machine, sink),
        Err(PlayError::NotEnabled { line, rule }) => {
            tell_rule(alloc, kept_journal(machine), line, rule, sink)
        }
        Err(PlayError::Limit { name }) => { tell_limit(alloc, kept_journal(machine), name, sink) }
        Err(PlayError::NoMemory) => starved(kept_journal(machine)),
    }
}

/// Plays a schedule and writes what came of it.
fn play_schedule<K: Sink>(alloc: Global, form: Form, schedule: &Schedule, sink: &mut K) -> Outcome
    requires { IsPlayable schedule.now }
    ensures came { CameTo (play_ending form schedule.now) result (K.account sink.old) (K.account sink.new) }
    ensures legal { IsLegalRun result.journal }
    ensures sound { result.status ≡ 0 → IsTopology (end_state result.journal) }
    ensures later { (K.account sink.old).faults ≤ (K.account sink.new).faults }
{
    match machine_of(alloc, schedule) {
        Ok(machine) => play_on(alloc, form, schedule, machine, sink),
        Err(NoMemory) => starved(no_journal(alloc)),
    }
}

/// Reads a text, plays its schedule and writes what came of it.
pub(crate) fn play_text<K: Sink>(alloc: Global, form: Form, bytes: &[u8], sink: &mut K) -> Outcome
    ensures came { CameTo (reading_ending form (schedule_reading bytes.now)) result (K.account sink.old)
        (K.account sink.new) }
    ensures legal { IsLegalRun result.journal }
    ensures sound { result.status ≡ 0 → IsTopology (end_state result.journal) }
    ensures later { (K.account sink.old).faults ≤ (K.account sink.new).faults }
{
    match parse(alloc, bytes) {
        Ok(schedule) => play_schedule(alloc, form, &schedule, sink),
        Err(error) => not_parsed(alloc, error, sink),
    }
}
