//! The lines that the program writes.
ghost use Rattle.std.specs.Prelude.{◌≡◌, ◌++◌, ◌∷◌, [], IfOk};
ghost use Rattle.report_text.specs.Report.{report_lines};
ghost use Rattle.schedule_play.specs.Play.{AtLimit, AtRule};
ghost use Rattle.cluster_program.specs.Texts.{balance_report, counts_line, ends_move, form_lines, is_move_end, limit_line, moved_count, not_enabled_line, reads_report, refused_line, says_move_end, stopped_lines, summary_line};

use base_ids::{EventRule, Items, LimitName, Line, NoMemory};
use cluster_history::Journal;
use cluster_machine::Machine;
use further_report::{add_balance, add_repaired};
use report_text::{LineList, Tally, end_tally, lines, report_lines};
use schedule_data::{LineAct, LineEvent, SchedLine, Schedule, Shorthand};
use std::alloc::Global;
use text_grammar::TextRule;
use topo_state::Command;

/// In which form a play that came to its end is told.
#[derive(Clone, Copy, Debug, PartialEq, Eq)]
pub enum Form {
    /// Its report.
    Report,
    /// One line of counts, for the made schedule of this number.
    Summary(u64),
    /// Its report, and a line for each repaired read.
    Repaired,
    /// Its report, and the plan that evens out the tablets.
    Planned,
}

/// The line that tells which rule a line of the text breaks.
pub(crate) fn refused_line(alloc: Global, line: u64, rule: TextRule) -> Result<Line, NoMemory>
    ensures { IfOk result (λ text. text ≡ refused_line line rule) }
{
    let rule = rule.word();
    let text = format!(in alloc; "refused line {line} {rule}\n")?;
    Ok(Items::from_vec(text.into_bytes()))
}

/// The line that tells which limit is passed.
pub(crate) fn limit_line(alloc: Global, name: LimitName) -> Result<Line, NoMemory>
    ensures { IfOk result (λ text. text ≡ limit_line name) }
{
    let name = name.word();
    let text = format!(in alloc; "limit {name}\n")?;
    Ok(Items::from_vec(text.into_bytes()))
}

/// The line that tells which rule the event of a line breaks.
fn not_enabled_line(alloc: Global, line: u64, rule: EventRule) -> Result<Line, NoMemory>
    ensures { IfOk result (λ text. text ≡ not_enabled_line line rule) }
{
    let rule = rule.word();
    let text = format!(in alloc; "not-enabled line {line} {rule}\n")?;
    Ok(Items::from_vec(text.into_bytes()))
}

/// The lines of the report so far, and a last one.
fn lines_and(alloc: Global, journal: &Journal, last: Line) -> Result<LineList, NoMemory>
    ensures { IfOk result (λ lines. lines ≡ report_lines journal.now ++ last ∷ []) }
{
    let mut lines = report_lines(alloc, journal)?;
    lines.push(last)?;
    Ok(lines)
}

/// The report of a play that stopped at an event that is not enabled.
pub(crate) fn lines_to_rule(
    alloc: Global,
    journal: &Journal,
    line: u64,
    rule: EventRule,
) -> Result<LineList, NoMemory>
    ensures { IfOk result (λ lines. lines ≡ stopped_lines journal.now (AtRule line rule)) }
{
    let last = not_enabled_line(alloc, line, rule)?;
    lines_and(alloc, journal, last)
}

/// The report of a play that stopped at a limit.
pub(crate) fn lines_to_limit(
    alloc: Global,
    journal: &Journal,
    name: LimitName,
) -> Result<LineList, NoMemory>
    ensures { IfOk result (λ lines. lines ≡ stopped_lines journal.now (AtLimit name)) }
{
    let last = limit_line(alloc, name)?;
    lines_and(alloc, journal, last)
}

/// Whether the command is the end of a move.
#[tactic(auto, unfolding(crate::specs::Texts::is_move_end))]
fn is_move_end(command: &Command) -> bool
    ensures { result ≡ is_move_end command.now }
{
    match command {
        Command::Advance { to: None, .. } => true,
        _ => false,
    }
}

/// Whether what a line says has the end of a move for its command.
#[tactic(auto, unfolding(crate::specs::Texts::says_move_end))]
fn says_move_end(act: &LineAct) -> bool
    ensures { result ≡ says_move_end act.now }
{
    match act {
        LineAct::Event(LineEvent::Propose { command, .. }) => is_move_end(command),
        LineAct::Short(Shorthand::Step { command, .. }) => is_move_end(command),
        LineAct::Short(Shorthand::Force { command, .. }) => is_move_end(command),
        _ => false,
    }
}

/// Whether the line ends a move.
#[tactic(auto, unfolding(crate::specs::Texts::ends_move))]
fn ends_move(line: &SchedLine) -> bool
    ensures { result ≡ ends_move line.now }
{
    says_move_end(&line.act)
}

/// How many lines of the schedule end a move.
fn moved_count(schedule: &Schedule) -> usize
    ensures { result ≡ moved_count schedule.now }
{
    let mut moved = 0;
    for line in schedule.lines.as_slice() {
        if ends_move(line) {
            moved += 1;
        }
    }
    moved
}

/// The line of these counts.
fn counts_line(
    alloc: Global,
    n: u64,
    events: usize,
    tally: Tally,
    moved: usize,
) -> Result<Line, NoMemory>
    ensures { IfOk result (λ text. text ≡
        counts_line n events tally.replies tally.log tally.version tally.fence moved) }
{
    let replies = tally.replies;
    let log = tally.log;
    let version = tally.version.0;
    let fence = tally.fence.0;
    let text = format!(in alloc;
        "gen {n} events {events} replies {replies} log {log} version {version} fence {fence} moved {moved}\n"
    )?;
    Ok(Items::from_vec(text.into_bytes()))
}

/// The line that sums up the play of the made schedule of this number.
fn summary_line(
    alloc: Global,
    n: u64,
    schedule: &Schedule,
    journal: &Journal,
) -> Result<Line, NoMemory>
    ensures { IfOk result (λ text. text ≡ summary_line n schedule.now journal.now) }
{
    let tally = end_tally(alloc, journal)?;
    let events = journal.entries.as_slice().len();
    counts_line(alloc, n, events, tally, moved_count(schedule))
}

/// The report of a journal, and a line for each repaired read.
fn reads_lines(alloc: Global, journal: &Journal) -> Result<LineList, NoMemory>
    ensures { IfOk result (λ lines. lines ≡ reads_report journal.now) }
{
    let mut all = lines(alloc, journal)?;
    add_repaired(alloc, journal, &mut all)?;
    Ok(all)
}

/// The report of the machine's journal, and the lines of the plan that evens out the tablets of its log's state.
fn balance_lines(alloc: Global, machine: &Machine) -> Result<LineList, NoMemory>
    ensures { IfOk result (λ lines. lines ≡ balance_report machine.now) }
{
    let mut all = lines(alloc, machine.journal())?;
    add_balance(alloc, machine.log().state(), &mut all)?;
    Ok(all)
}

/// What is written of a schedule's play that came to its end.
pub(crate) fn form_lines(
    alloc: Global,
    form: Form,
    schedule: &Schedule,
    machine: &Machine,
) -> Result<LineList, NoMemory>
    ensures { IfOk result (λ lines. lines ≡ form_lines form schedule.now machine.now) }
{
    match form {
        Form::Report => lines(alloc, machine.journal()),
        Form::Summary(n) => {
            let mut lines = Items::new(alloc);
            let line = summary_line(alloc, n, schedule, machine.journal())?;
            lines.push(line)?;
            Ok(lines)
        }
        Form::Repaired => reads_lines(alloc, machine.journal()),
        Form::Planned => balance_lines(alloc, machine),
    }
}
