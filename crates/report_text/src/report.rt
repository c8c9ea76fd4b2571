//! The report of a journal.
ghost use Rattle.std.specs.Prelude.{◌≡◌, ◌+◌, ◌-◌, ◌<◌, ◌^◌, IfOk, option_copied};
ghost use Rattle.topo_state.specs.After.{fence_set};
ghost use Rattle.cluster_history.specs.Legal.{history_of};
ghost use Rattle.cluster_history.specs.Topology.{accepted_command};
ghost use Rattle.report_text.specs.Report.{report_lines, report};
ghost use Rattle.report_text.specs.Tally.{IsTally, tally_after};

use crate::entries::{add_entry, entry_replies};
use crate::texts::end_line;
use base_ids::{Appended, FIRST_VERSION, Items, Line, NoMemory, Version};
use cluster_history::{Entry, Event, Journal, Output};
use std::alloc::Global;
use topo_state::Command;

/// Lines of text in order, each with its line feed.
pub type LineList = Items<Line>;

/// What the end line tells of the entries so far.
#[derive(Clone, Copy)]
pub struct Tally {
    /// The count of replies of lanes.
    pub replies: usize,
    /// The count of accepted commands.
    pub log: u64,
    /// The version of the log's state.
    pub version: Version,
    /// The fence of the log's state.
    pub fence: Version,
}

/// The version that a command sets the fence to.
fn fence_set(command: &Command) -> Option<Version>
    ensures { result ≡ fence_set command.now }
{
    match command {
        Command::SetFence(version) => Some(*version),
        Command::CreateTable { .. }
        | Command::Start { .. }
        | Command::Advance { .. }
        | Command::Join(_)
        | Command::Leave(_)
        | Command::Resize { .. }
        | Command::FinalizeResize { .. } => None,
    }
}

/// The command that an entry adds to the log.
fn accepted_command(entry: &Entry) -> Option<&Command>
    ensures { option_copied result ≡ accepted_command entry.now.event entry.now.outputs }
{
    match (&entry.event, entry.outputs.as_slice()) {
        (Event::Propose { command, .. }, [Output::Proposed(Appended::Accepted { .. }), ..]) => {
            Some(command)
        }
        _ => None,
    }
}

/// The tally with a command that was accepted, if one was.
fn tally_after(tally: Tally, command: Option<&Command>) -> Tally
    requires log { tally.log < 2 ^ 64 - 1 }
    requires version { tally.version.0 < 2 ^ 64 - 1 }
    ensures { result ≡ tally_after tally (option_copied command.entry) }
{
    let Some(command) = command else {
        return tally;
    };
    match fence_set(command) {
        Some(fence) => Tally {
            replies: tally.replies,
            log: tally.log + 1,
            version: tally.version,
            fence,
        },
        None => Tally {
            replies: tally.replies,
            log: tally.log + 1,
            version: Version(tally.version.0 + 1),
            fence: tally.fence,
        },
    }
}

/// The lines of the entries, and what the end line tells.
fn told(alloc: Global, journal: &Journal) -> Result<(LineList, Tally), NoMemory>
    ensures lines { IfOk result (λ told. told.0 ≡ report_lines journal.now) }
    ensures tally { IfOk result (λ told. IsTally journal.now.opening (history_of journal.now) told.1) }
{
    let mut lines = Items::new(alloc);
    let mut tally = Tally {
        replies: 0,
        log: 0,
        version: FIRST_VERSION,
        fence: FIRST_VERSION,
    };
    for entry in journal.entries.as_slice() {
        tally = tally_after(tally, accepted_command(entry));
        add_entry(alloc, tally.version, entry, &mut lines)?;
        let replies = entry_replies(entry);
        prove!(replies <= lines.as_slice().len() - tally.replies);
        tally.replies += replies;
    }
    Ok((lines, tally))
}

/// The report of the journal without its end line. `NoMemory` comes where memory for its lines is refused.
pub fn report_lines(alloc: Global, journal: &Journal) -> Result<LineList, NoMemory>
    ensures { IfOk result (λ lines. lines ≡ report_lines journal.now) }
{
    let (lines, _tally) = told(alloc, journal)?;
    Ok(lines)
}

/// The report of the journal. `NoMemory` comes where memory for its lines is refused.
pub fn lines(alloc: Global, journal: &Journal) -> Result<LineList, NoMemory>
    ensures { IfOk result (λ lines. lines ≡ report journal.now) }
{
    let (mut lines, tally) = told(alloc, journal)?;
    let end = end_line(alloc, tally.replies, tally.log, tally.version, tally.fence)?;
    lines.push(end)?;
    Ok(lines)
}

/// What the end line of the journal's report tells. `NoMemory` comes where memory for that is refused.
pub fn end_tally(alloc: Global, journal: &Journal) -> Result<Tally, NoMemory>
    ensures { IfOk result (λ tally. IsTally journal.now.opening (history_of journal.now) tally) }
{
    let (_lines, tally) = told(alloc, journal)?;
    Ok(tally)
}
