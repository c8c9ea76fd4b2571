//! The lines of repaired reads.
ghost use Rattle.std.specs.Prelude.{◌≡◌, ◌++◌, IfOk, OnOk};
ghost use Rattle.std.specs.String.{string_bytes};
ghost use Rattle.cluster_history.specs.Legal.{history_of};
ghost use Rattle.report_text.specs.Report.{found_text};
ghost use Rattle.further_report.specs.Lines.{repaired_line, repaired_lines};

use base_ids::{Items, Line, NoMemory};
use cell_merge::Cell;
use cluster_history::Journal;
use monotone_read::{Repaired, repaired_reads};
use report_text::LineList;
use schedule_words::cell_text;
use std::alloc::Global;

/// The text of what a read found.
fn found_text(alloc: Global, found: &Option<Cell>) -> Result<String, NoMemory>
    ensures { IfOk result (λ text. string_bytes text ≡ found_text found.now) }
{
    match found {
        None => Ok(String::from_str(alloc, "none")?),
        Some(cell) => Ok(cell_text(alloc, cell)?),
    }
}

/// The line of a repaired read.
fn repaired_line(alloc: Global, read: &Repaired) -> Result<Line, NoMemory>
    ensures { IfOk result (λ line. line ≡ repaired_line read.now) }
{
    let host = read.lane.host.0;
    let lane = read.lane.lane;
    let op = read.op.0;
    let found = found_text(alloc, &read.cell)?;
    let line = format!(in alloc; "repaired {host}.{lane} {op} {found}\n")?;
    Ok(Items::from_vec(line.into_bytes()))
}

/// Adds a line for each repaired read of the journal. `NoMemory` comes where memory for them is refused, and then some
/// of them may have been added.
pub fn add_repaired(alloc: Global, journal: &Journal, lines: &mut LineList) -> Result<(), NoMemory>
    ensures { OnOk result (lines.new ≡ lines.old ++ repaired_lines (history_of journal.now)) }
{
    let reads = repaired_reads(alloc, journal)?;
    for read in reads.as_slice() {
        let line = repaired_line(alloc, read)?;
        lines.push(line)?;
    }
    Ok(())
}
