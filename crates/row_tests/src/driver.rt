//! One call of the program over a source and a sink in memory, and what must come of it.
ghost use Rattle.std.specs.Prelude.{IfOk};
ghost use Rattle.cluster_history.specs.Legal.{IsLegalRun};

use base_ids::Items;
use cluster_history::Journal;
use cluster_program::{Words, cluster_main};
use fault_io::{MemorySink, MemorySource};
use schedule_write::write;
use std::alloc::Global;
use std::process::Abort;
use std::str;
use std::test::Fail;

/// A text that is played, and what must come of it.
pub(crate) struct Row {
    /// What the row shows.
    pub(crate) name: &'static str,
    /// What the source gives.
    pub(crate) text: &'static [u8],
    /// The status.
    pub(crate) status: u8,
    /// All that is written.
    pub(crate) output: &'static [u8],
}

/// In pieces of how many bytes the source gives and the sink takes, and which of their calls fail. No call has the
/// number 0.
#[derive(Clone, Copy)]
pub(crate) struct Ends {
    /// The greatest piece that is given, at least 1.
    pub(crate) given: usize,
    /// The greatest piece that is taken, at least 1.
    pub(crate) taken: usize,
    /// The call of the source that fails.
    pub(crate) read_fails: u64,
    /// The call of the sink that fails.
    pub(crate) write_fails: u64,
}

/// Small pieces, and no fault.
pub(crate) const SOUND: Ends = Ends {
    given: 7,
    taken: 5,
    read_fails: 0,
    write_fails: 0,
};

/// What came of a call.
#[derive(Drop)]
pub(crate) struct Ran {
    /// The status.
    pub(crate) status: u8,
    /// The journal that is kept.
    pub(crate) journal: Journal,
    /// All that was written.
    pub(crate) output: Vec<u8>,
}

/// Calls the program.
pub(crate) fn run(alloc: Global, words: &[&str], text: &[u8], ends: Ends) -> Result<Ran, Fail>
    ensures { IfOk result (λ ran. IsLegalRun ran.journal) }
{
    if ends.given == 0 || ends.taken == 0 {
        return Err(Fail::from("a piece has no byte"));
    }
    let mut list: Words = Items::new(alloc);
    for word in words {
        list.push(Items::from_vec(Vec::from_slice(alloc, word.as_bytes())?))?;
    }
    let bytes = Vec::from_slice(alloc, text)?;
    let mut source = MemorySource::new(bytes, ends.given, vec![in alloc; ends.read_fails]?);
    let mut sink = MemorySink::new(alloc, ends.taken, 65536, vec![in alloc; ends.write_fails]?)?;
    let outcome = cluster_main(alloc, &list, &mut source, &mut sink);
    Ok(Ran {
        status: outcome.status,
        journal: outcome.journal,
        output: Vec::from_slice(alloc, sink.content())?,
    })
}

/// Plays a text in small pieces, with no fault.
pub(crate) fn played(alloc: Global, text: &[u8]) -> Result<Ran, Fail>
    ensures { IfOk result (λ ran. IsLegalRun ran.journal) }
{
    run(alloc, &["play"], text, SOUND)
}

/// The pieces of a text as one.
pub(crate) fn joined(alloc: Global, pieces: &[&[u8]]) -> Result<Vec<u8>, Fail> {
    let mut text = Vec::new(alloc);
    for piece in pieces {
        text.extend_from_slice(piece)?;
    }
    Ok(text)
}

/// The written form of the journal that the play of a text keeps. It is played to the same output and the same form.
pub(crate) fn traced(alloc: Global, ran: &Ran) -> Result<Vec<u8>, Fail> {
    let trace = write(alloc, &ran.journal)?;
    let again = played(alloc, trace.as_slice())?;
    let form = write(alloc, &again.journal)?;
    let same_output = again.output.as_slice() == ran.output.as_slice();
    if again.status == 0 && same_output && form.as_slice() == trace.as_slice() {
        Ok(trace)
    } else {
        Err(Fail::from("the written form is not played to the same"))
    }
}

/// Plays the text of a row, and compares the status and the output. Where the play came to its end, what it is written
/// as is played again, and added to the traces.
fn check_row(rt: &impl Abort, alloc: Global, row: &Row, traces: &mut Vec<u8>) -> Result<(), Fail> {
    let ran = played(alloc, row.text)?;
    assert_eq!(rt; ran.status, row.status, "{}", row.name);
    let output = str::from_utf8(ran.output.as_slice());
    assert_eq!(rt; output, str::from_utf8(row.output), "{}", row.name);
    if ran.status == 0 {
        let trace = traced(alloc, &ran)?;
        traces.extend_from_slice(trace.as_slice())?;
    }
    Ok(())
}

/// Checks each row.
pub(crate) fn check_rows(
    rt: &impl Abort,
    alloc: Global,
    rows: &[Row],
    traces: &mut Vec<u8>,
) -> Result<(), Fail> {
    for row in rows {
        check_row(rt, alloc, row, traces)?;
    }
    Ok(())
}
