//! The lines of an entry.
ghost use Rattle.std.specs.List.{count_by};
ghost use Rattle.std.specs.Prelude.{◌≡◌, ◌++◌, option_to_list, IfOk, OnOk};
ghost use Rattle.report_text.specs.Report.{lane_line, topo_line, chunk_line, told_line, clean_line, output_line, entry_lines, is_of_lane, is_reply, entry_replies};

use crate::report::LineList;
use crate::texts::{cleaned_line, not_mine_line, proposal_line, pull_line, reply_line};
use barrier_core::What;
use base_ids::{HostId, LaneId, Line, NoMemory, Version};
use cluster_history::{Entry, Event, Message, Output};
use std::alloc::Global;

/// The line of an output of a lane.
fn lane_line(alloc: Global, lane: LaneId, output: &Output) -> Result<Option<Line>, NoMemory>
    ensures { IfOk result (λ line. line ≡ lane_line lane output.now) }
{
    match output {
        Output::Reply {
            op,
            version,
            kind,
            reply,
        } => Ok(Some(reply_line(alloc, lane, *op, *version, *kind, reply)?)),
        Output::Sent(_) | Output::Pulled { .. } | Output::Proposed(_) => Ok(None),
    }
}

/// The line of an output of a proposal.
fn topo_line(
    alloc: Global,
    topo: HostId,
    version: Version,
    output: &Output,
) -> Result<Option<Line>, NoMemory>
    ensures { IfOk result (λ line. line ≡ topo_line topo version output.now) }
{
    match output {
        Output::Proposed(outcome) => Ok(Some(proposal_line(alloc, topo, version, *outcome)?)),
        Output::Sent(_) | Output::Reply { .. } | Output::Pulled { .. } => Ok(None),
    }
}

/// The line of an output of a host that takes a chunk.
fn chunk_line(alloc: Global, host: HostId, output: &Output) -> Result<Option<Line>, NoMemory>
    ensures { IfOk result (λ line. line ≡ chunk_line host output.now) }
{
    match output {
        Output::Pulled { session } => Ok(Some(pull_line(alloc, host, *session)?)),
        Output::Sent(_) | Output::Reply { .. } | Output::Proposed(_) => Ok(None),
    }
}

/// The line of what a host that cleans tells the coordinator.
fn told_line(alloc: Global, host: HostId, message: &Message) -> Result<Option<Line>, NoMemory>
    ensures { IfOk result (λ line. line ≡ told_line host message.now) }
{
    match message {
        Message::Fact(fact) => match fact.what {
            What::Clean(session) => Ok(Some(cleaned_line(alloc, host, session)?)),
            What::Drain(_) | What::Fence(_) | What::Done(_) | What::Ready(_) => Ok(None),
        },
        Message::NotMine { session, .. } => Ok(Some(not_mine_line(alloc, host, *session)?)),
        Message::Write(_)
        | Message::Read(_)
        | Message::Answer(_)
        | Message::ChunkAsk(_)
        | Message::Chunk(_)
        | Message::Ask(_) => Ok(None),
    }
}

/// The line of an output of a host that cleans.
fn clean_line(alloc: Global, host: HostId, output: &Output) -> Result<Option<Line>, NoMemory>
    ensures { IfOk result (λ line. line ≡ clean_line host output.now) }
{
    match output {
        Output::Sent(message) => told_line(alloc, host, message),
        Output::Reply { .. } | Output::Pulled { .. } | Output::Proposed(_) => Ok(None),
    }
}

/// The line of an output of an event, by the version after it; most outputs have none.
fn output_line(
    alloc: Global,
    version: Version,
    event: &Event,
    output: &Output,
) -> Result<Option<Line>, NoMemory>
    ensures { IfOk result (λ line. line ≡ output_line version event.now output.now) }
{
    match event {
        Event::Begin { lane, .. } | Event::Take { lane, .. } | Event::Timeout { lane, .. } => {
            lane_line(alloc, *lane, output)
        }
        Event::Propose { topo, .. } => topo_line(alloc, *topo, version, output),
        Event::TakeChunk { host, .. } => chunk_line(alloc, *host, output),
        Event::Clean { host, .. } => clean_line(alloc, *host, output),
        Event::Apply { .. }
        | Event::Quiet { .. }
        | Event::Serve { .. }
        | Event::Answer { .. }
        | Event::Pull { .. }
        | Event::Look { .. }
        | Event::Ask { .. }
        | Event::Hear { .. }
        | Event::Restart { .. } => Ok(None),
    }
}

/// Whether the event is one of a lane.
fn is_of_lane(event: &Event) -> bool
    ensures { result ≡ is_of_lane event.now }
{
    match event {
        Event::Begin { .. } | Event::Take { .. } | Event::Timeout { .. } => true,
        Event::Apply { .. }
        | Event::Quiet { .. }
        | Event::Serve { .. }
        | Event::Answer { .. }
        | Event::Clean { .. }
        | Event::Pull { .. }
        | Event::TakeChunk { .. }
        | Event::Look { .. }
        | Event::Ask { .. }
        | Event::Hear { .. }
        | Event::Propose { .. }
        | Event::Restart { .. } => false,
    }
}

/// Whether an output is what a client is told.
fn is_reply(output: &Output) -> bool
    ensures { result ≡ is_reply output.now }
{
    match output {
        Output::Reply { .. } => true,
        Output::Sent(_) | Output::Pulled { .. } | Output::Proposed(_) => false,
    }
}

/// How many of the outputs are replies.
fn reply_outputs(outputs: &[Output]) -> usize
    ensures { result ≡ count_by is_reply outputs.now }
{
    let mut replies = 0;
    for output in outputs {
        if is_reply(output) {
            replies += 1;
        }
    }
    replies
}

/// How many replies an entry has: those of a lane, and none of others.
pub(crate) fn entry_replies(entry: &Entry) -> usize
    ensures { result ≡ entry_replies entry.now }
{
    if is_of_lane(&entry.event) {
        reply_outputs(entry.outputs.as_slice())
    } else {
        0
    }
}

/// Adds the line of an output, if it has one.
fn add_line(line: Option<Line>, lines: &mut LineList) -> Result<(), NoMemory>
    ensures { OnOk result (lines.new ≡ lines.old ++ option_to_list line) }
{
    match line {
        Some(line) => lines.push(line),
        None => Ok(()),
    }
}

/// Adds the lines of an entry, by the version after it.
pub(crate) fn add_entry(
    alloc: Global,
    version: Version,
    entry: &Entry,
    lines: &mut LineList,
) -> Result<(), NoMemory>
    ensures { OnOk result (lines.new ≡ lines.old ++ entry_lines version entry.now) }
{
    for output in entry.outputs.as_slice() {
        let line = output_line(alloc, version, &entry.event, output)?;
        add_line(line, lines)?;
    }
    Ok(())
}
