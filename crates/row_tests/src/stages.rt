// Whom writes and reads ask at each stage of a move.
use crate::driver::{joined, played};
use cluster_history::{Entry, Message, Output};
use std::alloc::Global;
use std::process::Abort;
use std::test::Fail;

/// A stage, the lines before the move goes there, and which hosts a write and a read ask then.
type Step = (&'static str, &'static [u8], &'static [u16], &'static [u16]);

/// Hosts 0 to 3, table 1 of one tablet on the first three, and the start of its move from host 2 to host 3.
const START: &[u8] =
    b"tablets 1\nhosts 4\nlanes 1\ntable 1 0 0:0 1:0 2:0\ngo\nstep 0 start 1 0 2:0 3:0\n";

/// A write and a read of host 3.
const REQUESTS: &[u8] = b"begin 3.0 write 1 5 live:1:61\nbegin 3.0 read 1 5\n";

/// The replicas before the move, all of them, and those after it.
const OLD: &[u16] = &[0, 1, 2];

const BOTH: &[u16] = &[0, 1, 2, 3];

const NEW: &[u16] = &[0, 1, 3];

/// A move to its end.
const FORWARD: [Step; 7] = [
    ("write_both_read_old", b"", BOTH, OLD),
    ("streaming", b"", BOTH, OLD),
    ("write_both_read_new", b"stream 0 1\n", BOTH, NEW),
    ("use_new", b"", NEW, NEW),
    ("cleanup", b"", NEW, NEW),
    ("end_migration", b"tidy 0 1\n", NEW, NEW),
    ("none", b"", NEW, NEW),
];

/// A move that goes back from the last stage that may.
const BACK: [Step; 7] = [
    ("write_both_read_old", b"", BOTH, OLD),
    ("streaming", b"", BOTH, OLD),
    ("write_both_read_new", b"stream 0 1\n", BOTH, NEW),
    ("write_both_read_old_fallback_cleanup", b"", BOTH, OLD),
    ("cleanup_target", b"", OLD, OLD),
    ("revert_migration", b"tidy 0 1\n", OLD, OLD),
    ("none", b"", OLD, OLD),
];

/// Whether the entry asks these hosts in this order, and nobody else.
fn asks(entry: &Entry, hosts: &[u16]) -> bool {
    let asked = entry.outputs.as_slice().iter().map(|output| match output {
        Output::Sent(Message::Write(ask)) => ask.to.host.0,
        Output::Sent(Message::Read(ask)) => ask.to.host.0,
        _ => u16::MAX,
    });
    asked.eq(hosts.iter().copied())
}

/// Plays the lines and then a write and a read, and compares whom they ask.
fn check_stage(alloc: Global, lines: &[u8], step: &Step) -> Result<bool, Fail> {
    let text = joined(alloc, [lines, REQUESTS].as_slice())?;
    let ran = played(alloc, text.as_slice())?;
    let [.., write, read] = ran.journal.entries.as_slice() else {
        return Err(Fail::from("no request began"));
    };
    Ok(ran.status == 0 && asks(write, step.2) && asks(read, step.3))
}

/// Passes the stages one after the other.
fn check_stages(rt: &impl Abort, alloc: Global, steps: &[Step]) -> Result<(), Fail> {
    let first = ("allow_write_both_read_old", b"".as_slice(), OLD, OLD);
    let mut lines = joined(alloc, [START].as_slice())?;
    assert!(rt; check_stage(alloc, lines.as_slice(), &first)?);
    for step in steps {
        let stage = step.0.as_bytes();
        let more = [lines.as_slice(), step.1, b"step 0 advance 1 ", stage, b"\n"];
        lines = joined(alloc, more.as_slice())?;
        assert!(rt; check_stage(alloc, lines.as_slice(), step)?, "{}", step.0);
    }
    Ok(())
}

#[test]
fn a_move_passes_its_ten_stages(rt: HostRuntime) -> Result<(), Fail> {
    check_stages(&rt, rt.alloc(), FORWARD.as_slice())?;
    check_stages(&rt, rt.alloc(), BACK.as_slice())
}
