use crate::barriers::BARRIERS;
use crate::driver::{Ends, SOUND, check_rows, run};
use crate::further::{BALANCES, READS};
use crate::moves::{MOVES, RESIZES};
use crate::refusals::{FAULTY_TEXTS, PAST_LIMITS};
use crate::requests::{LEVELS, REQUESTS};
use cluster_program::gen_main;
use fault_io::MemorySink;
use overlap_law::client_events;
use register_model::{ClientEvent, check};
use report_text::report_lines;
use std::alloc::Global;
use std::process::Abort;
use std::str;
use std::test::Fail;

/// The first word of each of the fifteen events, behind the end of a line.
const EVENTS: [&str; 15] = [
    "\nbegin ",
    "\ntake ",
    "\ntimeout ",
    "\napply ",
    "\nquiet ",
    "\nserve ",
    "\nanswer ",
    "\nclean ",
    "\npull ",
    "\nchunk ",
    "\nlook ",
    "\nask ",
    "\nhear ",
    "\npropose ",
    "\nrestart ",
];

#[test]
fn each_row_has_its_output_and_its_trace(rt: HostRuntime) -> Result<(), Fail> {
    let mut traces = Vec::new(rt.alloc());
    for rows in [REQUESTS, LEVELS, BARRIERS, MOVES, RESIZES] {
        check_rows(&rt, rt.alloc(), rows, &mut traces)?;
    }
    let traces = str::from_utf8(traces.as_slice()).map_err(|_| "text")?;
    for word in EVENTS {
        assert!(rt; traces.contains(word), "{word}");
    }
    Ok(())
}

#[test]
fn texts_at_fault_are_refused(rt: HostRuntime) -> Result<(), Fail> {
    for rows in [FAULTY_TEXTS, PAST_LIMITS] {
        check_rows(&rt, rt.alloc(), rows, &mut Vec::new(rt.alloc()))?;
    }
    Ok(())
}

#[test]
fn further_lines_follow_the_report(rt: HostRuntime) -> Result<(), Fail> {
    for (word, rows) in [("reads", READS), ("balance", BALANCES)] {
        for row in rows {
            let ran = run(rt.alloc(), &[word], row.text, SOUND)?;
            assert_eq!(rt; ran.status, row.status, "{}", row.name);
            let output = str::from_utf8(ran.output.as_slice());
            assert_eq!(rt; output, str::from_utf8(row.output), "{}", row.name);
        }
    }
    Ok(())
}

/// What is written where the words are no command.
const USAGE: &str = "usage: play | run | trace | gen N | reads | balance\n";

/// What `gen 7` writes.
const SEVEN: &str = "gen 7 events 7883 replies 879 log 121 version 122 fence 1 moved 15\n";

/// Words, the status, and what is written.
type Call = (&'static [&'static str], u8, &'static str);

/// Calls whose text nobody reads.
const CALLS: [Call; 16] = [
    (&["gen", "7"], 0, SEVEN),
    (&["gen", "7"], 0, SEVEN),
    (&["gen", "007"], 0, SEVEN),
    (&["gen", "-7"], 2, USAGE),
    (&["gen", "18446744073709551616"], 2, USAGE),
    (&["gen", "000000000000000000001"], 2, USAGE),
    (&["gen", "7", "7"], 2, USAGE),
    (&["gen"], 2, USAGE),
    (&["play", "x"], 2, USAGE),
    (&["reads", "x"], 2, USAGE),
    (&["balance", "1"], 2, USAGE),
    (&["plays"], 2, USAGE),
    (&["run"], 2, USAGE),
    (&["--", "play"], 2, USAGE),
    (&[""], 2, USAGE),
    (&[], 2, USAGE),
];

#[test]
fn words_ask_for_a_command_or_give_the_usage_line(rt: HostRuntime) -> Result<(), Fail> {
    for (words, status, output) in CALLS {
        let ran = run(rt.alloc(), words, b"hosts\n", SOUND)?;
        assert_eq!(rt; ran.status, status);
        assert_eq!(rt; str::from_utf8(ran.output.as_slice()), Ok(output));
    }
    Ok(())
}

/// Plays the row with six replies at these ends, and compares the status; what was written is a front of `whole`.
fn check_front(
    rt: &impl Abort,
    alloc: Global,
    ends: Ends,
    status: u8,
    whole: &[u8],
) -> Result<(), Fail> {
    let row = REQUESTS.get(3).ok_or("no such row")?;
    let ran = run(alloc, &["play"], row.text, ends)?;
    assert_eq!(rt; ran.status, status);
    assert!(rt; whole.starts_with(ran.output.as_slice()));
    assert!(rt; status == 6 || ran.output.as_slice() == whole);
    Ok(())
}

/// The ends with pieces of this size that are given, and a call of the source and one of the sink that fail.
const fn ends(given: usize, read_fails: u64, write_fails: u64) -> Ends {
    Ends {
        given,
        taken: 5,
        read_fails,
        write_fails,
    }
}

#[test]
fn pieces_and_faults_leave_a_front(rt: HostRuntime) -> Result<(), Fail> {
    let (alloc, fault) = (rt.alloc(), b"read-fault\n");
    let report = REQUESTS.get(3).ok_or("no such row")?.output;
    for given in [1, 7, 4096] {
        check_front(&rt, alloc, ends(given, 0, 0), 0, report)?;
        check_front(&rt, alloc, ends(given, 1, 0), 5, fault)?;
        check_front(&rt, alloc, ends(given, 2, 0), 5, fault)?;
    }
    // Each call that writes the first lines of the report in pieces of 5, and each that writes the line of a fault.
    for call in 1..=20 {
        check_front(&rt, alloc, ends(7, 0, call), 6, report)?;
    }
    for call in 1..=3 {
        check_front(&rt, alloc, ends(7, 1, call), 6, fault)?;
    }
    Ok(())
}

#[test]
fn a_sink_keeps_the_lines_before_its_fault(rt: HostRuntime) -> Result<(), Fail> {
    let third = Ends {
        given: 4096,
        taken: 4096,
        read_fails: 0,
        write_fails: 3,
    };
    let row = REQUESTS.get(3).ok_or("no such row")?;
    let ran = run(rt.alloc(), &["play"], row.text, third)?;
    assert_eq!(rt; ran.status, 6);
    let two = b"reply 0.0 1 v1 write ok\nreply 0.0 2 v1 write ok\n";
    assert_eq!(rt; ran.output.as_slice(), two.as_slice());
    Ok(())
}

/// Whether a line of a report tells that all went well.
fn is_good(line: &str) -> bool {
    line.contains(" ok")
        || line.contains(" accepted ")
        || line.ends_with(" done\n")
        || line.ends_with(" cleaned\n")
}

#[test]
fn all_goes_well_in_made_schedules(rt: HostRuntime) -> Result<(), Fail> {
    let alloc = rt.alloc();
    for n in 0..32 {
        let mut sink = MemorySink::new(alloc, 64, 4096, Vec::new(alloc))?;
        let outcome = gen_main(alloc, n, &mut sink);
        assert_eq!(rt; outcome.status, 0);
        for line in report_lines(alloc, &outcome.journal)?.as_slice() {
            let line = str::from_utf8(line.as_slice()).map_err(|_| "text")?;
            assert!(rt; is_good(line));
        }
    }
    Ok(())
}

#[test]
fn clients_of_a_move_see_a_register(rt: HostRuntime) -> Result<(), Fail> {
    let alloc = rt.alloc();
    let row = MOVES.get(2).ok_or("no such row")?;
    let ran = run(alloc, &["play"], row.text, SOUND)?;
    let mut events = client_events(alloc, &ran.journal)?;
    assert!(rt; check(alloc, events.as_slice())?);
    let Some(ClientEvent::ReadOk { request, .. }) = events.pop() else {
        return Err(Fail::from("the last event is no answer to a read"));
    };
    events.push(ClientEvent::ReadOk {
        request,
        cell: None,
    })?;
    assert!(rt; !check(alloc, events.as_slice())?);
    Ok(())
}
