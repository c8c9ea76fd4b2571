// Journals as they are written: a header in full, and a line for each event. The forms were worked out by hand.
use crate::driver::{joined, played, traced};
use std::alloc::Global;
use std::str;
use std::test::Fail;

/// A text, and the written form of what its play does.
type Written = (&'static [u8], &'static [u8]);

const WRITTEN: [Written; 3] = [
    // A write is served, its lane restarts, and the answer comes.
    (
        b"tablets 1\nhosts 3\nlanes 1\ntable 1 0 0:0 1:0 2:0\ngo\n\
w: begin 0.0 write 1 5 live:10:61\na: serve 0 w.0\nrestart lane 0.0\ntake 0.0 a.0\n",
        b"tablets 2\nhosts 3\nlanes 1\nshards 1\nmembers 0 1 2\ntable 1 0 0:0 1:0 2:0\ngo\n\
begin 0.0 write 1 5 live:10:61 quorum at 1\nserve 0 1.0\nrestart lane 0.0\ntake 0.0 2.0\n",
    ),
    // A header in full, and a request at each level.
    (
        b"# levels\ntablets 2\r\nhosts 3\nlanes 2\nshards 2\nmembers 2 0\ntable 7 1 0:1 2:0\ntablet 7 1 2:1\n\
table 1 0 0:0\ngo\n begin 0.1 write 7 -5 live:-7:0aFF one\nbegin 0.1 write 07 -5 dead:-7:6 two at 1\n\
begin 2.0 read 7 5 three\nbegin 2.0 read 7 5 quorum\nbegin 2.0 read 7 5 all\nbegin 2.0 read 7 5\nrestart host 1\n\
restart topo 2",
        b"tablets 2\nhosts 3\nlanes 2\nshards 2\nmembers 2 0\ntable 7 1 0:1 2:0\ntablet 7 1 2:1\n\
table 1 0 0:0\ngo\nbegin 0.1 write 7 -5 live:-7:0aff one at 1\nbegin 0.1 write 7 -5 dead:-7:6 two at 1\n\
begin 2.0 read 7 5 three at 1\nbegin 2.0 read 7 5 quorum at 1\nbegin 2.0 read 7 5 all at 1\n\
begin 2.0 read 7 5 quorum at 1\nrestart host 1\nrestart topo 2\n",
    ),
    // A write while writes go to both lists, of whose three answers two come.
    (
        b"tablets 1\nhosts 4\nlanes 2\ntable 1 0 0:0 1:0 2:0\ngo\nstep 0 start 1 0 2:0 3:0\n\
step 0 advance 1 write_both_read_old\nw: begin 0.0 write 1 5 live:10:61\na: serve 0 w.0\nb: serve 1 w.1\n\
take 0.0 a.0\ntake 0.0 b.0\ntimeout 0.0 1\n",
        b"tablets 2\nhosts 4\nlanes 2\nshards 1\nmembers 0 1 2 3\ntable 1 0 0:0 1:0 2:0\ngo\nlook 0\nquiet 0 1\n\
ask 0 0 drain 1\nanswer 0 3.0\nhear 0 4.0\nquiet 1 1\nask 0 1 drain 1\nanswer 1 7.0\nhear 0 8.0\nquiet 2 1\n\
ask 0 2 drain 1\nanswer 2 11.0\nhear 0 12.0\nquiet 3 1\nask 0 3 drain 1\nanswer 3 15.0\nhear 0 16.0\n\
propose 0 start 1 0 2:0 3:0\napply 0\napply 1\napply 2\napply 3\nlook 0\nquiet 0 2\nask 0 0 drain 2\nanswer 0 25.0\n\
hear 0 26.0\nquiet 1 2\nask 0 1 drain 2\nanswer 1 29.0\nhear 0 30.0\nquiet 2 2\nask 0 2 drain 2\nanswer 2 33.0\n\
hear 0 34.0\nquiet 3 2\nask 0 3 drain 2\nanswer 3 37.0\nhear 0 38.0\npropose 0 advance 1 write_both_read_old\n\
apply 0\napply 1\napply 2\napply 3\nbegin 0.0 write 1 5 live:10:61 quorum at 3\nserve 0 45.0\nserve 1 45.1\n\
take 0.0 46.0\ntake 0.0 47.0\ntimeout 0.0 1\n",
    ),
];

#[test]
fn runs_are_written_as_their_single_events(rt: HostRuntime) -> Result<(), Fail> {
    for (text, form) in WRITTEN {
        let trace = traced(rt.alloc(), &played(rt.alloc(), text)?)?;
        assert_eq!(rt; str::from_utf8(trace.as_slice()), str::from_utf8(form));
    }
    Ok(())
}

/// Hosts 0 to 3, and table 1 of one tablet on the first three.
const FOUR: &[u8] = b"tablets 2\nhosts 4\nlanes 1\ntable 1 0 0:0 1:0 2:0\ngo\n";

/// What is played first, a shorthand after it, and its events one by one.
type Pair = (&'static [u8], &'static [u8], &'static [u8]);

const PAIRS: [Pair; 4] = [
    // Host 3 is no member any more, which no host knows, and it drains as the others do.
    (
        b"drain 0\npropose 0 leave 3\n",
        b"drain 1\n",
        b"look 1\napply 0\nquiet 0 2\np: ask 1 0 drain 2\na: answer 0 p.0\nhear 1 a.0\n\
apply 1\nquiet 1 2\nq: ask 1 1 drain 2\nb: answer 1 q.0\nhear 1 b.0\n\
apply 2\nquiet 2 2\nr: ask 1 2 drain 2\nc: answer 2 r.0\nhear 1 c.0\n\
apply 3\nquiet 3 2\ns: ask 1 3 drain 2\nd: answer 3 s.0\nhear 1 d.0\n",
    ),
    // A fence that is set at the log's version is applied by each host.
    (
        b"drain 0\npropose 0 leave 3\n",
        b"fence 2\n",
        b"look 2\npropose 2 fence 2\nlook 2\napply 0\napply 0\np: ask 2 0 fence 2\na: answer 0 p.0\nhear 2 a.0\n\
apply 1\napply 1\nq: ask 2 1 fence 2\nb: answer 1 q.0\nhear 2 b.0\n\
apply 2\napply 2\nr: ask 2 2 fence 2\nc: answer 2 r.0\nhear 2 c.0\n\
apply 3\napply 3\ns: ask 2 3 fence 2\nd: answer 3 s.0\nhear 2 d.0\n",
    ),
    // Each host of the table tells that it is ready for a split.
    (
        b"drain 0\npropose 0 resize 1 split\n",
        b"ready 1 1\n",
        b"apply 0\np: ask 1 0 ready 1\na: answer 0 p.0\nhear 1 a.0\napply 1\nq: ask 1 1 ready 1\nb: answer 1 q.0\n\
hear 1 b.0\napply 2\nr: ask 1 2 ready 1\nc: answer 2 r.0\nhear 1 c.0\n",
    ),
    // One of two hosts that answer a read has a cell, which is then written to both.
    (
        b"w: begin 0.0 write 1 5 live:10:61\nserve 0 w.0\n",
        b"mono 1.0 1 5\n",
        b"r: begin 1.0 read 1 5\na: serve 0 r.0\ntake 1.0 a.0\nb: serve 1 r.1\ntake 1.0 b.0\n\
v: begin 1.0 write 1 5 live:10:61\nc: serve 0 v.0\ntake 1.0 c.0\nd: serve 1 v.1\ntake 1.0 d.0\n",
    ),
];

/// The written form of what the play of these lines does after the base.
fn trace(alloc: Global, base: &[u8], lines: &[u8]) -> Result<Vec<u8>, Fail> {
    let text = joined(alloc, [FOUR, base, lines].as_slice())?;
    traced(alloc, &played(alloc, text.as_slice())?)
}

#[test]
fn shorthands_stand_for_their_events(rt: HostRuntime) -> Result<(), Fail> {
    for (base, shorthand, events) in PAIRS {
        let short = trace(rt.alloc(), base, shorthand)?;
        let long = trace(rt.alloc(), base, events)?;
        assert_eq!(rt;
            str::from_utf8(short.as_slice()),
            str::from_utf8(long.as_slice())
        );
    }
    Ok(())
}
