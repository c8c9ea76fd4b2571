// Each event breaks each of its rules. Entries are named by their numbers: a step on four hosts makes 22 of them.
use crate::driver::{joined, played};
use base_ids::EventRule;
use std::alloc::Global;
use std::process::Abort;
use std::str;
use std::test::Fail;

/// What is played first, an event after it, and the rule that the event breaks.
type Case = (&'static [u8], &'static [u8], EventRule);

/// Hosts 0 to 3 of two lanes each, and table 1 of one tablet on the first three.
const FOUR: &[u8] = b"tablets 1\nhosts 4\nlanes 2\ntable 1 0 0:0 1:0 2:0\ngo\n";

/// Lane 0 of host 0 has as many live requests as it may.
const FULL: &[u8] =
    b"begin 0.0 read 1 5\nbegin 0.0 read 1 5\nbegin 0.0 read 1 5\nbegin 0.0 read 1 5\n\
begin 0.0 read 1 5\nbegin 0.0 read 1 5\nbegin 0.0 read 1 5\nbegin 0.0 read 1 5\n";

/// Version 2, at which lane 1 of host 0 has a live request of version 1.
const LIVE: &[u8] = b"begin 0.1 read 1 5\nstep 0 create 2 0 1:0\n";

/// Version 2, below which no host begins anything, host 0 has restarted and the coordinators have heard nothing.
const QUIET: &[u8] =
    b"step 0 create 2 0 1:0\ndrain 0\nrestart host 0\nrestart lane 0.0\nrestart topo 0\n";

/// A request that was lost, and one that was decided at once.
const LOST: &[u8] = b"begin 0.0 read 1 5\nrestart lane 0.0\nbegin 0.0 read 9 5\n";

/// 1: three asks of lane 0.0. 2: its answer of host 0. 3 and 4: asks of coordinator 1 to host 2. 5 and 6: what that
/// told. 7: a reply.
const ASKED: &[u8] =
    b"begin 0.0 write 1 5 live:1:61\nserve 0 1.0\nask 1 2 drain 1\nask 1 2 clean 1\n\
answer 2 3.0\nclean 2 4.0\nbegin 0.0 read 9 5\n";

/// 1 to 4: what host 1 is asked, and is not so.
const UNTRUE: &[u8] = b"ask 0 1 drain 2\nask 0 1 fence 2\nask 0 1 done 1\nask 0 1 ready 1\n";

/// Session 1 moves a replica from host 2 to host 3; after 66 entries it is in `streaming`.
const STREAMING: &[u8] =
    b"step 0 start 1 0 2:0 3:0\nstep 0 advance 1 write_both_read_old\nstep 0 advance 1 streaming\n";

/// 67: the ask for a chunk, 68: the chunk, 69: the pull is done.
const PULLED: &[u8] = b"step 0 start 1 0 2:0 3:0\nstep 0 advance 1 write_both_read_old\n\
step 0 advance 1 streaming\nstream 0 1\n";

/// 70: the ask for the done pull, which host 3 has lost since.
const DROPPED: &[u8] = b"step 0 start 1 0 2:0 3:0\nstep 0 advance 1 write_both_read_old\n\
step 0 advance 1 streaming\nstream 0 1\nrestart host 3\n";

/// Session 1 streams nothing any more, and host 2 is to be cleaned.
const CLEANING: &[u8] = b"step 0 start 1 0 2:0 3:0\nstep 0 advance 1 write_both_read_old\n\
step 0 advance 1 streaming\nstream 0 1\nstep 0 advance 1 write_both_read_new\n\
step 0 advance 1 use_new\nstep 0 advance 1 cleanup\ndrain 0\n";

/// Session 1 goes back, and host 3 is to be cleaned.
const BACK: &[u8] = b"step 0 start 1 0 2:0 3:0\nstep 0 advance 1 cleanup_target\ndrain 0\n";

/// Table 1 is to be split, of whose hosts one has told that it is ready.
const SPLIT: &[u8] =
    b"step 0 resize 1 split\nq: ask 0 1 ready 1\na: answer 1 q.0\nhear 0 a.0\ndrain 0\n";

/// 23: an ask whether host 0 is ready for a split, which is over.
const FINALIZED: &[u8] = b"step 0 resize 1 split\nready 0 1\nstep 0 finalize 1 1\n";

/// Session 1 is in `streaming`, and nothing was pulled.
const UNDONE: &[u8] = b"step 0 start 1 0 2:0 3:0\nstep 0 advance 1 write_both_read_old\n\
step 0 advance 1 streaming\ndrain 0\n";

/// Host 0 has told of its floor, and the others have told of their fences.
const MIXED: &[u8] =
    b"look 0\nask 0 0 drain 1\nanswer 0 2.0\nhear 0 3.0\nask 0 1 fence 1\nanswer 1 5.0\n\
hear 0 6.0\nask 0 2 fence 1\nanswer 2 8.0\nhear 0 9.0\nask 0 3 fence 1\nanswer 3 11.0\nhear 0 12.0\n";

const OF_LANES: [Case; 14] = [
    (b"", b"begin 0.0 read 1 5 at 0\n", EventRule::BelowFloor),
    (QUIET, b"begin 0.1 read 1 5 at 1\n", EventRule::BelowFloor),
    (b"", b"begin 0.0 read 1 5 at 2\n", EventRule::AboveVersion),
    (FULL, b"begin 0.0 read 1 5 at 2\n", EventRule::AboveVersion),
    (FULL, b"begin 0.0 read 1 5 at 1\n", EventRule::LaneFull),
    (b"", b"timeout 0.0 1\n", EventRule::NoRequest),
    (FULL, b"timeout 0.0 9\n", EventRule::NoRequest),
    (FULL, b"timeout 0.1 1\n", EventRule::NoRequest),
    (LOST, b"timeout 0.0 1\n", EventRule::NoRequest),
    (LOST, b"timeout 0.0 2\n", EventRule::NoRequest),
    (b"", b"apply 3\n", EventRule::NothingToApply),
    (b"", b"quiet 0 2\n", EventRule::VersionAhead),
    (LIVE, b"quiet 0 3\n", EventRule::VersionAhead),
    (LIVE, b"quiet 0 2\n", EventRule::LiveBelow),
];

const OF_MESSAGES: [Case; 24] = [
    (ASKED, b"take 0.0 1.3\n", EventRule::NoMessage),
    (ASKED, b"take 0.0 1.0\n", EventRule::WrongMessage),
    (ASKED, b"take 0.1 2.0\n", EventRule::WrongMessage),
    (ASKED, b"take 0.0 7.0\n", EventRule::WrongMessage),
    (ASKED, b"serve 0 0.0\n", EventRule::NoMessage),
    (ASKED, b"serve 1 1.0\n", EventRule::WrongMessage),
    (ASKED, b"serve 2 3.0\n", EventRule::WrongMessage),
    (PULLED, b"serve 3 67.0\n", EventRule::WrongMessage),
    (ASKED, b"answer 2 8.0\n", EventRule::NoMessage),
    (ASKED, b"answer 1 3.0\n", EventRule::WrongMessage),
    (ASKED, b"answer 2 4.0\n", EventRule::WrongMessage),
    (UNTRUE, b"answer 0 1.0\n", EventRule::WrongMessage),
    (ASKED, b"clean 2 4.1\n", EventRule::NoMessage),
    (ASKED, b"clean 1 4.0\n", EventRule::WrongMessage),
    (ASKED, b"clean 2 3.0\n", EventRule::WrongMessage),
    (PULLED, b"chunk 3 69.1\n", EventRule::NoMessage),
    (PULLED, b"chunk 3 67.0\n", EventRule::WrongMessage),
    (PULLED, b"chunk 2 68.0\n", EventRule::WrongMessage),
    (PULLED, b"chunk 3 69.0\n", EventRule::WrongMessage),
    (ASKED, b"hear 1 8.0\n", EventRule::NoMessage),
    (ASKED, b"hear 1 3.0\n", EventRule::WrongMessage),
    (ASKED, b"hear 0 5.0\n", EventRule::WrongMessage),
    (ASKED, b"hear 2 6.0\n", EventRule::WrongMessage),
    (PULLED, b"hear 0 22.0\n", EventRule::NoMessage),
];

const OF_MOVES: [Case; 22] = [
    (UNTRUE, b"answer 1 1.0\n", EventRule::NotTrue),
    (UNTRUE, b"answer 1 2.0\n", EventRule::NotTrue),
    (UNTRUE, b"answer 1 3.0\n", EventRule::NotTrue),
    (UNTRUE, b"answer 1 4.0\n", EventRule::NotTrue),
    (DROPPED, b"answer 3 70.0\n", EventRule::NotTrue),
    (FINALIZED, b"answer 0 23.0\n", EventRule::NotTrue),
    (b"", b"pull 3 1\n", EventRule::NoStream),
    (STREAMING, b"pull 2 1\n", EventRule::NoStream),
    (STREAMING, b"pull 3 2\n", EventRule::NoStream),
    (CLEANING, b"pull 3 1\n", EventRule::NoStream),
    (PULLED, b"pull 3 1\n", EventRule::PullOver),
    (b"", b"propose 0 leave 3\n", EventRule::NoEvidence),
    (QUIET, b"propose 0 leave 3\n", EventRule::NoEvidence),
    (b"drain 1\n", b"propose 0 leave 3\n", EventRule::NoEvidence),
    (
        b"drain 0\npropose 0 leave 3\nlook 0\n",
        b"propose 0 join 3\n",
        EventRule::NoEvidence,
    ),
    (MIXED, b"propose 0 leave 3\n", EventRule::NoEvidence),
    (
        UNDONE,
        b"propose 0 advance 1 write_both_read_new\n",
        EventRule::NoDone,
    ),
    (
        CLEANING,
        b"propose 0 advance 1 end_migration\n",
        EventRule::NoCleaned,
    ),
    (
        CLEANING,
        b"propose 0 advance 1 streaming\n",
        EventRule::NoCleaned,
    ),
    (
        BACK,
        b"propose 0 advance 1 revert_migration\n",
        EventRule::NoCleaned,
    ),
    (SPLIT, b"propose 0 finalize 1 1\n", EventRule::NoReady),
    (SPLIT, b"propose 1 finalize 1 1\n", EventRule::NoEvidence),
];

/// Plays the case, and compares the status and the last line.
fn check_case(rt: &impl Abort, alloc: Global, case: &Case) -> Result<(), Fail> {
    let (base, line, rule) = case;
    let text = joined(alloc, [FOUR, *base, *line].as_slice())?;
    let number = text.iter().filter(|byte| **byte == b'\n').count();
    let ran = played(alloc, text.as_slice())?;
    let output = str::from_utf8(ran.output.as_slice()).map_err(|_| "text")?;
    let wanted = format!(in alloc; "not-enabled line {number} {}\n", rule.word())?;
    assert_eq!(rt; ran.status, 4);
    assert!(rt; output.ends_with(wanted.as_str()), "{}", wanted.as_str());
    Ok(())
}

#[test]
fn events_break_their_rules(rt: HostRuntime) -> Result<(), Fail> {
    for cases in [OF_LANES.as_slice(), &OF_MESSAGES, &OF_MOVES] {
        for case in cases {
            check_case(&rt, rt.alloc(), case)?;
        }
    }
    Ok(())
}
