// Single calls: forms of lines, made schedules, needs of levels, and earlier states of a log.
ghost use Rattle.topo_state.specs.Rules.{IsFit};

use base_ids::{Appended, HostId, Items, NoMemory, StateId};
use group0_log::Log;
use schedule_gen::schedule;
use schedule_lines::line_act;
use schedule_words::{Counts, Format, Labels};
use shared_value::Shared;
use stage_graph::{Kind, Level, Stage, needed};
use std::alloc::Global;
use std::test::Fail;
use topo_state::{Command, Rule, TopoState};

/// A line of each form that may stand behind the header, with numbers at their ends.
const FORMS: [&[u8]; 42] = [
    b"begin 0.0 write 007 -5 live:-9:6aF0",
    b"begin 2.1 write 7 5 live:1: at 18446744073709551615",
    b"begin 0.0 read 4294967295 -9223372036854775807 at 1",
    b"x: begin 0.0 write 7 5 dead:-9223372036854775808:4294967295",
    b"take 0.0 w.00",
    b"timeout 0.0 0",
    b"apply 0",
    b"quiet 0 2",
    b"serve 0 w.0",
    b"answer 0 0.4294967295",
    b"clean 0 1.0",
    b"pull 0 1",
    b"chunk 0 1.0",
    b"look 2",
    b"ask 0 2 ready 1",
    b"hear 0 1.0",
    b"restart host 0",
    b"restart lane 0.1",
    b"abcdefghijklm012: restart topo 2",
    b"propose 0 create 1 10 9:9 9:9 9:9 9:9 9:9 9:9 9:9 9:9",
    b"propose 0 start 1 0 9:0 65535:255",
    b"propose 0 advance 1 write_both_read_old_fallback_cleanup",
    b"propose 0 advance 1 none",
    b"propose 0 fence 1",
    b"propose 0 join 9",
    b"propose 0 leave 9",
    b"propose 0 resize 1 keep",
    b"propose 0 finalize 1 1",
    b" sync ",
    b"do 0.0 read 7 0",
    b"drain 0",
    b"fence 0",
    b"step 0 join 1",
    b"force 0 join 1",
    b"stream 0 1",
    b"tidy 0 1",
    b"ready 0 1",
    b"begin 0.0 write 7 5 live:1:61 all",
    b"begin 2.1 read 7 5 one at 2",
    b"do 0.0 write 7 0 dead:1:2 two",
    b"do 0.0 read 7 0 three",
    b"begin 0.0 read 7 5 quorum",
];

/// Whether a line says something on 3 hosts with 2 lanes each, behind a line 6 with the label `w`.
fn is_read(alloc: Global, line: &'static [u8]) -> Result<bool, NoMemory> {
    let counts = Counts {
        format: Format::Two,
        hosts: 3,
        lanes: 2,
    };
    let mut labels = Labels::new(alloc);
    labels.keep(Some(b"w".as_slice()), 6)?;
    Ok(line_act(alloc, &counts, &labels, line).is_ok())
}

#[test]
fn lines_of_each_form_are_read(rt: HostRuntime) -> Result<(), Fail> {
    for line in FORMS {
        assert!(rt; is_read(rt.alloc(), line)?);
    }
    Ok(())
}

/// The first lines of the schedule of 7, with a write, a read, a deletion, a start and a step of a move. They were
/// drawn by another program.
const HEAD: &str = "tablets 1
hosts 5
lanes 1
table 1 2 0:0 1:0 2:0
tablet 1 1 1:0 2:0 3:0
tablet 1 2 2:0 3:0 4:0
tablet 1 3 3:0 4:0 0:0
go
do 1.0 write 1 1 live:1:5f
do 1.0 read 1 -2594073385365405695
step 0 start 1 3 3:0 1:0
do 1.0 write 1 -1441151880758558719 live:4:dc
do 4.0 read 1 864691128455135233
do 2.0 write 1 1441151880758558721 dead:6:6
";

#[test]
fn a_schedule_is_drawn_from_its_number(rt: HostRuntime) -> Result<(), Fail> {
    let bytes = schedule(rt.alloc(), 7)?;
    assert_eq!(rt; bytes.len(), 40575);
    assert!(rt; bytes.as_slice().starts_with(HEAD.as_bytes()));
    Ok(())
}

#[test]
fn levels_have_their_needs(rt: HostRuntime) {
    let streaming = Some(Stage::Streaming);
    let reading_new = Some(Stage::WriteBothReadNew);
    assert_eq!(rt; needed(Kind::Write, Level::All, 3, streaming), 4);
    assert_eq!(rt; needed(Kind::Read, Level::Three, 2, None), 2);
    assert_eq!(rt; needed(Kind::Read, Level::Quorum, 4, None), 3);
    assert_eq!(rt; needed(Kind::Write, Level::One, 1, reading_new), 2);
}

/// Hosts 0 to 3 of one shard each, of which 0 to 2 are members, and no tables.
fn opening(alloc: Global) -> Result<TopoState, NoMemory> {
    let members = vec![in alloc; HostId(0), HostId(1), HostId(2)]?;
    TopoState::new(alloc, 4, 1, Items::from_vec(members), Items::new(alloc))
}

/// Proposes a command after the last state was read. None at the greatest version.
fn propose(
    alloc: Global,
    log: &mut Log,
    command: Command,
) -> Result<Option<Appended<Rule>>, NoMemory>
    requires { IsFit command }
{
    if log.state().version().0 == u64::MAX {
        return Ok(None);
    }
    let read = StateId(log.len());
    let outcome = log.append(alloc, read, Shared::new(alloc, command)?)?;
    Ok(Some(outcome))
}

#[test]
fn earlier_states_are_made_anew(rt: HostRuntime) -> Result<(), Fail> {
    let alloc = rt.alloc();
    let mut log = Log::new(alloc, opening(alloc)?)?;
    let first = propose(alloc, &mut log, Command::Join(HostId(3)))?;
    assert_eq!(rt; first, Some(Appended::Accepted { index: 1 }));
    let second = propose(alloc, &mut log, Command::Leave(HostId(0)))?;
    assert_eq!(rt; second, Some(Appended::Accepted { index: 2 }));
    for (after, members) in [(0, 3), (1, 4), (2, 3)] {
        if after <= log.len() {
            assert_eq!(rt; log.state_at(alloc, after)?.members().len(), members);
        }
    }
    Ok(())
}
