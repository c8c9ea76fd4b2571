// Texts that say no schedule: the first line at fault with its rule, or the limit that is passed.
use crate::driver::{Row, joined, played};
use std::str;
use std::test::Fail;

/// Texts of each rule.
pub(crate) const FAULTY_TEXTS: &[Row] = &[
    Row {
        name: "nothing",
        text: b"",
        status: 3,
        output: b"refused line 1 NoHeader\n",
    },
    Row {
        name: "half a word",
        text: b"tablets 1\nhosts 3\nlanes 1\ntable 1 0 0:0 1:0 2:0\ngo\nbegin 0.0 wri\n",
        status: 3,
        output: b"refused line 6 BadWord\n",
    },
    Row {
        name: "lines that are passed over",
        text: b"\n# c\n",
        status: 3,
        output: b"refused line 3 NoHeader\n",
    },
    Row {
        name: "a number with a leading zero is no format",
        text: b"\ntablets 01\n",
        status: 3,
        output: b"refused line 2 NoHeader\n",
    },
    Row {
        name: "a third format",
        text: b"tablets 3\n",
        status: 3,
        output: b"refused line 1 NoHeader\n",
    },
    Row {
        name: "a return that no end of a line follows",
        text: b"tablets 1\r",
        status: 3,
        output: b"refused line 1 NoHeader\n",
    },
    Row {
        name: "a comment with another byte",
        text: b"# \xff\ntablets 1\n",
        status: 3,
        output: b"refused line 1 BadWord\n",
    },
    Row {
        name: "no line begins the events",
        text: b"tablets 1\nhosts 2\n",
        status: 3,
        output: b"refused line 3 NoGo\n",
    },
    Row {
        name: "the format twice",
        text: b"tablets 1\ntablets 1\n",
        status: 3,
        output: b"refused line 2 BadHeader\n",
    },
    Row {
        name: "lanes before hosts",
        text: b"tablets 1\nlanes 1\n",
        status: 3,
        output: b"refused line 2 BadHeader\n",
    },
    Row {
        name: "no host",
        text: b"tablets 1\nhosts 0 x\n",
        status: 3,
        output: b"refused line 2 BadHeader\n",
    },
    Row {
        name: "a count of more than 16 bits",
        text: b"tablets 1\nhosts 70000\n",
        status: 3,
        output: b"refused line 2 BadNumber\n",
    },
    Row {
        name: "a return within a line",
        text: b"tablets 1\nhosts 2\r x\n",
        status: 3,
        output: b"refused line 2 BadNumber\n",
    },
    Row {
        name: "a count is left out",
        text: b"tablets 1\nhosts 2\nlanes\n",
        status: 3,
        output: b"refused line 3 BadWord\n",
    },
    Row {
        name: "lanes behind shards",
        text: b"tablets 1\nhosts 2\nshards 1\nlanes 1\n",
        status: 3,
        output: b"refused line 4 BadHeader\n",
    },
    Row {
        name: "no lanes",
        text: b"tablets 1\nhosts 2\ngo\n",
        status: 3,
        output: b"refused line 3 BadHeader\n",
    },
    Row {
        name: "a member twice",
        text: b"tablets 1\nhosts 2\nmembers 1 1\n",
        status: 3,
        output: b"refused line 3 BadHeader\n",
    },
    Row {
        name: "a member that is no host",
        text: b"tablets 1\nhosts 2\nmembers 1 2\n",
        status: 3,
        output: b"refused line 3 BadActor\n",
    },
    Row {
        name: "a replica on a host that is no member",
        text: b"tablets 1\nhosts 2\nmembers 1\ntable 1 0 1:0 0:0\n",
        status: 3,
        output: b"refused line 4 BadReplicas\n",
    },
    Row {
        name: "two replicas on one host",
        text: b"tablets 1\nhosts 3\nlanes 1\ntable 1 0 0:0 0:0\ngo\n",
        status: 3,
        output: b"refused line 4 BadReplicas\n",
    },
    Row {
        name: "a replica without a shard",
        text: b"tablets 1\nhosts 2\ntable 1 0 0:0 1\n",
        status: 3,
        output: b"refused line 3 BadWord\n",
    },
    Row {
        name: "a replica without a host",
        text: b"tablets 1\nhosts 2\ntable 1 0 :0\n",
        status: 3,
        output: b"refused line 3 BadNumber\n",
    },
    Row {
        name: "a tablet that the table has not",
        text: b"tablets 1\nhosts 2\ntable 1 0 0:0\ntablet 1 1 1:0\n",
        status: 3,
        output: b"refused line 4 BadHeader\n",
    },
    Row {
        name: "a header line behind the header",
        text: b"tablets 1\nhosts 2\nlanes 1\ngo\nhosts 2\n",
        status: 3,
        output: b"refused line 5 BadHeader\n",
    },
    Row {
        name: "a label twice, before a host that is not there",
        text: b"tablets 1\nhosts 2\nlanes 1\ngo\na: look 0\na: look 9\n",
        status: 3,
        output: b"refused line 6 LabelTwice\n",
    },
    Row {
        name: "a line that names itself",
        text: b"tablets 1\nhosts 2\nlanes 1\ngo\na: serve 0 a.0\n",
        status: 3,
        output: b"refused line 5 NoLabel\n",
    },
    Row {
        name: "a level in a text of the first version",
        text: b"tablets 1\nhosts 1\nlanes 1\ngo\ndo 0.0 read 1 5 one\n",
        status: 3,
        output: b"refused line 5 BadWord\n",
    },
    Row {
        name: "a level that there is not",
        text: b"tablets 2\nhosts 1\nlanes 1\ngo\ndo 0.0 read 1 5 most\n",
        status: 3,
        output: b"refused line 5 BadWord\n",
    },
    Row {
        name: "a level behind the version",
        text: b"tablets 2\nhosts 1\nlanes 1\ngo\nbegin 0.0 read 1 5 at 1 one\n",
        status: 3,
        output: b"refused line 5 BadWord\n",
    },
];

/// Texts of each limit that a text can pass before it is played, but for its length.
pub(crate) const PAST_LIMITS: &[Row] = &[
    Row {
        name: "65 hosts, before a fault of the same line",
        text: b"tablets 1\nhosts 65 x\n",
        status: 7,
        output: b"limit hosts\n",
    },
    Row {
        name: "five lanes",
        text: b"tablets 1\nhosts 1\nlanes 5\n",
        status: 7,
        output: b"limit lanes\n",
    },
    Row {
        name: "17 shards",
        text: b"tablets 1\nhosts 1\nlanes 1\nshards 17\n",
        status: 7,
        output: b"limit shards\n",
    },
    Row {
        name: "2048 tablets",
        text: b"tablets 1\nhosts 1\nlanes 1\ntable 1 11 x\n",
        status: 7,
        output: b"limit log2\n",
    },
    Row {
        name: "1025 tablets of two tables",
        text: b"tablets 1\nhosts 1\nlanes 1\ntable 1 10 0:0\ntable 2 0 x\n",
        status: 7,
        output: b"limit tablets\n",
    },
    Row {
        name: "nine replicas",
        text: b"tablets 1\nhosts 9\nlanes 1\ntable 1 0 0:0 1:0 2:0 3:0 4:0 5:0 6:0 7:0 9:9\n",
        status: 7,
        output: b"limit replicas\n",
    },
    Row {
        name: "a value of 65 bytes",
        text: b"tablets 1\nhosts 1\nlanes 1\ngo\n\
do 0.0 write 1 1 live:1:\
0000000000000000000000000000000000000000000000000000000000000000000000000000000000000000000000000000\
000000000000000000000000000000\n",
        status: 7,
        output: b"limit value\n",
    },
    Row {
        name: "65 tables",
        text: b"tablets 1\nhosts 1\nlanes 1\ntable 0 4 0:0\ntable 1 4 0:0\ntable 2 4 0:0\ntable 3 4 0:0\n\
table 4 4 0:0\ntable 5 4 0:0\ntable 6 4 0:0\ntable 7 4 0:0\ntable 8 4 0:0\ntable 9 4 0:0\n\
table 10 4 0:0\ntable 11 4 0:0\ntable 12 4 0:0\ntable 13 4 0:0\ntable 14 4 0:0\ntable 15 4 0:0\n\
table 16 4 0:0\ntable 17 4 0:0\ntable 18 4 0:0\ntable 19 4 0:0\ntable 20 4 0:0\ntable 21 4 0:0\n\
table 22 4 0:0\ntable 23 4 0:0\ntable 24 4 0:0\ntable 25 4 0:0\ntable 26 4 0:0\ntable 27 4 0:0\n\
table 28 4 0:0\ntable 29 4 0:0\ntable 30 4 0:0\ntable 31 4 0:0\ntable 32 4 0:0\ntable 33 4 0:0\n\
table 34 4 0:0\ntable 35 4 0:0\ntable 36 4 0:0\ntable 37 4 0:0\ntable 38 4 0:0\ntable 39 4 0:0\n\
table 40 4 0:0\ntable 41 4 0:0\ntable 42 4 0:0\ntable 43 4 0:0\ntable 44 4 0:0\ntable 45 4 0:0\n\
table 46 4 0:0\ntable 47 4 0:0\ntable 48 4 0:0\ntable 49 4 0:0\ntable 50 4 0:0\ntable 51 4 0:0\n\
table 52 4 0:0\ntable 53 4 0:0\ntable 54 4 0:0\ntable 55 4 0:0\ntable 56 4 0:0\ntable 57 4 0:0\n\
table 58 4 0:0\ntable 59 4 0:0\ntable 60 4 0:0\ntable 61 4 0:0\ntable 62 4 0:0\ntable 63 4 0:0\n\
table 64 4 0:0\n",
        status: 7,
        output: b"limit tables\n",
    },
];

/// Hosts 0 to 2 with two lanes each, and a label in line 6.
const LABELLED: &[u8] =
    b"tablets 1\nhosts 3\nlanes 2\ntable 1 0 0:0 1:0 2:0\ngo\nw: begin 0.0 write 1 5 live:10:61\n";

/// Lines that may not stand there, and the rule of each.
const FAULTY_LINES: [(&[u8], &str); 40] = [
    (b"hosts 3", "BadHeader"),
    (b"go", "BadHeader"),
    (b"jump 0", "BadWord"),
    (b"apply", "BadWord"),
    (b"apply 0 0", "BadWord"),
    (b"apply 3", "BadActor"),
    (b"apply 65536", "BadNumber"),
    (b"apply \xff", "BadNumber"),
    (b"begin 0 read 1 1", "BadWord"),
    (b"begin .0 read 1 1", "BadNumber"),
    (b"take 0.0 .0", "BadNumber"),
    (b"restart lane .0", "BadNumber"),
    (b"begin 0.0.0 read 1 1", "BadNumber"),
    (b"begin 9.x read 1 1", "BadNumber"),
    (b"begin 0.2 read x 1", "BadActor"),
    (b"begin 0.0 grow 1 1", "BadWord"),
    (b"begin 0.0 read 1 -9223372036854775808 x", "BadToken"),
    (b"begin 0.0 read 1 -9223372036854775809", "BadNumber"),
    (b"begin 0.0 read 1 1 to 1", "BadWord"),
    (b"begin 0.0 write 1 1 live:x:61", "BadCell"),
    (
        b"begin 0.0 write 1 1 live:9223372036854775808:616",
        "BadCell",
    ),
    (
        b"begin 0.0 write 1 1 live:9223372036854775808:61",
        "BadNumber",
    ),
    (b"begin 0.0 write 1 1 dead:1:4294967296", "BadNumber"),
    (b"begin 0.0 write 1 1 dead:1:2:3", "BadCell"),
    (b"timeout 0.0 18446744073709551616", "BadNumber"),
    (b"serve 0 z.x", "NoLabel"),
    (b"serve 0 w.x", "BadNumber"),
    (b"serve 0 W.0", "BadNumber"),
    (b"serve 0 w", "BadWord"),
    (b"ask 0 3 drain x", "BadActor"),
    (b"ask 0 1 sleep 1", "BadWord"),
    (b"restart shard 0", "BadWord"),
    (b"propose 0 create 1 0", "BadWord"),
    (b"propose 0 advance 1 sleeping", "BadWord"),
    (b"w: jump", "LabelTwice"),
    (b"v: jump", "BadWord"),
    (b"v: sync", "BadWord"),
    (b"v: serve 0 v.0", "NoLabel"),
    (b"abcdefghijklm0123: apply 0", "BadWord"),
    (b"sync 0", "BadWord"),
];

#[test]
fn a_line_at_fault_is_refused_by_its_first_rule(rt: HostRuntime) -> Result<(), Fail> {
    let alloc = rt.alloc();
    for (line, rule) in FAULTY_LINES {
        let text = joined(alloc, [LABELLED, line].as_slice())?;
        let ran = played(alloc, text.as_slice())?;
        let told = format!(in alloc; "refused line 7 {rule}\n")?;
        assert_eq!(rt; ran.status, 3);
        assert_eq!(rt; str::from_utf8(ran.output.as_slice()), Ok(told.as_str()));
    }
    Ok(())
}
