// Requests, levels and counts of hosts. The outputs were worked out by hand.
use crate::driver::Row;

/// Requests: what is acknowledged, given up or not there, and which cell wins.
pub(crate) const REQUESTS: &[Row] = &[
    Row {
        name: "a write and a read by single events",
        text: b"tablets 1\nhosts 3\nlanes 1\ntable 1 0 0:0 1:0 2:0\ngo\nw: begin 0.0 write 1 5 live:10:61\n\
a: serve 0 w.0\nb: serve 1 w.1\ntake 0.0 a.0\ntake 0.0 b.0\nr: begin 2.0 read 1 5\nc: serve 1 r.1\n\
d: serve 2 r.2\ntake 2.0 c.0\ntake 2.0 d.0\n",
        status: 0,
        output: b"reply 0.0 1 v1 write ok\nreply 2.0 1 v1 read ok live:10:61\nend replies 2 log 0 version 1 fence 1\n",
    },
    Row {
        name: "one answer that is taken three times counts once",
        text: b"tablets 1\nhosts 3\nlanes 1\ntable 1 0 0:0 1:0 2:0\ngo\nw: begin 0.0 write 1 5 live:10:61\n\
a: serve 0 w.0\ntake 0.0 a.0\ntake 0.0 a.0\ntake 0.0 a.0\ntimeout 0.0 1\n",
        status: 0,
        output: b"reply 0.0 1 v1 write timeout 1 of 2\nend replies 1 log 0 version 1 fence 1\n",
    },
    Row {
        name: "a read finds nothing",
        text: b"tablets 1\nhosts 3\nlanes 1\ntable 1 0 0:0 1:0 2:0\ngo\ndo 0.0 read 1 7\n",
        status: 0,
        output: b"reply 0.0 1 v1 read ok none\nend replies 1 log 0 version 1 fence 1\n",
    },
    Row {
        name: "the greatest cell wins",
        text: b"tablets 1\nhosts 3\nlanes 1\ntable 1 0 0:0 1:0 2:0\ngo\ndo 0.0 write 1 5 live:10:61\n\
do 0.0 write 1 5 live:10:6161\ndo 0.0 read 1 5\ndo 0.0 write 1 5 dead:10:3\n\
do 0.0 write 1 5 live:10:ff\ndo 0.0 read 1 5\n",
        status: 0,
        output: b"reply 0.0 1 v1 write ok\nreply 0.0 2 v1 write ok\nreply 0.0 3 v1 read ok live:10:6161\n\
reply 0.0 4 v1 write ok\nreply 0.0 5 v1 write ok\nreply 0.0 6 v1 read ok dead:10:3\n\
end replies 6 log 0 version 1 fence 1\n",
    },
    Row {
        name: "tablets of one replica at both ends of the ring",
        text: b"tablets 1\nhosts 3\nlanes 1\ntable 1 2 0:0 1:0 2:0\ntablet 1 0 0:0\ntablet 1 3 2:0\ngo\n\
w: begin 0.0 write 1 -9223372036854775807 live:1:61\na: serve 0 w.0\ntake 0.0 a.0\n\
x: begin 0.0 write 1 9223372036854775807 live:1:62\nb: serve 2 x.0\ntake 0.0 b.0\n",
        status: 0,
        output: b"reply 0.0 1 v1 write ok\nreply 0.0 2 v1 write ok\nend replies 2 log 0 version 1 fence 1\n",
    },
    Row {
        name: "the least number is no token",
        text: b"tablets 1\nhosts 3\nlanes 1\ntable 1 0 0:0 1:0 2:0\ngo\nbegin 0.0 read 1 -9223372036854775808\n",
        status: 3,
        output: b"refused line 6 BadToken\n",
    },
    Row {
        name: "a read of a table that is not there",
        text: b"tablets 1\nhosts 3\nlanes 1\ntable 1 0 0:0 1:0 2:0\ngo\ndo 0.0 read 9 5\n",
        status: 0,
        output: b"reply 0.0 1 v1 read notable\nend replies 1 log 0 version 1 fence 1\n",
    },
    Row {
        name: "the token 0 is of the right one of two tablets",
        text: b"tablets 1\nhosts 4\nlanes 1\ntable 1 1 0:0 1:0 2:0\ntablet 1 1 1:0 2:0 3:0\ngo\n\
w: begin 0.0 write 1 0 live:1:61\na: serve 3 w.2\nb: serve 1 w.0\ntake 0.0 a.0\ntake 0.0 b.0\n\
do 0.0 read 1 -1\n",
        status: 0,
        output: b"reply 0.0 1 v1 write ok\nreply 0.0 2 v1 read ok none\nend replies 2 log 0 version 1 fence 1\n",
    },
    Row {
        name: "an answer comes after a restart of its lane",
        text: b"tablets 1\nhosts 3\nlanes 1\ntable 1 0 0:0 1:0 2:0\ngo\nw: begin 0.0 write 1 5 live:10:61\n\
a: serve 0 w.0\nrestart lane 0.0\ntake 0.0 a.0\n",
        status: 0,
        output: b"end replies 0 log 0 version 1 fence 1\n",
    },
];

/// Levels, and how many hosts there may be.
pub(crate) const LEVELS: &[Row] = &[
    Row {
        name: "a write of all replicas is found at the level of one",
        text: b"tablets 2\nhosts 3\nlanes 1\ntable 1 0 0:0 1:0 2:0\ngo\ndo 0.0 write 1 5 live:10:61 all\n\
r: begin 2.0 read 1 5 one\na: serve 2 r.2\ntake 2.0 a.0\n",
        status: 0,
        output: b"reply 0.0 1 v1 write ok\nreply 2.0 1 v1 read ok live:10:61\nend replies 2 log 0 version 1 fence 1\n",
    },
    Row {
        name: "a write of one replica is missed at the level of one",
        text: b"tablets 2\nhosts 3\nlanes 1\ntable 1 0 0:0 1:0 2:0\ngo\ndo 0.0 write 1 5 live:10:61 one\n\
r: begin 2.0 read 1 5 one\na: serve 2 r.2\ntake 2.0 a.0\n",
        status: 0,
        output: b"reply 0.0 1 v1 write ok\nreply 2.0 1 v1 read ok none\nend replies 2 log 0 version 1 fence 1\n",
    },
    Row {
        name: "all replicas of both lists are needed",
        text: b"tablets 2\nhosts 4\nlanes 1\ntable 1 0 0:0 1:0 2:0\ngo\nstep 0 start 1 0 2:0 3:0\n\
step 0 advance 1 write_both_read_old\nw: begin 0.0 write 1 5 live:10:61 all\na: serve 0 w.0\n\
b: serve 1 w.1\nc: serve 2 w.2\ntake 0.0 a.0\ntake 0.0 b.0\ntake 0.0 c.0\ntimeout 0.0 1\n",
        status: 0,
        output: b"topo 0 accepted 1 v2\ntopo 0 accepted 2 v3\nreply 0.0 1 v3 write timeout 3 of 4\n\
end replies 1 log 2 version 3 fence 1\n",
    },
    Row {
        name: "256 hosts",
        text: b"tablets 2\nhosts 256\nlanes 1\ntable 1 0 255:0\ngo\ndo 0.0 read 1 5 all\n",
        status: 0,
        output: b"reply 0.0 1 v1 read ok none\nend replies 1 log 0 version 1 fence 1\n",
    },
    Row {
        name: "257 hosts",
        text: b"tablets 2\nhosts 257\nlanes 1\ntable 1 0 255:0\ngo\ndo 0.0 read 1 5 all\n",
        status: 7,
        output: b"limit hosts\n",
    },
    Row {
        name: "65 hosts in a text of the first version",
        text: b"tablets 1\nhosts 65\n",
        status: 7,
        output: b"limit hosts\n",
    },
];
