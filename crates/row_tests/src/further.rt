// Repaired reads and plans, whose lines follow the report. The outputs were worked out by hand.
use crate::driver::Row;

/// What `reads` makes of a text.
pub(crate) const READS: &[Row] = &[
    Row {
        name: "a read that is written back is repaired, and a later read that is not is none",
        text: b"tablets 2\nhosts 3\nlanes 1\ntable 1 0 0:0 1:0 2:0\ngo\nw: begin 0.0 write 1 5 live:10:61\nserve 0 w.0\n\
do 1.0 read 1 5\ndo 1.0 write 1 5 live:10:61\ndo 2.0 read 1 5\n",
        status: 0,
        output: b"reply 1.0 1 v1 read ok live:10:61\nreply 1.0 2 v1 write ok\nreply 2.0 1 v1 read ok live:10:61\n\
end replies 3 log 0 version 1 fence 1\nrepaired 1.0 1 live:10:61\n",
    },
    Row {
        name: "a write back that times out repairs nothing",
        text: b"tablets 2\nhosts 3\nlanes 1\ntable 1 0 0:0 1:0 2:0\ngo\nw: begin 0.0 write 1 5 live:10:61\nserve 0 w.0\n\
do 1.0 read 1 5\nbegin 1.0 write 1 5 live:10:61\ntimeout 1.0 2\nr: begin 2.0 read 1 5\na: serve 1 r.1\n\
b: serve 2 r.2\ntake 2.0 a.0\ntake 2.0 b.0\n",
        status: 0,
        output: b"reply 1.0 1 v1 read ok live:10:61\nreply 1.0 2 v1 write timeout 0 of 2\nreply 2.0 1 v1 read ok none\n\
end replies 3 log 0 version 1 fence 1\nrepaired 2.0 1 none\n",
    },
    Row {
        name: "a read at level one is never repaired",
        text: b"tablets 2\nhosts 3\nlanes 1\ntable 1 0 0:0 1:0 2:0\ngo\ndo 0.0 write 1 5 live:10:61\n\
do 1.0 read 1 5 one\ndo 1.0 write 1 5 live:10:61\n",
        status: 0,
        output: b"reply 0.0 1 v1 write ok\nreply 1.0 1 v1 read ok live:10:61\nreply 1.0 2 v1 write ok\n\
end replies 3 log 0 version 1 fence 1\n",
    },
    Row {
        name: "a play that stops has no further lines",
        text: b"tablets 2\nhosts 3\nlanes 1\ntable 1 0 0:0 1:0 2:0\ngo\ndo 0.0 read 1 5\ntimeout 0.0 7\n",
        status: 4,
        output: b"reply 0.0 1 v1 read ok none\nnot-enabled line 7 NoRequest\n",
    },
];

/// What `balance` makes of a text.
pub(crate) const BALANCES: &[Row] = &[
    Row {
        name: "two tablets on two of four hosts give one replica each",
        text: b"tablets 1\nhosts 4\nlanes 1\ntable 1 1 0:0 1:0\ngo\n",
        status: 0,
        output: b"end replies 0 log 0 version 1 fence 1\nmove 1 0 0:0 2:0\nmove 1 0 1:0 3:0\n\
balance moves 2 spread 0\n",
    },
    Row {
        name: "a spread of one is even",
        text: b"tablets 1\nhosts 4\nlanes 1\ntable 1 0 0:0 1:0 2:0\ngo\n",
        status: 0,
        output: b"end replies 0 log 0 version 1 fence 1\nbalance moves 0 spread 1\n",
    },
    Row {
        name: "a tablet in transition is named",
        text: b"tablets 1\nhosts 4\nlanes 1\ntable 1 0 0:0 1:0 2:0\ngo\nstep 0 start 1 0 2:0 3:0\n",
        status: 0,
        output: b"topo 0 accepted 1 v2\nend replies 0 log 1 version 2 fence 1\nbalance moving 1 0\n",
    },
    Row {
        name: "a text at fault has no plan",
        text: b"tablets 1\nhosts 4\nlanes 1\ntable 1 1 0:0 1:0\ngo\nbalance\n",
        status: 3,
        output: b"refused line 6 BadWord\n",
    },
];
