// Barriers, fences, members and coordinators. The outputs were worked out by hand.
use crate::driver::Row;

/// Evidence, fences, members and coordinators.
pub(crate) const BARRIERS: &[Row] = &[
    Row {
        name: "a coordinator of an old look conflicts",
        text: b"tablets 1\nhosts 3\nlanes 1\ntable 1 0 0:0 1:0 2:0\ngo\nfence 0\nfence 1\npropose 0 create 2 0 0:0\n\
propose 1 create 3 0 1:0\nlook 1\npropose 1 fence 1\n",
        status: 0,
        output: b"topo 0 accepted 1 v2\ntopo 1 conflict 1\ntopo 1 illegal BadFence\n\
end replies 0 log 1 version 2 fence 1\n",
    },
    Row {
        name: "a fenced request is stale",
        text: b"tablets 1\nhosts 3\nlanes 1\ntable 1 0 0:0 1:0 2:0\ngo\nw: begin 0.0 write 1 5 live:10:61\nfence 0\n\
propose 0 create 2 0 0:0\nfence 0\na: serve 0 w.0\nb: serve 1 w.1\ntake 0.0 a.0\ntake 0.0 b.0\n",
        status: 0,
        output: b"topo 0 accepted 1 v2\ntopo 0 accepted 2 v2\nreply 0.0 1 v1 write stale 2 fence 2\n\
end replies 1 log 2 version 2 fence 2\n",
    },
    Row {
        name: "a member leaves and joins",
        text: b"tablets 1\nhosts 4\nlanes 1\ntable 1 0 0:0 1:0 2:0\ngo\nfence 0\npropose 0 leave 3\nsync\n\
begin 3.0 read 1 5\nfence 0\npropose 0 join 3\nsync\ndo 3.0 read 1 5\n",
        status: 0,
        output: b"topo 0 accepted 1 v2\nreply 3.0 1 v2 read notmember\ntopo 0 accepted 2 v2\ntopo 0 accepted 3 v3\n\
reply 3.0 2 v3 read ok none\nend replies 2 log 3 version 3 fence 2\n",
    },
    Row {
        name: "two coordinators that looked at the same log propose",
        text: b"tablets 1\nhosts 3\nlanes 1\ntable 1 0 0:0 1:0 2:0\ngo\ndrain 1\ndrain 0\npropose 0 create 2 0 0:0\n\
propose 1 create 3 0 1:0\n",
        status: 0,
        output: b"topo 0 accepted 1 v2\ntopo 1 conflict 1\nend replies 0 log 1 version 2 fence 1\n",
    },
    Row {
        name: "a fence by single events",
        text: b"tablets 1\nhosts 3\nlanes 1\ntable 1 0 0:0 1:0 2:0\ngo\nw: begin 0.0 write 1 5 live:10:61\ndrain 0\n\
propose 0 create 2 0 0:0\nlook 0\npropose 0 fence 2\napply 0\napply 0\napply 1\napply 1\n\
a: serve 0 w.0\nb: serve 1 w.1\ntake 0.0 a.0\ntake 0.0 b.0\n",
        status: 0,
        output: b"topo 0 accepted 1 v2\ntopo 0 accepted 2 v2\nreply 0.0 1 v1 write stale 2 fence 2\n\
end replies 1 log 2 version 2 fence 2\n",
    },
    Row {
        name: "evidence of two kinds is none",
        text: b"tablets 1\nhosts 3\nlanes 1\ntable 1 0 0:0 1:0 2:0\ngo\nlook 0\nquiet 0 1\np: ask 0 0 drain 1\n\
a: answer 0 p.0\nhear 0 a.0\nq: ask 0 1 fence 1\nb: answer 1 q.0\nhear 0 b.0\nr: ask 0 2 fence 1\n\
c: answer 2 r.0\nhear 0 c.0\npropose 0 create 2 0 0:0\n",
        status: 4,
        output: b"not-enabled line 17 NoEvidence\n",
    },
    Row {
        name: "a host that left is not asked, and its request is stale",
        text: b"tablets 1\nhosts 4\nlanes 1\ntable 1 0 0:0 1:0 2:0\ngo\nw: begin 3.0 write 1 5 live:10:61\n\
step 0 leave 3\nbegin 3.0 read 1 5\nfence 0\na: serve 0 w.0\nb: serve 1 w.1\ntake 3.0 a.0\n\
take 3.0 b.0\n",
        status: 0,
        output: b"topo 0 accepted 1 v2\nreply 3.0 2 v2 read notmember\ntopo 0 accepted 2 v2\n\
reply 3.0 1 v1 write stale 2 fence 2\nend replies 2 log 2 version 2 fence 2\n",
    },
    Row {
        name: "a begin below the floor",
        text: b"tablets 1\nhosts 3\nlanes 1\ntable 1 0 0:0 1:0 2:0\ngo\nstep 0 create 2 0 0:0\ndrain 0\n\
begin 0.0 read 1 5 at 1\n",
        status: 4,
        output: b"topo 0 accepted 1 v2\nnot-enabled line 8 BelowFloor\n",
    },
    Row {
        name: "a host with a live request does not drain",
        text: b"tablets 1\nhosts 3\nlanes 1\ntable 1 0 0:0 1:0 2:0\ngo\nbegin 0.0 read 1 5\nstep 0 create 2 0 0:0\n\
drain 0\n",
        status: 4,
        output: b"topo 0 accepted 1 v2\nnot-enabled line 8 LiveBelow\n",
    },
    Row {
        name: "a coordinator forgets at a restart",
        text: b"tablets 1\nhosts 3\nlanes 1\ntable 1 0 0:0 1:0 2:0\ngo\ndrain 0\nrestart topo 0\n\
propose 0 create 2 0 0:0\n",
        status: 4,
        output: b"not-enabled line 8 NoEvidence\n",
    },
    Row {
        name: "three coordinators share a move",
        text: b"tablets 1\nhosts 4\nlanes 1\ntable 1 0 0:0 1:0 2:0\ngo\nstep 0 start 1 0 2:0 3:0\n\
step 1 advance 1 write_both_read_old\ndrain 0\nstep 2 advance 1 streaming\n\
propose 0 advance 1 cleanup_target\nrestart topo 2\nstream 1 1\n\
step 1 advance 1 write_both_read_new\n",
        status: 0,
        output: b"topo 0 accepted 1 v2\ntopo 1 accepted 2 v3\ntopo 2 accepted 3 v4\ntopo 0 conflict 3\npull 3 1 done\n\
topo 1 accepted 4 v5\nend replies 0 log 4 version 5 fence 1\n",
    },
];
