// Moves and resizes. The outputs were worked out by hand.
use crate::driver::Row;

/// Tablets that move, forward and back.
pub(crate) const MOVES: &[Row] = &[
    Row {
        name: "two answers of three that are needed while writes go to both lists",
        text: b"tablets 1\nhosts 4\nlanes 1\ntable 1 0 0:0 1:0 2:0\ngo\nstep 0 start 1 0 2:0 3:0\n\
step 0 advance 1 write_both_read_old\nw: begin 0.0 write 1 5 live:10:61\na: serve 0 w.0\n\
b: serve 1 w.1\ntake 0.0 a.0\ntake 0.0 b.0\ntimeout 0.0 1\n",
        status: 0,
        output: b"topo 0 accepted 1 v2\ntopo 0 accepted 2 v3\nreply 0.0 1 v3 write timeout 2 of 3\n\
end replies 1 log 2 version 3 fence 1\n",
    },
    Row {
        name: "a move goes back before anything was streamed",
        text: b"tablets 1\nhosts 4\nlanes 1\ntable 1 0 0:0 1:0 2:0\ngo\nstep 0 start 1 0 2:0 3:0\n\
step 0 advance 1 write_both_read_old\ndo 0.0 write 1 5 live:10:61\nstep 0 advance 1 cleanup_target\n\
tidy 0 1\nstep 0 advance 1 revert_migration\nstep 0 advance 1 none\ndo 1.0 read 1 5\n",
        status: 0,
        output: b"topo 0 accepted 1 v2\ntopo 0 accepted 2 v3\nreply 0.0 1 v3 write ok\ntopo 0 accepted 3 v4\n\
clean 3 1 cleaned\ntopo 0 accepted 4 v5\ntopo 0 accepted 5 v6\nreply 1.0 1 v6 read ok live:10:61\n\
end replies 2 log 5 version 6 fence 1\n",
    },
    Row {
        name: "a move under writes",
        text: b"tablets 1\nhosts 4\nlanes 1\ntable 1 0 0:0 1:0 2:0\ngo\nw: begin 0.0 write 1 5 live:10:61\n\
a: serve 1 w.1\nb: serve 2 w.2\ntake 0.0 a.0\ntake 0.0 b.0\nstep 0 start 1 0 2:0 3:0\n\
do 0.0 write 1 6 live:11:62\nstep 0 advance 1 write_both_read_old\ndo 0.0 write 1 7 live:12:63\n\
step 0 advance 1 streaming\ndo 0.0 read 1 7\nstream 0 1\nstep 0 advance 1 write_both_read_new\n\
r: begin 0.0 read 1 5\nc: serve 0 r.0\nd: serve 3 r.2\ntake 0.0 c.0\ntake 0.0 d.0\n\
step 0 advance 1 use_new\ndo 0.0 write 1 8 live:13:64\nstep 0 advance 1 cleanup\ntidy 0 1\n\
step 0 advance 1 end_migration\nstep 0 advance 1 none\ndo 3.0 read 1 5\n",
        status: 0,
        output: b"reply 0.0 1 v1 write ok\ntopo 0 accepted 1 v2\nreply 0.0 2 v2 write ok\ntopo 0 accepted 2 v3\n\
reply 0.0 3 v3 write ok\ntopo 0 accepted 3 v4\nreply 0.0 4 v4 read ok live:12:63\npull 3 1 done\n\
topo 0 accepted 4 v5\nreply 0.0 5 v5 read ok live:10:61\ntopo 0 accepted 5 v6\n\
reply 0.0 6 v6 write ok\ntopo 0 accepted 6 v7\nclean 2 1 cleaned\ntopo 0 accepted 7 v8\n\
topo 0 accepted 8 v9\nreply 3.0 1 v9 read ok live:10:61\nend replies 7 log 8 version 9 fence 1\n",
    },
    Row {
        name: "a move by fences, past a live request",
        text: b"tablets 1\nhosts 4\nlanes 1\ntable 1 0 0:0 1:0 2:0\ngo\nstep 0 start 1 0 2:0 3:0\n\
step 0 advance 1 write_both_read_old\nw: begin 1.0 write 1 5 live:10:61\na: serve 1 w.1\n\
b: serve 2 w.2\nc: serve 3 w.3\nstep 0 advance 1 streaming\nstream 0 1\n\
force 0 advance 1 write_both_read_new\nforce 0 advance 1 use_new\nforce 0 advance 1 cleanup\n\
tidy 0 1\ntake 1.0 a.0\ntake 1.0 b.0\ntake 1.0 c.0\nr: begin 0.0 read 1 5\nd: serve 0 r.0\n\
e: serve 3 r.2\ntake 0.0 d.0\ntake 0.0 e.0\n",
        status: 0,
        output: b"topo 0 accepted 1 v2\ntopo 0 accepted 2 v3\ntopo 0 accepted 3 v4\npull 3 1 done\n\
topo 0 accepted 4 v4\ntopo 0 accepted 5 v5\ntopo 0 accepted 6 v5\ntopo 0 accepted 7 v6\n\
topo 0 accepted 8 v6\ntopo 0 accepted 9 v7\nclean 2 1 cleaned\nreply 1.0 1 v3 write ok\n\
reply 0.0 1 v7 read ok live:10:61\nend replies 2 log 9 version 7 fence 6\n",
    },
    Row {
        name: "an old ask to clean drops nothing of a replica that came back",
        text: b"tablets 1\nhosts 4\nlanes 1\ntable 1 0 0:0 1:0 2:0\ngo\nw: begin 0.0 write 1 5 live:10:61\n\
a: serve 1 w.1\nb: serve 2 w.2\ntake 0.0 a.0\ntake 0.0 b.0\nstep 0 start 1 0 2:0 3:0\n\
do 0.0 write 1 6 live:11:62\nstep 0 advance 1 write_both_read_old\ndo 0.0 write 1 7 live:12:63\n\
step 0 advance 1 streaming\ndo 0.0 read 1 7\nstream 0 1\nstep 0 advance 1 write_both_read_new\n\
r: begin 0.0 read 1 5\nc: serve 0 r.0\nd: serve 3 r.2\ntake 0.0 c.0\ntake 0.0 d.0\n\
step 0 advance 1 use_new\ndo 0.0 write 1 8 live:13:64\nstep 0 advance 1 cleanup\n\
k: ask 0 2 clean 1\nm: clean 2 k.0\nhear 0 m.0\nstep 0 advance 1 end_migration\n\
step 0 advance 1 none\ndo 3.0 read 1 5\nstep 0 start 1 0 1:0 2:0\n\
step 0 advance 9 write_both_read_old\nstep 0 advance 9 streaming\nstream 0 9\nclean 2 k.0\n\
step 0 advance 9 write_both_read_new\ns: begin 0.0 read 1 5\nf: serve 0 s.0\ng: serve 2 s.1\n\
take 0.0 f.0\ntake 0.0 g.0\n",
        status: 0,
        output: b"reply 0.0 1 v1 write ok\ntopo 0 accepted 1 v2\nreply 0.0 2 v2 write ok\ntopo 0 accepted 2 v3\n\
reply 0.0 3 v3 write ok\ntopo 0 accepted 3 v4\nreply 0.0 4 v4 read ok live:12:63\npull 3 1 done\n\
topo 0 accepted 4 v5\nreply 0.0 5 v5 read ok live:10:61\ntopo 0 accepted 5 v6\n\
reply 0.0 6 v6 write ok\ntopo 0 accepted 6 v7\nclean 2 1 cleaned\ntopo 0 accepted 7 v8\n\
topo 0 accepted 8 v9\nreply 3.0 1 v9 read ok live:10:61\ntopo 0 accepted 9 v10\n\
topo 0 accepted 10 v11\ntopo 0 accepted 11 v12\npull 2 9 done\nclean 2 1 notmine\n\
topo 0 accepted 12 v13\nreply 0.0 7 v13 read ok live:10:61\n\
end replies 8 log 12 version 13 fence 1\n",
    },
    Row {
        name: "tables of one, two and four replicas move to one host",
        text: b"tablets 1\nhosts 6\nlanes 1\ntable 1 0 0:0\ntable 2 0 0:0 1:0\ntable 3 0 0:0 1:0 2:0 3:0\ngo\n\
do 4.0 write 1 5 live:1:61\ndo 4.0 write 2 5 live:1:62\ndo 4.0 write 3 5 live:1:63\n\
step 0 start 1 0 0:0 5:0\nstep 0 advance 1 write_both_read_old\nstep 0 advance 1 streaming\n\
stream 0 1\nstep 0 advance 1 write_both_read_new\nstep 0 advance 1 use_new\n\
step 0 advance 1 cleanup\ntidy 0 1\nstep 0 advance 1 end_migration\nstep 0 advance 1 none\n\
do 4.0 read 1 5\nstep 0 start 2 0 0:0 5:0\nstep 0 advance 9 write_both_read_old\n\
step 0 advance 9 streaming\nstream 0 9\nstep 0 advance 9 write_both_read_new\n\
step 0 advance 9 use_new\nstep 0 advance 9 cleanup\ntidy 0 9\nstep 0 advance 9 end_migration\n\
step 0 advance 9 none\ndo 4.0 read 2 5\nstep 0 start 3 0 0:0 5:0\n\
step 0 advance 17 write_both_read_old\nstep 0 advance 17 streaming\nstream 0 17\n\
step 0 advance 17 write_both_read_new\nstep 0 advance 17 use_new\nstep 0 advance 17 cleanup\n\
tidy 0 17\nstep 0 advance 17 end_migration\nstep 0 advance 17 none\ndo 4.0 read 3 5\n",
        status: 0,
        output: b"reply 4.0 1 v1 write ok\nreply 4.0 2 v1 write ok\nreply 4.0 3 v1 write ok\ntopo 0 accepted 1 v2\n\
topo 0 accepted 2 v3\ntopo 0 accepted 3 v4\npull 5 1 done\ntopo 0 accepted 4 v5\n\
topo 0 accepted 5 v6\ntopo 0 accepted 6 v7\nclean 0 1 cleaned\ntopo 0 accepted 7 v8\n\
topo 0 accepted 8 v9\nreply 4.0 4 v9 read ok live:1:61\ntopo 0 accepted 9 v10\n\
topo 0 accepted 10 v11\ntopo 0 accepted 11 v12\npull 5 9 done\ntopo 0 accepted 12 v13\n\
topo 0 accepted 13 v14\ntopo 0 accepted 14 v15\nclean 0 9 cleaned\ntopo 0 accepted 15 v16\n\
topo 0 accepted 16 v17\nreply 4.0 5 v17 read ok live:1:62\ntopo 0 accepted 17 v18\n\
topo 0 accepted 18 v19\ntopo 0 accepted 19 v20\npull 5 17 done\ntopo 0 accepted 20 v21\n\
topo 0 accepted 21 v22\ntopo 0 accepted 22 v23\nclean 0 17 cleaned\ntopo 0 accepted 23 v24\n\
topo 0 accepted 24 v25\nreply 4.0 6 v25 read ok live:1:63\nend replies 6 log 24 version 25 fence 1\n",
    },
    Row {
        name: "a host restarts while it pulls",
        text: b"tablets 1\nhosts 4\nlanes 1\ntable 1 0 0:0 1:0 2:0\ngo\ndo 0.0 write 1 5 live:10:61\n\
step 0 start 1 0 2:0 3:0\nstep 0 advance 1 write_both_read_old\nstep 0 advance 1 streaming\n\
p: pull 3 1\nq: serve 2 p.0\nrestart host 3\nchunk 3 q.0\nstream 0 1\n",
        status: 0,
        output: b"reply 0.0 1 v1 write ok\ntopo 0 accepted 1 v2\ntopo 0 accepted 2 v3\ntopo 0 accepted 3 v4\n\
pull 3 1 done\nend replies 1 log 3 version 4 fence 1\n",
    },
    Row {
        name: "a move goes back after reads went to the new list",
        text: b"tablets 1\nhosts 4\nlanes 1\ntable 1 0 0:0 1:0 2:0\ngo\nstep 0 start 1 0 2:0 3:0\n\
step 0 advance 1 write_both_read_old\nstep 0 advance 1 streaming\nstream 0 1\n\
step 0 advance 1 write_both_read_new\nw: begin 0.0 write 1 5 live:10:61\na: serve 0 w.0\n\
b: serve 2 w.2\nc: serve 3 w.3\ntake 0.0 a.0\ntake 0.0 b.0\ntake 0.0 c.0\n\
step 0 advance 1 write_both_read_old_fallback_cleanup\nr: begin 1.0 read 1 5\nd: serve 1 r.1\n\
e: serve 2 r.2\ntake 1.0 d.0\ntake 1.0 e.0\nstep 0 advance 1 cleanup_target\ntidy 0 1\n\
step 0 advance 1 revert_migration\nstep 0 advance 1 none\ndo 0.0 read 1 5\n",
        status: 0,
        output: b"topo 0 accepted 1 v2\ntopo 0 accepted 2 v3\ntopo 0 accepted 3 v4\npull 3 1 done\n\
topo 0 accepted 4 v5\nreply 0.0 1 v5 write ok\ntopo 0 accepted 5 v6\n\
reply 1.0 1 v6 read ok live:10:61\ntopo 0 accepted 6 v7\nclean 3 1 cleaned\ntopo 0 accepted 7 v8\n\
topo 0 accepted 8 v9\nreply 0.0 2 v9 read ok live:10:61\nend replies 3 log 8 version 9 fence 1\n",
    },
];

/// Tables that are split and merged.
pub(crate) const RESIZES: &[Row] = &[
    Row {
        name: "a split table is merged once both tablets have moved",
        text: b"tablets 1\nhosts 4\nlanes 1\ntable 1 0 0:0 1:0 2:0\ngo\nstep 0 resize 1 split\nready 0 1\n\
step 0 finalize 1 1\nstep 0 start 1 1 2:0 3:0\nstep 0 advance 3 write_both_read_old\n\
step 0 advance 3 streaming\nstream 0 3\nstep 0 advance 3 write_both_read_new\n\
step 0 advance 3 use_new\nstep 0 advance 3 cleanup\ntidy 0 3\nstep 0 advance 3 end_migration\n\
step 0 advance 3 none\nstep 0 resize 1 merge\nstep 0 finalize 1 11\nstep 0 start 1 0 2:0 3:0\n\
step 0 advance 12 write_both_read_old\nstep 0 advance 12 streaming\nstream 0 12\n\
step 0 advance 12 write_both_read_new\nstep 0 advance 12 use_new\nstep 0 advance 12 cleanup\n\
tidy 0 12\nstep 0 advance 12 end_migration\nstep 0 advance 12 none\nstep 0 finalize 1 11\n",
        status: 0,
        output: b"topo 0 accepted 1 v2\ntopo 0 accepted 2 v3\ntopo 0 accepted 3 v4\ntopo 0 accepted 4 v5\n\
topo 0 accepted 5 v6\npull 3 3 done\ntopo 0 accepted 6 v7\ntopo 0 accepted 7 v8\n\
topo 0 accepted 8 v9\nclean 2 3 cleaned\ntopo 0 accepted 9 v10\ntopo 0 accepted 10 v11\n\
topo 0 accepted 11 v12\ntopo 0 illegal NotColocated\ntopo 0 accepted 12 v13\n\
topo 0 accepted 13 v14\ntopo 0 accepted 14 v15\npull 3 12 done\ntopo 0 accepted 15 v16\n\
topo 0 accepted 16 v17\ntopo 0 accepted 17 v18\nclean 2 12 cleaned\ntopo 0 accepted 18 v19\n\
topo 0 accepted 19 v20\ntopo 0 accepted 20 v21\nend replies 0 log 20 version 21 fence 1\n",
    },
    Row {
        name: "a decision that was taken back is not carried out",
        text: b"tablets 1\nhosts 3\nlanes 1\ntable 1 0 0:0 1:0 2:0\ngo\nstep 0 resize 1 split\n\
step 0 resize 1 keep\nstep 0 finalize 1 1\n",
        status: 0,
        output: b"topo 0 accepted 1 v2\ntopo 0 accepted 2 v3\ntopo 0 illegal NoSuchSession\n\
end replies 0 log 2 version 3 fence 1\n",
    },
    Row {
        name: "a split for which no host is ready",
        text: b"tablets 1\nhosts 3\nlanes 1\ntable 1 0 0:0 1:0 2:0\ngo\nstep 0 resize 1 split\nstep 0 finalize 1 1\n",
        status: 4,
        output: b"topo 0 accepted 1 v2\nnot-enabled line 7 NoReady\n",
    },
];
