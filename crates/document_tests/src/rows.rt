//! Documents of clusters: each member left out, of another type, out of its range and at its limits.

/// A document that says a cluster. Here and below a single quote stands for a double one.
pub(crate) const WHOLE: &str =
    "{'tablets':2,'hosts':9,'lanes':2,'shards':2,'members':[0,1,2,3,4,5,6,7,8],\
    'workers':3,'patience':9999,'drain':99,\
    'tables':[{'id':1,'log2':1,'replicas':['0:0','1:1'],\
    'other':[{'tablet':1,'replicas':['2:0','3:0']}]},\
    {'id':2,'log2':0,'replicas':['4:0']}],\
    'scripts':[{'lane':'0.1','ops':['write 1 5 live:10:61 all','read 1 -5']},\
    {'lane':'8.0','ops':[]}],\
    'moves':[{'by':0,'do':'move 1 0 0:0 5:0','back_from':'streaming'},\
    {'by':8,'do':'split 2'}],\
    'storm':{'seed':7,'lose':10,'repeat':5}}";

/// A piece that stands once in the document, what stands there instead, and what is answered then: the path at fault
/// with its rule, or the limit.
pub(crate) type Change = (&'static str, &'static str, &'static str);

/// Changes of the counts and of the members.
pub(crate) const HOSTS: &[Change] = &[
    ("'tablets':2,", "", "/tablets Missing"),
    ("'tablets':2,", "'tablets':'2',", "/tablets WrongType"),
    ("'tablets':2,", "'tablets':null,", "/tablets WrongType"),
    ("'tablets':2,", "'tablets':2.0,", "/tablets WrongType"),
    ("'tablets':2,", "'tablets':2e0,", "/tablets WrongType"),
    ("'tablets':2,", "'tablets':-0,", "/tablets WrongType"),
    (
        "'tablets':2,",
        "'tablets':18446744073709551616,",
        "/tablets WrongType",
    ),
    ("'tablets':2,", "'tablets':-1,", "/tablets BadValue"),
    ("'tablets':2,", "'tablets':0,", "/tablets BadValue"),
    ("'tablets':2,", "'tablets':3,", "/tablets BadValue"),
    ("'tablets':2,", "'tablets':1,", "/scripts/0/ops/0 BadValue"),
    ("'hosts':9,", "", "/hosts Missing"),
    ("'hosts':9,", "'hosts':'9',", "/hosts WrongType"),
    ("'hosts':9,", "'hosts':0,", "/hosts BadValue"),
    ("'hosts':9,", "'hosts':-1,", "/hosts BadValue"),
    ("'hosts':9,", "'hosts':256,", "read"),
    ("'hosts':9,", "'hosts':257,", "limit hosts"),
    ("'hosts':9,", "'hosts':8,", "/members/8 BadValue"),
    ("'hosts':9,", "'hosts':0,'hosts':9,", "read"),
    ("'hosts':9,", "'hosts':9,'hosts':0,", "/hosts BadValue"),
    ("'lanes':2,", "", "/lanes Missing"),
    ("'lanes':2,", "'lanes':true,", "/lanes WrongType"),
    ("'lanes':2,", "'lanes':0,", "/lanes BadValue"),
    ("'lanes':2,", "'lanes':-1,", "/lanes BadValue"),
    ("'lanes':2,", "'lanes':1,", "/scripts/0/lane BadValue"),
    ("'lanes':2,", "'lanes':4,", "read"),
    ("'lanes':2,", "'lanes':5,", "limit lanes"),
    ("'shards':2,", "", "/tables/0/replicas/1 BadValue"),
    ("'shards':2,", "'shards':[2],", "/shards WrongType"),
    ("'shards':2,", "'shards':0,", "/shards BadValue"),
    ("'shards':2,", "'shards':-1,", "/shards BadValue"),
    ("'shards':2,", "'shards':16,", "read"),
    ("'shards':2,", "'shards':17,", "limit shards"),
    ("'members':[0,1,2,3,4,5,6,7,8],", "", "read"),
    ("[0,1,2,3,4,5,6,7,8]", "{}", "/members WrongType"),
    ("[0,1,2,3,4,5,6,7,8]", "9", "/members WrongType"),
    ("[0,1,2,3,4,5,6,7,8]", "[]", "/members BadValue"),
    ("[0,1,2,3,4,5,6,7,8]", "['0']", "/members/0 WrongType"),
    (
        "[0,1,2,3,4,5,6,7,8]",
        "[0,1,2,3,4,5,-6]",
        "/members/6 BadValue",
    ),
    ("[0,1,2,3,4,5,6,7,8]", "[9]", "/members/0 BadValue"),
    ("[0,1,2,3,4,5,6,7,8]", "[5,4,3,2,1,0]", "read"),
    (
        "[0,1,2,3,4,5,6,7,8]",
        "[0,1,2,3,4,5,5]",
        "/members/6 BadValue",
    ),
    (
        "[0,1,2,3,4,5,6,7,8]",
        "[0,2,3,4,5]",
        "/tables/0/replicas/1 BadValue",
    ),
];

/// Changes of the pace.
pub(crate) const PACE: &[Change] = &[
    ("'workers':3,", "", "read"),
    ("'workers':3,", "'workers':'3',", "/workers WrongType"),
    ("'workers':3,", "'workers':0,", "/workers BadValue"),
    ("'workers':3,", "'workers':-1,", "/workers BadValue"),
    ("'workers':3,", "'workers':1,", "read"),
    ("'workers':3,", "'workers':16,", "read"),
    ("'workers':3,", "'workers':17,", "/workers BadValue"),
    ("'patience':9999,", "", "read"),
    ("'patience':9999,", "'patience':1e3,", "/patience WrongType"),
    ("'patience':9999,", "'patience':0,", "/patience BadValue"),
    ("'patience':9999,", "'patience':-1,", "/patience BadValue"),
    ("'patience':9999,", "'patience':1,", "read"),
    ("'patience':9999,", "'patience':1000000,", "read"),
    (
        "'patience':9999,",
        "'patience':1000001,",
        "/patience BadValue",
    ),
    ("'drain':99,", "", "read"),
    ("'drain':99,", "'drain':{},", "/drain WrongType"),
    ("'drain':99,", "'drain':0,", "/drain BadValue"),
    ("'drain':99,", "'drain':-1,", "/drain BadValue"),
    ("'drain':99,", "'drain':1,", "read"),
    ("'drain':99,", "'drain':1000000,", "read"),
    ("'drain':99,", "'drain':1000001,", "/drain BadValue"),
];

/// Changes of the tables.
pub(crate) const TABLES: &[Change] = &[
    ("'tables':", "'tablet':", "/tables Missing"),
    ("'tables':[", "'tables':[5,", "/tables/0 WrongType"),
    ("'id':1,", "", "/tables/0/id Missing"),
    ("'id':1,", "'id':'1',", "/tables/0/id WrongType"),
    ("'id':1,", "'id':-1,", "/tables/0/id BadValue"),
    ("'id':1,", "'id':0,", "read"),
    ("'id':1,", "'id':4294967295,", "read"),
    ("'id':1,", "'id':4294967296,", "/tables/0/id BadValue"),
    ("'id':1,", "'id':2,", "/tables/1/id BadValue"),
    ("'log2':1,", "", "/tables/0/log2 Missing"),
    ("'log2':1,", "'log2':[1],", "/tables/0/log2 WrongType"),
    ("'log2':1,", "'log2':-1,", "/tables/0/log2 BadValue"),
    (
        "'log2':1,",
        "'log2':0,",
        "/tables/0/other/0/tablet BadValue",
    ),
    ("'log2':1,", "'log2':9,", "read"),
    ("'log2':1,", "'log2':10,", "limit tablets"),
    ("'log2':1,", "'log2':11,", "limit log2"),
    (
        ",'replicas':['0:0','1:1']",
        "",
        "/tables/0/replicas Missing",
    ),
    ("['0:0','1:1']", "'0:0'", "/tables/0/replicas WrongType"),
    ("['0:0','1:1']", "[]", "/tables/0/replicas BadValue"),
    ("['0:0','1:1']", "[0]", "/tables/0/replicas/0 WrongType"),
    (
        "['0:0','1:1']",
        "['0:0',null]",
        "/tables/0/replicas/1 WrongType",
    ),
    (
        "['0:0','1:1']",
        "['0:0','1:2']",
        "/tables/0/replicas/1 BadValue",
    ),
    ("['0:0','1:1']", "['9:0']", "/tables/0/replicas/0 BadValue"),
    (
        "['0:0','1:1']",
        "['0:0','0:1']",
        "/tables/0/replicas/1 BadValue",
    ),
    ("['0:0','1:1']", "['0']", "/tables/0/replicas/0 BadValue"),
    ("['0:0','1:1']", "[' 0:0']", "/tables/0/replicas/0 BadValue"),
    ("['0:0','1:1']", "['00:01']", "read"),
    (
        "['0:0','1:1']",
        "['0:0','1:0','2:0','3:0','4:0','5:0','6:0','7:0']",
        "read",
    ),
    (
        "['0:0','1:1']",
        "['0:0','1:0','2:0','3:0','4:0','5:0','6:0','7:0','8:0']",
        "limit replicas",
    ),
    (
        "['0:0','1:1']",
        "['0:0','1:0','2:0','3:0','4:0','5:0','6:0','7:0',8]",
        "/tables/0/replicas/8 WrongType",
    ),
    (
        ",'other':[{'tablet':1,'replicas':['2:0','3:0']}]",
        "",
        "read",
    ),
    (
        "'other':[{'tablet':1,'replicas':['2:0','3:0']}]",
        "'other':{}",
        "/tables/0/other WrongType",
    ),
    (
        "'other':[{'tablet':1,'replicas':['2:0','3:0']}]",
        "'other':[]",
        "read",
    ),
    (
        "{'tablet':1,'replicas':['2:0','3:0']}",
        "1",
        "/tables/0/other/0 WrongType",
    ),
    ("'tablet':1,", "", "/tables/0/other/0/tablet Missing"),
    (
        "'tablet':1,",
        "'tablet':'1',",
        "/tables/0/other/0/tablet WrongType",
    ),
    (
        "'tablet':1,",
        "'tablet':-1,",
        "/tables/0/other/0/tablet BadValue",
    ),
    (
        "'tablet':1,",
        "'tablet':2,",
        "/tables/0/other/0/tablet BadValue",
    ),
    (
        "'tablet':1,",
        "'tablet':1,'replicas':['0:0']},{'tablet':1,",
        "/tables/0/other/1/tablet BadValue",
    ),
    (
        ",'replicas':['2:0','3:0']",
        "",
        "/tables/0/other/0/replicas Missing",
    ),
    ("['2:0','3:0']", "[]", "/tables/0/other/0/replicas BadValue"),
    ("['2:0','3:0']", "5", "/tables/0/other/0/replicas WrongType"),
    (
        "['2:0','3:0']",
        "['0:0','1:0','2:0','3:0','4:0','5:0','6:0','7:0','8:0']",
        "limit replicas",
    ),
    (
        "['2:0','3:0']",
        "['2:0','2:0']",
        "/tables/0/other/0/replicas/1 BadValue",
    ),
];

/// Changes of the scripts.
pub(crate) const SCRIPTS: &[Change] = &[
    ("'scripts':[", "'scripts':[5,", "/scripts/0 WrongType"),
    ("'scripts':[", "'other':7,'script':[", "read"),
    ("'lane':'0.1',", "", "/scripts/0/lane Missing"),
    ("'lane':'0.1',", "'lane':0.1,", "/scripts/0/lane WrongType"),
    ("'lane':'0.1',", "'lane':'9.0',", "/scripts/0/lane BadValue"),
    ("'lane':'0.1',", "'lane':'0.2',", "/scripts/0/lane BadValue"),
    ("'lane':'0.1',", "'lane':'0',", "/scripts/0/lane BadValue"),
    (
        "'lane':'0.1',",
        "'lane':'0.1 ',",
        "/scripts/0/lane BadValue",
    ),
    ("'lane':'0.1',", "'lane':'00.01',", "read"),
    ("'lane':'0.1',", "'lane':'\\u0030.1',", "read"),
    ("'lane':'0.1',", "'lane':'8.1',", "read"),
    ("'lane':'0.1',", "'lane':'8.0',", "/scripts/1/lane BadValue"),
    (",'ops':[]", "", "/scripts/1/ops Missing"),
    ("'ops':[]", "'ops':{}", "/scripts/1/ops WrongType"),
    ("'read 1 -5'", "5", "/scripts/0/ops/1 WrongType"),
    ("'read 1 -5'", "''", "/scripts/0/ops/1 BadValue"),
    ("'read 1 -5'", "'read 1'", "/scripts/0/ops/1 BadValue"),
    ("'read 1 -5'", "'take 0.1 1.0'", "/scripts/0/ops/1 BadValue"),
    ("'read 1 -5'", "'  read  1  5  '", "read"),
    (
        "'read 1 -5'",
        "'read 1 5 most'",
        "/scripts/0/ops/1 BadValue",
    ),
    (
        "'read 1 -5'",
        "'read 1 5 one two'",
        "/scripts/0/ops/1 BadValue",
    ),
    (
        "'read 1 -5'",
        "'read 4294967296 5'",
        "/scripts/0/ops/1 BadValue",
    ),
    ("'read 1 -5'", "'read 1 -9223372036854775807'", "read"),
    (
        "'read 1 -5'",
        "'read 1 -9223372036854775808'",
        "/scripts/0/ops/1 BadValue",
    ),
    (
        "'read 1 -5'",
        "'write 1 5 live:1:6'",
        "/scripts/0/ops/1 BadValue",
    ),
    (
        "live:10:61",
        "live:10:6161616161616161616161616161616161616161616161616161616161616161616161616161\
        6161616161616161616161616161616161616161616161616161",
        "read",
    ),
    (
        "live:10:61",
        "live:10:6161616161616161616161616161616161616161616161616161616161616161616161616161\
        616161616161616161616161616161616161616161616161616161",
        "limit value",
    ),
];

/// Changes of the moves.
pub(crate) const MOVES: &[Change] = &[
    ("'moves':[", "'moves':['join 1',", "/moves/0 WrongType"),
    ("'moves':[", "'move':[", "read"),
    ("'by':0,", "", "/moves/0/by Missing"),
    ("'by':0,", "'by':'0',", "/moves/0/by WrongType"),
    ("'by':0,", "'by':-1,", "/moves/0/by BadValue"),
    ("'by':0,", "'by':9,", "/moves/0/by BadValue"),
    ("'by':0,", "'by':8,", "read"),
    ("'do':'move 1 0 0:0 5:0',", "", "/moves/0/do Missing"),
    ("'move 1 0 0:0 5:0'", "['move']", "/moves/0/do WrongType"),
    ("'move 1 0 0:0 5:0'", "''", "/moves/0/do BadValue"),
    (
        "'move 1 0 0:0 5:0'",
        "'move 1 0 0:0'",
        "/moves/0/do BadValue",
    ),
    ("'move 1 0 0:0 5:0'", "'move 7 1023 300:17 300:255'", "read"),
    (
        "'move 1 0 0:0 5:0'",
        "'join 1'",
        "/moves/0/back_from BadValue",
    ),
    (",'back_from':'streaming'", "", "read"),
    ("'streaming'", "3", "/moves/0/back_from WrongType"),
    ("'streaming'", "null", "/moves/0/back_from WrongType"),
    ("'streaming'", "'allow_write_both_read_old'", "read"),
    ("'streaming'", "'write_both_read_old'", "read"),
    ("'streaming'", "'write_both_read_new'", "read"),
    ("'streaming'", "'use_new'", "/moves/0/back_from BadValue"),
    ("'streaming'", "'none'", "/moves/0/back_from BadValue"),
    ("'split 2'", "'merge 2'", "read"),
    ("'split 2'", "'join 300'", "read"),
    ("'split 2'", "'leave 8'", "read"),
    ("'split 2'", "'fence 2'", "/moves/1/do BadValue"),
    ("'split 2'", "'split 2 2'", "/moves/1/do BadValue"),
    ("'split 2'", "'create 3 10'", "/moves/1/do BadValue"),
    (
        "'split 2'",
        "'create 3 10 0:0 0:0 0:0 0:0 0:0 0:0 0:0 0:0'",
        "read",
    ),
    (
        "'split 2'",
        "'create 3 10 0:0 0:0 0:0 0:0 0:0 0:0 0:0 0:0 0:0'",
        "limit replicas",
    ),
    ("'split 2'", "'create 3 11 0:0'", "limit log2"),
];

/// Changes of the storm.
pub(crate) const STORM: &[Change] = &[
    ("'storm':", "'storms':", "read"),
    ("'seed':7,", "", "/storm/seed Missing"),
    ("'seed':7,", "'seed':'7',", "/storm/seed WrongType"),
    ("'seed':7,", "'seed':-1,", "/storm/seed BadValue"),
    ("'seed':7,", "'seed':0,", "read"),
    ("'seed':7,", "'seed':18446744073709551615,", "read"),
    (
        "'seed':7,",
        "'seed':18446744073709551616,",
        "/storm/seed WrongType",
    ),
    ("'lose':10,", "", "/storm/lose Missing"),
    ("'lose':10,", "'lose':1.5,", "/storm/lose WrongType"),
    ("'lose':10,", "'lose':-1,", "/storm/lose BadValue"),
    ("'lose':10,", "'lose':0,", "read"),
    ("'lose':10,", "'lose':100,", "read"),
    ("'lose':10,", "'lose':101,", "/storm/lose BadValue"),
    (",'repeat':5", "", "/storm/repeat Missing"),
    ("'repeat':5", "'repeat':[],", "/ NotJson"),
    ("'repeat':5", "'repeat':[]", "/storm/repeat WrongType"),
    ("'repeat':5", "'repeat':-1", "/storm/repeat BadValue"),
    ("'repeat':5", "'repeat':0", "read"),
    ("'repeat':5", "'repeat':100", "read"),
    ("'repeat':5", "'repeat':101", "/storm/repeat BadValue"),
];

/// Whole texts, and what is answered.
pub(crate) const TEXTS: [(&str, &str); 21] = [
    ("", "/ NotJson"),
    ("{", "/ NotJson"),
    ("{} x", "/ NotJson"),
    ("{'tablets':1e400}", "/ NotJson"),
    ("[]", "/ WrongType"),
    ("5", "/ WrongType"),
    ("null", "/ WrongType"),
    ("{}", "/tablets Missing"),
    ("{'tablets':1,'hosts':3}", "/lanes Missing"),
    ("{'tablets':1,'hosts':1,'lanes':1}", "/tables Missing"),
    (
        "{'tablets':1,'hosts':1,'lanes':1,'tables':null}",
        "/tables WrongType",
    ),
    (
        "{'tablets':1,'hosts':1,'lanes':1,'tables':{}}",
        "/tables WrongType",
    ),
    ("{'tablets':1,'hosts':1,'lanes':1,'tables':[]}", "read"),
    ("{'tablets':1,'hosts':64,'lanes':1,'tables':[]}", "read"),
    (
        "{'tablets':1,'hosts':65,'lanes':1,'tables':[]}",
        "limit hosts",
    ),
    (
        "{'tables':5,'lanes':0,'hosts':0,'tablets':1}",
        "/hosts BadValue",
    ),
    (
        "{'tables':[],'lanes':5,'hosts':257,'tablets':2}",
        "limit hosts",
    ),
    (
        "{'tablets':1,'hosts':1,'lanes':1,'tables':[],'scripts':{}}",
        "/scripts WrongType",
    ),
    (
        "{'tablets':1,'hosts':1,'lanes':1,'tables':[],'moves':{},'storm':5}",
        "/moves WrongType",
    ),
    (
        "{'tablets':1,'hosts':1,'lanes':1,'tables':[],'storm':[]}",
        "/storm WrongType",
    ),
    (
        "{'tablets':1,'hosts':1,'lanes':1,'tables':[],'storm':null}",
        "/storm WrongType",
    ),
];

/// How many tables of sixteen tablets stand in a document, what stands behind them in the list, and what is answered.
pub(crate) const COUNTED: [(u16, &str, &str); 6] = [
    (63, "{'id':64,'log2':4,'replicas':['0:0']}", "read"),
    (63, "{'id':64,'log2':5,'replicas':['0:0']}", "limit tablets"),
    (
        63,
        "{'id':62,'log2':4,'replicas':['0:0']}",
        "/tables/63/id BadValue",
    ),
    (63, "5", "/tables/63 WrongType"),
    (64, "{'id':64,'log2':4,'replicas':['0:0']}", "limit tables"),
    (64, "5", "limit tables"),
];

/// How many lists stand in one another in a document that passes them over, and what is answered.
pub(crate) const NESTED: [(usize, &str); 3] = [(1, "read"), (126, "read"), (127, "/ NotJson")];
