//! Moves and resizes that come to their end by what is planned, act by act.
use crate::driver::{ACTING, act, catch_up_all, look, machine_of, request};
use base_ids::{HostId, Replica, Session, ShardId, TableId};
use cell_merge::{Body, Cell};
use cluster_history::Operation;
use cluster_machine::Machine;
use migrate_core::{Next, awaited_barrier, plan_next};
use quorum_ops::Reply;
use replica_store::gather;
use resize_core::plan_resize;
use stage_graph::Level;
use std::alloc::Global;
use std::test::Fail;
use token_ring::{TabletId, Token, TokenRange};
use topo_state::{Command, ResizeKind};

/// The table of the tests.
const TABLE: TableId = TableId(1);

/// No move or resize of the tests has so many acts.
const MOST_ACTS: u32 = 100;

/// The replica on a host.
const fn on(host: u16) -> Replica {
    Replica {
        host: HostId(host),
        shard: ShardId(0),
    }
}

/// The token of a value.
fn token(value: i64) -> Result<Token, Fail> {
    Ok(Token::new(value).ok_or("no token")?)
}

/// A cell of a time.
const fn cell(timestamp: i64) -> Cell {
    Cell {
        timestamp,
        body: Body::Dead(1),
    }
}

/// Writes the cell of a time.
fn write(alloc: Global, machine: &mut Machine, at: i64, time: i64) -> Result<Option<Reply>, Fail> {
    let operation = Operation::Write {
        table: TABLE,
        token: token(at)?,
        cell: cell(time),
        level: Level::Quorum,
    };
    request(alloc, machine, operation)
}

/// Whether the cell of a time is read.
fn finds(alloc: Global, machine: &mut Machine, at: i64, time: i64) -> Result<bool, Fail> {
    let operation = Operation::Read {
        table: TABLE,
        token: token(at)?,
        level: Level::Quorum,
    };
    let reply = request(alloc, machine, operation)?;
    Ok(reply == Some(Reply::Read(Some(cell(time)))))
}

/// Writes a cell at each token from the first to before the last.
fn fill(alloc: Global, machine: &mut Machine, first: i64, last: i64) -> Result<(), Fail> {
    for at in first..last {
        if write(alloc, machine, at, at)? != Some(Reply::Ok) {
            return Err(Fail::from("a write has no answer"));
        }
    }
    Ok(())
}

/// What is to come to its end.
#[derive(Clone, Copy)]
enum Aim {
    /// The move of a session, or its way back.
    Move { session: Session, back: bool },
    /// The resize of this number.
    Resize(Session),
}

impl Aim {
    /// The number of the move or the resize.
    fn number(self) -> Session {
        match self {
            Aim::Move { session, .. } => session,
            Aim::Resize(number) => number,
        }
    }
}

/// What the coordinator is to do next.
fn planned(machine: &Machine, aim: Aim) -> Result<Next, Fail> {
    if machine.journal().opening.hosts <= ACTING.0 {
        return Err(Fail::from("no such host"));
    }
    let (state, evidence) = (
        machine.topo(ACTING).state(),
        machine.topo(ACTING).evidence(),
    );
    match aim {
        Aim::Move { session, back } => Ok(plan_next(state, evidence, session, back)),
        Aim::Resize(number) => Ok(plan_resize(state, evidence, TABLE, number)),
    }
}

/// The host whose barrier the coordinator waits for.
fn awaited(machine: &Machine) -> Result<Option<HostId>, Fail> {
    if machine.journal().opening.hosts <= ACTING.0 {
        return Err(Fail::from("no such host"));
    }
    let topo = machine.topo(ACTING);
    Ok(awaited_barrier(topo.evidence(), topo.state()))
}

/// The coordinator looks, hears that each host has drained its version, and proposes a command. The number of what the
/// command begins.
fn begin(machine: &mut Machine, command: Command) -> Result<Session, Fail> {
    look(machine)?;
    for _ in 0..3 {
        if let Some(host) = awaited(machine)? {
            act(machine, Next::Barrier(host), Session(0))?;
        }
    }
    act(machine, Next::Propose(command), Session(0))?;
    Ok(Session(machine.log().len()))
}

/// Whether the old cells of both tablets are read, and one that is later than all others is written and read.
fn is_kept(alloc: Global, machine: &mut Machine) -> Result<bool, Fail> {
    for at in [-3, -1, 0, 64, 69] {
        if !finds(alloc, machine, at, at)? {
            return Ok(false);
        }
    }
    let later = i64::try_from(machine.log().len())?.saturating_add(100);
    let written = write(alloc, machine, 5, later)?;
    Ok(written == Some(Reply::Ok) && finds(alloc, machine, 5, later)?)
}

/// Does what is planned up to before a proposal behind so many, or until nothing is planned.
fn pursue(machine: &mut Machine, aim: Aim, most: u32) -> Result<(), Fail> {
    let mut proposals = 0_u32;
    for _ in 0..MOST_ACTS {
        let next = planned(machine, aim)?;
        match &next {
            Next::Nothing => return Ok(()),
            Next::Propose(_) if proposals == most => return Ok(()),
            Next::Propose(_) => proposals = proposals.saturating_add(1),
            _ => {}
        }
        act(machine, next, aim.number())?;
    }
    Err(Fail::from("there is no end"))
}

/// Goes on by one proposal so many times, and looks for the cells each time.
fn goes(alloc: Global, machine: &mut Machine, aim: Aim, times: u32) -> Result<(), Fail> {
    for _ in 0..times {
        pursue(machine, aim, 1)?;
        catch_up_all(machine)?;
        if !is_kept(alloc, machine)? {
            return Err(Fail::from("a cell is lost"));
        }
    }
    Ok(())
}

/// How many cells of the table a host has.
fn cells(alloc: Global, machine: &Machine, host: HostId) -> Result<usize, Fail> {
    if machine.journal().opening.hosts <= host.0 {
        return Err(Fail::from("no such host"));
    }
    let range = TokenRange {
        first: token(i64::MIN + 1)?,
        last: token(i64::MAX)?,
    };
    let list = gather(alloc, machine.host(host).store(), TABLE, range, 64)?;
    Ok(list.as_slice().len())
}

/// Hosts 0 to 2, and a table of two tablets on host 0.
const ON_ONE: &[u8] = b"tablets 2\nhosts 3\nlanes 1\ntable 1 1 0:0\ngo\n";

/// A move of the right tablet from host 0 to host 1 goes forward by so many stages, and then to its end, or back. How
/// many commands the log has then, and how many cells hosts 0 and 1 have.
fn moved(alloc: Global, forward: u32, back: bool) -> Result<(u64, usize, usize), Fail> {
    let mut machine = machine_of(alloc, ON_ONE)?;
    fill(alloc, &mut machine, -3, 70)?;
    let start = Command::Start {
        table: TABLE,
        tablet: TabletId(1),
        leaving: on(0),
        pending: on(1),
    };
    let session = begin(&mut machine, start)?;
    goes(
        alloc,
        &mut machine,
        Aim::Move {
            session,
            back: false,
        },
        forward,
    )?;
    goes(alloc, &mut machine, Aim::Move { session, back }, 7)?;
    Ok((
        machine.log().len(),
        cells(alloc, &machine, HostId(0))?,
        cells(alloc, &machine, HostId(1))?,
    ))
}

#[test]
fn a_planned_move_goes_to_its_end_or_back(rt: HostRuntime) -> Result<(), Fail> {
    for (forward, back, wanted) in [
        (0, false, (8, 3, 70)),
        (0, true, (4, 73, 0)),
        (1, true, (5, 73, 0)),
        (2, true, (6, 73, 0)),
        (3, true, (8, 73, 0)),
    ] {
        assert_eq!(rt; moved(rt.alloc(), forward, back)?, wanted);
    }
    Ok(())
}

/// Hosts 0 to 2, and a table of two tablets on hosts 0 and 1.
const ON_TWO: &[u8] = b"tablets 2\nhosts 3\nlanes 1\ntable 1 1 0:0 1:0\ngo\n";

/// In how many runs host 1 has the table's cells.
fn runs(machine: &Machine) -> Result<usize, Fail> {
    if machine.journal().opening.hosts <= 1 {
        return Err(Fail::from("no such host"));
    }
    Ok(machine.host(HostId(1)).store().run_count(TABLE))
}

/// The table is resized to the end. The runs of host 1 before the resize is finalized, the logarithm of the count of
/// tablets after it, and the runs then.
fn resized(machine: &mut Machine, kind: ResizeKind) -> Result<(usize, Option<u8>, usize), Fail> {
    let number = begin(machine, Command::Resize { table: TABLE, kind })?;
    pursue(machine, Aim::Resize(number), 0)?;
    let before = runs(machine)?;
    pursue(machine, Aim::Resize(number), 1)?;
    catch_up_all(machine)?;
    let log2 = machine
        .log()
        .state()
        .table(TABLE)
        .map(|table| table.map.log2());
    Ok((before, log2, runs(machine)?))
}

#[test]
fn planned_resizes_go_to_their_ends(rt: HostRuntime) -> Result<(), Fail> {
    let alloc = rt.alloc();
    let mut machine = machine_of(alloc, ON_TWO)?;
    fill(alloc, &mut machine, -3, 3)?;
    for (kind, wanted) in [
        (ResizeKind::Split, (4, Some(2), 4)),
        (ResizeKind::Split, (8, Some(3), 8)),
        (ResizeKind::Merge, (8, Some(2), 4)),
        (ResizeKind::Keep, (4, Some(2), 4)),
    ] {
        assert_eq!(rt; resized(&mut machine, kind)?, wanted);
        assert_eq!(rt; cells(alloc, &machine, HostId(1))?, 6);
        assert!(rt; finds(alloc, &mut machine, -3, -3)?);
    }
    Ok(())
}
