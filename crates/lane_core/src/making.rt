//! What is made ahead of an event: what the lane gives out, and the work that the request is left with.
ghost use Rattle.std.specs.Prelude.{◌≡◌, IfOk, option_map, IfSome};
ghost use Rattle.std.specs.Option.{option_copied};
ghost use Rattle.quorum_ops.specs.Pending.{IsUndecided};
ghost use Rattle.stage_graph.specs.declared.kind.Kind.TheVariants.{Read as ReadKind, Write as WriteKind};
ghost use Rattle.lane_core.specs.Work.{pending_in};
ghost use Rattle.lane_core.specs.Kept.{IsWaiting};
ghost use Rattle.lane_core.specs.Lane.{way_from, write_out, read_out, write_work, read_work, out_given_up};

use crate::data::LaneOut;
use crate::lane::Made;
use crate::work::Work;
use base_ids::{LaneId, NoMemory, OpId, TableId, Version};
use cell_merge::Cell;
use meta_snap::Snapshot;
use quorum_ops::{ReadOp, Reply, WriteOp};
use request_table::Live;
use shared_value::Shared;
use stage_graph::{Kind, Level};
use std::alloc::Global;
use token_ring::Token;

/// What a write that begins gives out and leaves.
pub(crate) fn made_write(
    alloc: Global,
    lane: LaneId,
    op: OpId,
    table: TableId,
    token: Token,
    cell: &Cell,
    level: Level,
    snapshot: &Snapshot,
) -> Result<Made, NoMemory>
    ensures out { IfOk result (λ made. made.out ≡
        write_out lane op snapshot.now.version table token cell.now
        (way_from snapshot.now lane.host WriteKind table token.value level)) }
    ensures work { IfOk result (λ made. made.work ≡
        write_work lane op (way_from snapshot.now lane.host WriteKind table token.value level)) }
    ensures waits { IfOk result (λ made. IfSome made.work (IsWaiting lane op)) }
{
    let version = snapshot.version();
    if !snapshot.is_member(lane.host) {
        return Ok(ended(op, version, Kind::Write, Reply::NotMember));
    }
    let Some(route) = snapshot.route(table, token, level) else {
        return Ok(ended(op, version, Kind::Write, Reply::NoTable));
    };
    let (write, asks) = WriteOp::begin(
        alloc,
        lane,
        op,
        version,
        table,
        token,
        *cell,
        route.writes,
        route.write_need,
    )?;
    Ok(Made {
        out: LaneOut::Writes(asks),
        work: Some(Work::Write(write)),
    })
}

/// What a read that begins gives out and leaves.
pub(crate) fn made_read(
    alloc: Global,
    lane: LaneId,
    op: OpId,
    table: TableId,
    token: Token,
    level: Level,
    snapshot: &Snapshot,
) -> Result<Made, NoMemory>
    ensures out { IfOk result (λ made. made.out ≡
        read_out lane op snapshot.now.version table token
        (way_from snapshot.now lane.host ReadKind table token.value level)) }
    ensures work { IfOk result (λ made. made.work ≡
        read_work lane op (way_from snapshot.now lane.host ReadKind table token.value level)) }
    ensures waits { IfOk result (λ made. IfSome made.work (IsWaiting lane op)) }
{
    let version = snapshot.version();
    if !snapshot.is_member(lane.host) {
        return Ok(ended(op, version, Kind::Read, Reply::NotMember));
    }
    let Some(route) = snapshot.route(table, token, level) else {
        return Ok(ended(op, version, Kind::Read, Reply::NoTable));
    };
    let (read, asks) = ReadOp::begin(
        alloc,
        lane,
        op,
        version,
        table,
        token,
        route.reads,
        route.read_need,
    )?;
    Ok(Made {
        out: LaneOut::Reads(asks),
        work: Some(Work::Read(read)),
    })
}

/// A request that is replied to at once leaves no work.
fn ended(op: OpId, version: Version, kind: Kind, reply: Reply) -> Made
    ensures { result ≡ record { out = LaneOut.Reply op version kind reply; work = None } }
{
    Made {
        out: LaneOut::Reply {
            op,
            version,
            kind,
            reply,
        },
        work: None,
    }
}

/// The reply to a request that is given up.
pub(crate) fn reply_given_up(op: OpId, kept: Option<&Live<Shared<Snapshot>, Work>>) -> LaneOut
    requires { IfSome (option_copied kept) (λ live. IsUndecided (pending_in live.work)) }
    ensures { result ≡ out_given_up op (option_copied kept.entry) }
{
    match kept {
        None => LaneOut::Nothing,
        Some(live) => LaneOut::Reply {
            op,
            version: live.version,
            kind: live.work.kind(),
            reply: live.work.timeout(),
        },
    }
}
