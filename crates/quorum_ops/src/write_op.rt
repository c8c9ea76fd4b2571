// A write that waits for its replicas.
ghost use Rattle.std.specs.Prelude.{◌≡◌, ◌≤◌, ◌<◌, length, map, take, IfOk};
ghost use Rattle.base_ids.specs.Replicas.{AreDistinct};
ghost use Rattle.quorum_ops.specs.Pending.{write_to};

use crate::data::{Answer, Reply, Said, WriteAsk, WriteAskList};
use crate::refusal::refusal_taking;
use crate::taking::Taking;
use base_ids::{Items, LaneId, NoMemory, OpId, Replica, TableId, Version};
use cell_merge::{Body, Cell};
use quorum_tally::{Tally, Verdict};
use std::alloc::Global;
use std::marker::Model;
use token_ring::Token;

/// A write of a lane that waits for the answers of its replicas.
#[derive(Debug, Drop)]
pub struct WriteOp {
    lane: LaneId,
    op: OpId,
    tally: Tally,
}

impl Model for WriteOp {
    ghost use Rattle.quorum_ops.specs.Pending.{Pending};

    ghost Value = { Pending };

    ghost view = { λ o. record { lane = o.lane; op = o.op; tally = o.tally } };
}

impl WriteOp {
    ghost use Rattle.std.specs.Prelude.{◌≡◌, ◌≤◌, length, map, IfOk};
    ghost use Rattle.base_ids.specs.Replicas.{AreDistinct};
    ghost use Rattle.quorum_ops.specs.Pending.{write_to, pending_of, NamesRequest, IsUndecided, after_answer, write_taking, timeout_of};

    /// Begins a write of this cell: one ask for each target, in their order. `NoMemory` comes where memory for the asks
    /// is refused.
    pub fn begin(
        alloc: Global,
        lane: LaneId,
        op: OpId,
        version: Version,
        table: TableId,
        token: Token,
        cell: Cell,
        targets: &[Replica],
        need: u8,
    ) -> Result<(WriteOp, WriteAskList), NoMemory>
        requires some { 1 ≤ length targets.now }
        requires few { length targets.now ≤ 9 }
        requires distinct { AreDistinct targets.now }
        requires needs_one { 1 ≤ need }
        requires reachable { need ≤ length targets.now }
        ensures write { IfOk result (λ begun. begun.0 ≡ pending_of lane op targets.now need) }
        ensures asks { IfOk result (λ begun. begun.1 ≡
            map (λ to. record {
              lane = lane;
              op = op;
              version = version;
              table = table;
              token = token;
              cell = cell;
              to = to;
            }) targets.now) }
    {
        let tally = Tally::new(targets, need);
        let ask = WriteAsk {
            lane,
            op,
            version,
            table,
            token,
            cell,
            to: targets[0],
        };
        let asks = write_asks(alloc, &ask, targets)?;
        Ok((WriteOp { lane, op, tally }, asks))
    }

    /// Takes an answer to this request, which nothing has decided yet.
    ///
    /// The answer decides `Ok` where with it enough targets have answered. It decides `Stale`, with its own fence,
    /// where it is a refusal and too few targets are left after it. Of each target only what it says first counts.
    pub fn take(&mut self, answer: &Answer) -> Taking
        requires named { NamesRequest self.old answer.now }
        requires undecided { IsUndecided self.old }
        ensures write { self.new ≡ after_answer self.old answer.now }
        ensures taking { result ≡ write_taking self.old answer.now }
    {
        match &answer.said {
            Said::Stale { fence } => {
                self.tally.refuse(answer.from);
                refusal_taking(&self.tally, *fence)
            }
            Said::Written | Said::Found(_) => {
                self.tally.answer(answer.from);
                match self.tally.verdict() {
                    Verdict::Enough => Taking::Decided(Reply::Ok),
                    Verdict::Hopeless { .. } | Verdict::Open => Taking::Waiting,
                }
            }
        }
    }

    /// An equal write, which takes answers of its own from then on.
    pub fn copy(&self) -> WriteOp
        ensures { result ≡ self.now }
    {
        WriteOp {
            lane: self.lane,
            op: self.op,
            tally: self.tally.copy(),
        }
    }

    /// The reply where the lane waits no longer. Nothing has decided the write.
    pub fn timeout(&self) -> Reply
        requires { IsUndecided self.now }
        ensures { result ≡ timeout_of self.now }
    {
        Reply::Timeout {
            answered: self.tally.answered(),
            required: self.tally.need(),
        }
    }
}

/// The ask for this target.
fn write_to(ask: &WriteAsk, to: Replica) -> WriteAsk
    ensures { result ≡ write_to ask.now to }
{
    WriteAsk {
        lane: ask.lane,
        op: ask.op,
        version: ask.version,
        table: ask.table,
        token: ask.token,
        cell: ask.cell,
        to,
    }
}

/// One ask for each target.
fn write_asks(alloc: Global, ask: &WriteAsk, targets: &[Replica]) -> Result<WriteAskList, NoMemory>
    ensures { IfOk result (λ asks. asks ≡ map (write_to ask.now) targets.now) }
{
    // The check wants the types inside the asks named in a function that moves them.
    let _inside: Option<(&Cell, &Body)> = None;
    let mut asks = Items::new(alloc);
    for to in targets {
        asks.push(write_to(ask, *to))?;
    }
    Ok(asks)
}
