// A read that waits for its replicas.
ghost use Rattle.std.specs.Prelude.{◌≡◌, map, IfOk};
ghost use Rattle.cell_merge.specs.Cell.{greater_cell};
ghost use Rattle.quorum_ops.specs.Pending.{read_to};

use crate::data::{Answer, ReadAsk, ReadAskList, Reply, Said};
use crate::refusal::refusal_taking;
use crate::taking::Taking;
use base_ids::{Items, LaneId, NoMemory, OpId, Replica, TableId, Version};
use cell_merge::{Cell, merge};
use quorum_tally::{Mark, Tally, Verdict};
use std::alloc::Global;
use std::marker::Model;
use token_ring::Token;

/// A read of a lane that waits for the answers of its replicas.
#[derive(Debug, Drop)]
pub struct ReadOp {
    lane: LaneId,
    op: OpId,
    tally: Tally,
    greatest: Option<Cell>,
}

impl Model for ReadOp {
    ghost use Rattle.quorum_ops.specs.Pending.{PendingRead};

    ghost Value = { PendingRead };

    ghost view = { λ o. record {
      request = record { lane = o.lane; op = o.op; tally = o.tally };
      greatest = o.greatest;
    } };
}

impl ReadOp {
    ghost use Rattle.std.specs.Prelude.{◌≡◌, ◌≤◌, length, map, IfOk};
    ghost use Rattle.base_ids.specs.Replicas.{AreDistinct};
    ghost use Rattle.quorum_ops.specs.Pending.{pending_read_of, NamesRequest, IsUndecided, read_after_answer, read_taking, data_taking, timeout_of};

    /// Begins a read: one ask for each target, in their order. `NoMemory` comes where memory for the asks is refused.
    pub fn begin(
        alloc: Global,
        lane: LaneId,
        op: OpId,
        version: Version,
        table: TableId,
        token: Token,
        targets: &[Replica],
        need: u8,
    ) -> Result<(ReadOp, ReadAskList), NoMemory>
        requires some { 1 ≤ length targets.now }
        requires few { length targets.now ≤ 9 }
        requires distinct { AreDistinct targets.now }
        requires needs_one { 1 ≤ need }
        requires reachable { need ≤ length targets.now }
        ensures read { IfOk result (λ begun. begun.0 ≡ pending_read_of lane op targets.now need) }
        ensures asks { IfOk result (λ begun. begun.1 ≡
            map (λ to. record {
              lane = lane;
              op = op;
              version = version;
              table = table;
              token = token;
              to = to;
            }) targets.now) }
    {
        let tally = Tally::new(targets, need);
        let ask = ReadAsk {
            lane,
            op,
            version,
            table,
            token,
            to: targets[0],
        };
        let asks = read_asks(alloc, &ask, targets)?;
        Ok((
            ReadOp {
                lane,
                op,
                tally,
                greatest: None,
            },
            asks,
        ))
    }

    /// Takes an answer to this request, which nothing has decided yet.
    ///
    /// The answer decides `Read`, with the greatest of the cells that counted, where with it enough targets have
    /// answered. It decides `Stale`, with its own fence, where it is a refusal and too few targets are left after it.
    /// Of each target only what it says first counts.
    pub fn take(&mut self, answer: &Answer) -> Taking
        requires named { NamesRequest self.old.request answer.now }
        requires undecided { IsUndecided self.old.request }
        ensures read { self.new ≡ read_after_answer self.old answer.now }
        ensures taking { result ≡ read_taking self.old answer.now }
    {
        match &answer.said {
            Said::Stale { fence } => {
                self.tally.refuse(answer.from);
                refusal_taking(&self.tally, *fence)
            }
            Said::Written => {
                self.tally.answer(answer.from);
                self.data_taking()
            }
            Said::Found(cell) => {
                if self.tally.answer(answer.from) == Mark::Fresh {
                    self.greatest = greater(&self.greatest, cell);
                }
                self.data_taking()
            }
        }
    }

    /// What an answer with data comes to, once it is marked.
    fn data_taking(&self) -> Taking
        ensures { result ≡ data_taking self.now.request.tally (Reply.Read self.now.greatest) }
    {
        match self.tally.verdict() {
            Verdict::Enough => Taking::Decided(Reply::Read(self.greatest)),
            Verdict::Hopeless { .. } | Verdict::Open => Taking::Waiting,
        }
    }

    /// An equal read, which takes answers of its own from then on.
    pub fn copy(&self) -> ReadOp
        ensures { result ≡ self.now }
    {
        ReadOp {
            lane: self.lane,
            op: self.op,
            tally: self.tally.copy(),
            greatest: self.greatest,
        }
    }

    /// The reply where the lane waits no longer. Nothing has decided the read.
    pub fn timeout(&self) -> Reply
        requires { IsUndecided self.now.request }
        ensures { result ≡ timeout_of self.now.request }
    {
        Reply::Timeout {
            answered: self.tally.answered(),
            required: self.tally.need(),
        }
    }
}

/// The greater one of two cells.
fn greater(a: &Option<Cell>, b: &Option<Cell>) -> Option<Cell>
    ensures { result ≡ greater_cell a.now b.now }
{
    merge(a.as_ref(), b.as_ref()).copied()
}

/// The ask for this target.
fn read_to(ask: &ReadAsk, to: Replica) -> ReadAsk
    ensures { result ≡ read_to ask.now to }
{
    ReadAsk {
        lane: ask.lane,
        op: ask.op,
        version: ask.version,
        table: ask.table,
        token: ask.token,
        to,
    }
}

/// One ask for each target.
fn read_asks(alloc: Global, ask: &ReadAsk, targets: &[Replica]) -> Result<ReadAskList, NoMemory>
    ensures { IfOk result (λ asks. asks ≡ map (read_to ask.now) targets.now) }
{
    let mut asks = Items::new(alloc);
    for to in targets {
        asks.push(read_to(ask, *to))?;
    }
    Ok(asks)
}
