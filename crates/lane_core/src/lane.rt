ghost use Rattle.std.specs.Prelude.{◌≡◌, ◌+◌, ◌<◌, ◌^◌, length, None, Some, IfOk, IfSome, MatchResult};
ghost use Rattle.request_table.specs.Requests.{is_live_below};
ghost use Rattle.lane_core.specs.Lane.{lane_first, lane_restarted, next_request, room_rule, lane_rule, lane_after, lane_out, with_next, IsFor};

use crate::data::{LaneInput, LaneOut};
use crate::making::{made_read, made_write, reply_given_up};
use crate::work::Work;
use base_ids::{EventRule, LaneId, NoMemory, OpId, Version};
use meta_snap::Snapshot;
use quorum_ops::{Answer, Taking};
use request_table::RequestTable;
use shared_value::Shared;
use std::alloc::Global;
use std::marker::Model;

/// What is made ahead of an event.
#[derive(Drop)]
pub(crate) struct Made {
    /// What the lane gives out.
    pub(crate) out: LaneOut,
    /// The work that the request is left with.
    pub(crate) work: Option<Work>,
}

/// An input for which all memory is there. Callers see it as that input.
#[derive(Drop)]
pub struct Prepared {
    input: LaneInput,
}

impl Model for Prepared {
    ghost use Rattle.lane_core.specs.declared.data.LaneInput.{LaneInput};

    ghost Value = { LaneInput };

    ghost view = { λ p. p.input };
}

/// A lane. Callers see it as plain data, and beside it what was prepared.
#[derive(Drop)]
pub struct LaneCore {
    alloc: Global,
    lane: LaneId,
    begun: u64,
    requests: RequestTable<Shared<Snapshot>, Work>,
    made: Option<Made>,
}

impl Model for LaneCore {
    ghost use Rattle.lane_core.specs.Kept.{LaneHolding, AreKept};

    ghost Value = { LaneHolding };

    ghost view = { λ l. record {
      core = record { lane = l.lane; begun = l.begun; live = l.requests.live };
      made = l.made;
      room = l.requests.room;
    } };

    ghost invariant = { λ l. AreKept l.lane l.begun l.requests.live };
}

impl LaneCore {
    ghost use Rattle.lane_core.specs.Kept.{HasMade, HasRoom, IsMade, IsWaiting};
    ghost use Rattle.lane_core.specs.declared.data.LaneInput.{LaneInput};

    /// A lane that has begun nothing.
    pub fn new(alloc: Global, lane: LaneId) -> LaneCore
        ensures { result.core ≡ lane_first lane }
    {
        LaneCore {
            alloc,
            lane,
            begun: 0,
            requests: RequestTable::new(alloc),
            made: None,
        }
    }

    /// The lane's name.
    pub fn lane(&self) -> LaneId
        ensures { result ≡ self.now.core.lane }
    {
        self.lane
    }

    /// How many requests it has begun.
    pub fn begun(&self) -> u64
        ensures { result ≡ self.now.core.begun }
    {
        self.begun
    }

    /// How many requests are live.
    pub fn live(&self) -> usize
        ensures { result ≡ length self.now.core.live }
    {
        self.requests.len()
    }

    /// Whether a live request uses a version below this one.
    pub fn live_below(&self, version: Version) -> bool
        ensures { result ≡ is_live_below self.now.core.live version }
    {
        self.requests.live_below(version)
    }

    /// Whether the input may happen. The error is the first rule that it breaks: a lane has at most 8 live requests,
    /// and only a live one is given up.
    pub fn check(&self, input: &LaneInput) -> Result<(), EventRule>
        ensures { MatchResult result (λ _. lane_rule self.now.core input.now ≡ None)
            (λ broken. lane_rule self.now.core input.now ≡ Some broken) }
    {
        match input {
            LaneInput::Write { .. } | LaneInput::Read { .. } => self.check_begin(),
            LaneInput::Take(_) => Ok(()),
            LaneInput::Timeout(op) => match self.requests.get(*op) {
                Some(_) => Ok(()),
                None => Err(EventRule::NoRequest),
            },
        }
    }

    /// Whether a request may begin.
    fn check_begin(&self) -> Result<(), EventRule>
        ensures { MatchResult result (λ _. room_rule self.now.core ≡ None)
            (λ broken. room_rule self.now.core ≡ Some broken) }
    {
        if self.requests.len() >= 8 {
            return Err(EventRule::LaneFull);
        }
        Ok(())
    }

    /// What is made ahead for an input: for a begin alone.
    fn make(&mut self, input: &LaneInput) -> Result<(), NoMemory>
        requires { IsFor self.old.core input.now }
        ensures core { self.new.core ≡ self.old.core }
        ensures made { IfOk result (λ _. IsMade self.old.core self.new.made input.now) }
    {
        match input {
            LaneInput::Write {
                table,
                token,
                cell,
                level,
                snapshot,
            } => {
                let op = OpId(self.begun + 1);
                self.made = Some(made_write(
                    self.alloc,
                    self.lane,
                    op,
                    *table,
                    *token,
                    cell,
                    *level,
                    snapshot.get(),
                )?);
            }
            LaneInput::Read {
                table,
                token,
                level,
                snapshot,
            } => {
                let op = OpId(self.begun + 1);
                self.made = Some(made_read(
                    self.alloc,
                    self.lane,
                    op,
                    *table,
                    *token,
                    *level,
                    snapshot.get(),
                )?);
            }
            LaneInput::Take(_) | LaneInput::Timeout(_) => {}
        }
        Ok(())
    }

    /// Makes room for the next request, where the input begins one.
    fn make_room(&mut self, input: &LaneInput) -> Result<(), NoMemory>
        requires { IsFor self.old.core input.now }
        ensures core { self.new.core ≡ self.old.core }
        ensures made { self.new.made ≡ self.old.made }
        ensures room { IfOk result (λ _. HasRoom self.new.core self.new.room input.now) }
    {
        match input {
            LaneInput::Write { .. } | LaneInput::Read { .. } => {
                self.requests.reserve(OpId(self.begun + 1))?;
            }
            LaneInput::Take(_) | LaneInput::Timeout(_) => {}
        }
        Ok(())
    }

    /// Takes all memory that an input needs. Nothing of the lane changes, also at `NoMemory`. An answer in the input
    /// is to this lane.
    pub fn prepare(&mut self, input: LaneInput) -> Result<Prepared, NoMemory>
        requires rule { lane_rule self.old.core input ≡ None }
        requires for_it { IsFor self.old.core input }
        ensures core { self.new.core ≡ self.old.core }
        ensures input { IfOk result (λ prepared. prepared ≡ input) }
        ensures ready { IfOk result (λ prepared. HasMade self.new prepared) }
    {
        self.make(&input)?;
        self.make_room(&input)?;
        Ok(Prepared { input })
    }

    /// Carries out what was prepared by the last call on this lane. Takes no memory.
    pub fn settle(&mut self, prepared: Prepared) -> LaneOut
        requires { HasMade self.old prepared }
        ensures core { self.new.core ≡ lane_after self.old.core prepared }
        ensures out { result ≡ lane_out self.old.core prepared }
    {
        let Prepared { input } = prepared;
        match input {
            LaneInput::Write { snapshot, .. } | LaneInput::Read { snapshot, .. } => {
                let Some(Made { out, work }) = self.made.take() else {
                    unreachable!()
                };
                self.begin(snapshot, work);
                out
            }
            LaneInput::Take(answer) => self.take(&answer),
            LaneInput::Timeout(op) => self.give_up(op),
        }
    }

    /// Takes an answer to this lane.
    fn take(&mut self, answer: &Answer) -> LaneOut
        requires { answer.now.lane ≡ self.old.core.lane }
        ensures core { self.new.core ≡ lane_after self.old.core (LaneInput.Take answer.now) }
        ensures out { result ≡ lane_out self.old.core (LaneInput.Take answer.now) }
    {
        let Some(live) = self.requests.get(answer.op) else {
            return LaneOut::Nothing;
        };
        let version = live.version;
        let kind = live.work.kind();
        let Some(work) = self.requests.get_mut(answer.op) else {
            unreachable!()
        };
        match work.take(answer) {
            Taking::Waiting => LaneOut::Nothing,
            Taking::Decided(reply) => {
                self.requests.remove(answer.op);
                LaneOut::Reply {
                    op: answer.op,
                    version,
                    kind,
                    reply,
                }
            }
        }
    }

    /// Gives up a request.
    fn give_up(&mut self, op: OpId) -> LaneOut
        ensures core { self.new.core ≡ lane_after self.old.core (LaneInput.Timeout op) }
        ensures out { result ≡ lane_out self.old.core (LaneInput.Timeout op) }
    {
        let out = reply_given_up(op, self.requests.get(op));
        self.requests.remove(op);
        out
    }

    /// Begins the next request, which lives where it has work.
    fn begin(&mut self, snapshot: Shared<Snapshot>, work: Option<Work>)
        requires countable { self.old.core.begun + 1 < 2 ^ 64 }
        requires room { self.old.room ≡ Some (next_request self.old.core) }
        requires waits { IfSome work (IsWaiting self.old.core.lane (next_request self.old.core)) }
        ensures { self.new.core ≡ with_next self.old.core snapshot work }
    {
        match work {
            Some(work) => self.insert(snapshot, work),
            None => self.begun += 1,
        }
    }

    /// Begins the next request, for which there is room, with this work.
    fn insert(&mut self, snapshot: Shared<Snapshot>, work: Work)
        requires countable { self.old.core.begun + 1 < 2 ^ 64 }
        requires room { self.old.room ≡ Some (next_request self.old.core) }
        requires waits { IsWaiting self.old.core.lane (next_request self.old.core) work }
        ensures { self.new.core ≡ with_next self.old.core snapshot (Some work) }
    {
        let op = OpId(self.begun + 1);
        let version = snapshot.version();
        self.requests.insert(op, version, snapshot, work);
        self.begun = op.0;
    }

    /// Loses all live requests, and what was prepared. The count of begins stays. Takes no memory.
    pub fn restart(&mut self)
        ensures core { self.new.core ≡ lane_restarted self.old.core }
        ensures made { self.new.made ≡ None }
    {
        self.requests.clear();
        self.made = None;
    }
}
