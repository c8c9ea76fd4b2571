ghost use Rattle.std.specs.Prelude.{◌≡◌, ℕ, ◌≤◌, ◌<◌, ◌+◌, ◌++◌, ◌-◌, min, [], length, take, drop, IfSome, IfOk, Some};
ghost use Rattle.fault_io.specs.Counts.{raised_by, Rose};
ghost use Rattle.fault_io.specs.Given.{TakesWithin, bytes_taken, IsEnd, IsQuietTaken, before_left};
ghost use Rattle.fault_io.specs.Written.{PlacesWithin, bytes_placed, IsQuietPlaced, content_after};
ghost use Rattle.fault_io.specs.Memory.{is_failing, source_answer, source_after, sink_answer, sink_after};

use crate::reading::{Source, Taken};
use crate::writing::{Placed, Sink};
use base_ids::NoMemory;
use std::alloc::Global;
use std::marker::Model;

/// Whether the call after `calls` calls is one of those that are to fail, which are numbered from 1.
fn is_failing(fail_at: &[u64], calls: u64) -> bool
    ensures { result ≡ is_failing fail_at.now calls }
{
    let call = calls.saturating_add(1);
    fail_at.contains(&call)
}

/// Copies bytes of `bytes` from `at` on into the buffer: a piece, or as many as there are and the buffer has room for.
fn give(bytes: &[u8], at: usize, piece: usize, buf: &mut [u8]) -> usize
    requires { at ≤ length bytes.now }
    ensures count { result ≡ min (min piece (length buf.old)) (length (drop at bytes.now)) }
    ensures given { take result buf.new ++ drop (at + result) bytes.now ≡ drop at bytes.now }
{
    let left = &bytes[at..];
    let count = piece.min(buf.len()).min(left.len());
    buf[..count].copy_from_slice(&left[..count]);
    count
}

/// A source of the bytes that it is made with, which tells its content and fails when it is told to. The number of a
/// call stops at 2^64 - 1, as its counts do.
#[derive(Drop)]
pub struct MemorySource {
    bytes: Vec<u8>,
    at: usize,
    piece: usize,
    fail_at: Vec<u64>,
    calls: u64,
    faults: u64,
    given: u64,
}

impl Model for MemorySource {
    ghost use Rattle.std.specs.Prelude.{◌≤◌, ◌<◌, drop, vec_len};
    ghost use Rattle.fault_io.specs.Memory.{SourceState};

    ghost Value = { SourceState };

    ghost view = { λ s. record {
      left = drop s.at s.bytes.items;
      piece = s.piece;
      fail_at = s.fail_at.items;
      calls = s.calls;
      faults = s.faults;
      given = s.given;
    } };

    ghost invariant = { λ s. (s.at ≤ vec_len s.bytes) × (0 < s.piece) };
}

impl MemorySource {
    /// A source of these bytes. A call gives `piece` of them at most, and fails where `fail_at` has its number; the
    /// first call is 1.
    pub fn new(bytes: Vec<u8>, piece: usize, fail_at: Vec<u64>) -> MemorySource
        requires { 0 < piece }
        ensures { result ≡ record {
          left = bytes.items;
          piece = piece;
          fail_at = fail_at.items;
          calls = 0;
          faults = 0;
          given = 0;
        } }
    {
        MemorySource {
            bytes,
            at: 0,
            piece,
            fail_at,
            calls: 0,
            faults: 0,
            given: 0,
        }
    }
}

impl Source for MemorySource {
    ghost account = { λ s. record { left = Some s.left; given = s.given; calls = s.calls; faults = s.faults } };

    fn next(&mut self, buf: &mut [u8]) -> Taken
        ensures room { TakesWithin result (length buf.old) }
        ensures bytes { Some self.old.left ≡ before_left (bytes_taken result buf.new) (Some self.new.left) }
        ensures end { IsEnd result (length buf.old) → IfSome (Some self.old.left) (λ bytes. bytes ≡ []) }
        ensures given { self.new.given ≡ raised_by self.old.given (length (bytes_taken result buf.new)) }
        ensures called { self.new.calls ≡ raised_by self.old.calls 1 }
        ensures later { self.old.faults ≤ self.new.faults }
        ensures cause { result ≡ Taken.Failed → Rose self.old.faults self.new.faults }
        ensures quiet { IsQuietTaken result self.old.faults self.new.faults }

        // Which answer comes, and what it changes.
        ensures answer { result ≡ source_answer self.old (length buf.old) }
        ensures after { self.new ≡ source_after self.old result }
    {
        let fails = is_failing(self.fail_at.as_slice(), self.calls);
        self.calls = self.calls.saturating_add(1);
        if fails {
            self.faults = self.faults.saturating_add(1);
            return Taken::Failed;
        }
        if self.at == self.bytes.len() {
            return Taken::End;
        }
        let count = give(self.bytes.as_slice(), self.at, self.piece, buf);
        self.at += count;
        self.given = self.given.saturating_add(count as u64);
        Taken::Got(count)
    }
}

/// A sink that keeps what it takes in memory, which tells its content and fails when it is told to. The number of a
/// call stops at 2^64 - 1, as its count does.
#[derive(Drop)]
pub struct MemorySink {
    bytes: Vec<u8>,
    piece: usize,
    room: usize,
    fail_at: Vec<u64>,
    calls: u64,
    faults: u64,
}

impl Model for MemorySink {
    ghost use Rattle.std.specs.Prelude.{◌≤◌, ◌<◌, vec_len, vec_capacity};
    ghost use Rattle.fault_io.specs.Memory.{SinkState};

    ghost Value = { SinkState };

    ghost view = { λ s. record {
      content = s.bytes.items;
      piece = s.piece;
      room = s.room;
      fail_at = s.fail_at.items;
      calls = s.calls;
      faults = s.faults;
    } };

    ghost invariant = { λ s. (vec_len s.bytes ≤ s.room) × (s.room ≤ vec_capacity s.bytes) × (0 < s.piece) };
}

impl MemorySink {
    /// A sink with room for `room` bytes, which are set aside at once. A call takes `piece` bytes at most. It fails
    /// where `fail_at` has its number, with 1 for the first call, and once the room is full for any byte more.
    /// `NoMemory` comes where that room cannot be had.
    pub fn new(
        alloc: Global,
        piece: usize,
        room: usize,
        fail_at: Vec<u64>,
    ) -> Result<MemorySink, NoMemory>
        requires { 0 < piece }
        ensures { IfOk result (λ sink. sink ≡ record {
          content = [];
          piece = piece;
          room = room;
          fail_at = fail_at.items;
          calls = 0;
          faults = 0;
        }) }
    {
        let bytes = Vec::with_capacity(alloc, room).map_err(|_| NoMemory)?;
        Ok(MemorySink {
            bytes,
            piece,
            room,
            fail_at,
            calls: 0,
            faults: 0,
        })
    }

    /// The bytes that were taken so far.
    pub fn content(&self) -> &[u8]
        ensures { result.now ≡ self.now.content }
    {
        self.bytes.as_slice()
    }
}

impl Sink for MemorySink {
    ghost account = { λ s. record { content = Some s.content; faults = s.faults } };

    fn put(&mut self, bytes: &[u8]) -> Placed
        ensures room { PlacesWithin result (length bytes.now) }
        ensures bytes { Some self.new.content ≡ content_after (Some self.old.content) (bytes_placed result bytes.now) }
        ensures later { self.old.faults ≤ self.new.faults }
        ensures cause { result ≡ Placed.Failed → Rose self.old.faults self.new.faults }
        ensures quiet { IsQuietPlaced result self.old.faults self.new.faults }

        // Which answer comes, and what it changes.
        ensures answer { result ≡ sink_answer self.old (length bytes.now) }
        ensures after { self.new ≡ sink_after self.old bytes.now result }
    {
        let fails = is_failing(self.fail_at.as_slice(), self.calls);
        self.calls = self.calls.saturating_add(1);
        let count = self
            .piece
            .min(bytes.len())
            .min(self.room - self.bytes.len());
        if fails || (!bytes.is_empty() && count == 0) {
            self.faults = self.faults.saturating_add(1);
            return Placed::Failed;
        }
        self.bytes.extend_from_slice(&bytes[..count]).unwrap();
        Placed::Took(count)
    }
}
