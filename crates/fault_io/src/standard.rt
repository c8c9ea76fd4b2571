ghost use Rattle.std.specs.Prelude.{◌≡◌, ℕ, ◌≤◌, min, List, [], length, take, Option, IfSome, IfNone};
ghost use Rattle.std.specs.Io.KnownBytes.{Consumes, IsAtEnd};
ghost use Rattle.fault_io.specs.Counts.{last_count, raised_by, Rose};
ghost use Rattle.fault_io.specs.Given.{TakesWithin, bytes_taken, IsEnd, IsQuietTaken, before_left, not_told};
ghost use Rattle.fault_io.specs.Real.{failures_after_next, failures_after_put, Writes};
ghost use Rattle.fault_io.specs.Written.{PlacesWithin, bytes_placed, IsQuietPlaced, content_after};

use crate::adapters::{In, Out};
use crate::reading::{Source, Taken};
use crate::writing::{Placed, Sink};
use std::marker::Model;

/// A count after `n` more, which stops at 2^64 - 1.
fn raised_by(count: u64, n: usize) -> u64
    ensures { result ≡ raised_by count n }
{
    count.saturating_add(n as u64)
}

/// A real reader as a source, whose faults are the reader's failures. It tells no content. Once the count of failures
/// is at its last value it reads no more, and each call fails.
#[derive(Drop)]
pub struct StdSource<R> {
    reader: R,
    given: u64,
    calls: u64,
}

impl<R> Model for StdSource<R> {
    ghost use Rattle.fault_io.specs.Real.{RealSource, source_code};

    ghost Value = { RealSource R };

    ghost coded = { source_code R.code };

    ghost view = { λ s. record { reader = s.reader; given = s.given; calls = s.calls } };
}

impl<R: In> StdSource<R> {
    /// A source of what this reader has left.
    pub fn new(reader: R) -> StdSource<R>
        ensures { result ≡ record { reader = reader; given = 0; calls = 0 } }
    {
        StdSource {
            reader,
            given: 0,
            calls: 0,
        }
    }
}

impl<R: In> Source for StdSource<R> {
    ghost account = { λ s. record {
      left = not_told;
      given = s.given;
      calls = s.calls;
      faults = (R.account s.reader).failures;
    } };

    fn next(&mut self, buf: &mut [u8]) -> Taken
        ensures room { TakesWithin result (length buf.old) }
        ensures bytes { not_told ≡ before_left (bytes_taken result buf.new) not_told }
        ensures end { IsEnd result (length buf.old) → IfSome not_told (λ bytes. bytes ≡ []) }
        ensures given { self.new.given ≡ raised_by self.old.given (length (bytes_taken result buf.new)) }
        ensures called { self.new.calls ≡ raised_by self.old.calls 1 }
        ensures later { (R.account self.old.reader).failures ≤ (R.account self.new.reader).failures }
        ensures cause { result ≡ Taken.Failed →
            Rose (R.account self.old.reader).failures (R.account self.new.reader).failures }
        ensures quiet { IsQuietTaken result (R.account self.old.reader).failures (R.account self.new.reader).failures }

        // What comes of the reader, where its bytes are known.
        ensures read { Consumes (R.account self.old.reader).remaining (R.account self.new.reader).remaining
            (bytes_taken result buf.new) }
        ensures read_end { IsEnd result (length buf.old) → IsAtEnd (R.account self.new.reader).remaining }

        // The call fails exactly where one read of the reader failed, or the count of failures is at its last value.
        ensures failed { (R.account self.new.reader).failures
            ≡ failures_after_next (R.account self.old.reader).failures result }
        ensures spent { (R.account self.old.reader).failures ≡ last_count → result ≡ Taken.Failed }
        ensures untouched { (R.account self.old.reader).failures ≡ last_count → self.new.reader ≡ self.old.reader }
    {
        self.calls = raised_by(self.calls, 1);
        if self.reader.failures() == u64::MAX {
            return Taken::Failed;
        }
        match self.reader.read(buf) {
            Some(0) if !buf.is_empty() => Taken::End,
            Some(count) => {
                self.given = raised_by(self.given, count);
                Taken::Got(count)
            }
            None => Taken::Failed,
        }
    }
}

/// A real writer as a sink, which is flushed after each piece, and whose faults are the writer's failures. It tells no
/// content. Once the count of failures is at its last value it writes no more, and each call fails.
#[derive(Drop)]
pub struct StdSink<W> {
    writer: W,
}

impl<W: Out> StdSink<W> {
    /// A sink that writes to this writer.
    pub fn new(writer: W) -> StdSink<W>
        ensures { result ≡ record { writer = writer } }
    {
        StdSink { writer }
    }
}

impl<W: Out> Sink for StdSink<W> {
    ghost account = { λ s. record { content = not_told; faults = (W.account s.writer).failures } };

    fn put(&mut self, bytes: &[u8]) -> Placed
        ensures room { PlacesWithin result (length bytes.now) }
        ensures bytes { not_told ≡ content_after not_told (bytes_placed result bytes.now) }
        ensures later { (W.account self.old.writer).failures ≤ (W.account self.new.writer).failures }
        ensures cause { result ≡ Placed.Failed →
            Rose (W.account self.old.writer).failures (W.account self.new.writer).failures }
        ensures quiet { IsQuietPlaced result (W.account self.old.writer).failures (W.account self.new.writer).failures }

        // What goes to the writer: after a piece of which some was taken, all that was written is flushed.
        ensures written { Writes result (W.account self.old.writer) (W.account self.new.writer) bytes.now }

        // The call fails exactly where one call of the writer failed, or the count of failures is at its last value.
        ensures failed { (W.account self.new.writer).failures
            ≡ failures_after_put (W.account self.old.writer).failures result }
        ensures spent { (W.account self.old.writer).failures ≡ last_count → result ≡ Placed.Failed }
        ensures untouched { (W.account self.old.writer).failures ≡ last_count → self.new ≡ self.old }
    {
        if self.writer.failures() == u64::MAX {
            return Placed::Failed;
        }
        let Some(count) = self.writer.write(bytes) else {
            return Placed::Failed;
        };
        if self.writer.flush() {
            Placed::Took(count)
        } else {
            Placed::Failed
        }
    }
}
