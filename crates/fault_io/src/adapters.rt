ghost use Rattle.std.specs.Prelude.{◌≡◌, ℕ, ◌<◌, ◌≤◌, min, List, length, take, IfSome, IfNone};
ghost use Rattle.std.specs.Io.KnownBytes.{Appends, Consumes, IsAtEnd, Keeps};
ghost use Rattle.fault_io.specs.Counts.{raised_by};
ghost use Rattle.fault_io.specs.Real.{InAccount, OutAccount, bytes_read, failures_after, failures_after_flush, flushed_after};

use std::io::{Read, Write};
use std::marker::Model;

/// A reader whose failed reads are counted. This trait is the project's own: what std says of a reader does not tell
/// whether one of its reads failed, and so no clause over std's trait refuses a failure that is passed over.
pub trait In {
    // What is told of the reader: what its reads will give, where it is known, and how many have failed.
    ghost account: { Self → InAccount };

    /// How many reads have failed. The count stops at 2^64 - 1.
    fn failures(&self) -> u64
        ensures { result ≡ (account self.now).failures };

    /// Reads once: so many bytes were given, which are the first ones of the buffer, or the read failed and gave
    /// nothing. No byte for a buffer that has room says that nothing is left.
    fn read(&mut self, buf: &mut [u8]) -> Option<usize>
        ensures room { IfSome result (λ n. n ≤ length buf.new) }
        ensures bytes { Consumes (account self.old).remaining (account self.new).remaining (bytes_read result buf.new) }
        ensures end { IfSome result (λ n. n ≡ 0 → 0 < length buf.old → IsAtEnd (account self.new).remaining) }
        ensures failed { (account self.new).failures ≡ failures_after (account self.old).failures result };
}

/// A writer that counts the bytes that were written, those of them that were flushed, and its failures. This trait is
/// the project's own: what std says of a writer does not tell what was flushed, nor whether a call failed.
pub trait Out {
    // What is told of the writer: the bytes that it holds, where they are known, and its counts.
    ghost account: { Self → OutAccount };

    /// How many writes and flushes have failed. The count stops at 2^64 - 1.
    fn failures(&self) -> u64
        ensures { result ≡ (account self.now).failures };

    /// Writes some of the piece, from its first byte on and at least one byte if there is one, or fails and writes
    /// nothing.
    fn write(&mut self, piece: &[u8]) -> Option<usize>
        ensures room { IfSome result (λ n. (n ≤ length piece.now) × (min 1 (length piece.now) ≤ n)) }
        ensures bytes { Appends (account self.old).contents (account self.new).contents (bytes_read result piece.now) }
        ensures count { (account self.new).written
            ≡ raised_by (account self.old).written (length (bytes_read result piece.now)) }
        ensures flushed { (account self.new).flushed ≡ (account self.old).flushed }
        ensures failed { (account self.new).failures ≡ failures_after (account self.old).failures result };

    /// Flushes all that was written, or fails.
    fn flush(&mut self) -> bool
        ensures bytes { Keeps (account self.old).contents (account self.new).contents }
        ensures count { (account self.new).written ≡ (account self.old).written }
        ensures flushed { (account self.new).flushed ≡ flushed_after (account self.old) result }
        ensures failed { (account self.new).failures ≡ failures_after_flush (account self.old).failures result };
}

/// Reads once from a reader of std. That it asks just once, and that `None` comes where that read failed, no clause can
/// say: it is trusted, as this line shows it.
fn read_once<R: Read>(reader: &mut R, buf: &mut [u8]) -> Option<usize>
    ensures room { IfSome result (λ n. n ≤ length buf.new) }
    ensures bytes { Consumes (R.remaining reader.old) (R.remaining reader.new) (bytes_read result buf.new) }
    ensures end { IfSome result (λ n. n ≡ 0 → 0 < length buf.old → IsAtEnd (R.remaining reader.new)) }
{
    reader.read(buf).ok()
}

/// Writes once to a writer of std. That it is asked just once, and that `None` comes where that write failed, is
/// trusted, as for a read.
fn write_once<W: Write>(writer: &mut W, piece: &[u8]) -> Option<usize>
    ensures room { IfSome result (λ n. n ≤ length piece.now) }
    ensures bytes { Appends (W.contents writer.old) (W.contents writer.new) (bytes_read result piece.now) }
{
    writer.write(piece).ok()
}

/// Flushes a writer of std once. That it is flushed, and that `false` comes where that failed, is trusted, as for a
/// read.
fn flush_once<W: Write>(writer: &mut W) -> bool
    ensures { Keeps (W.contents writer.old) (W.contents writer.new) }
{
    writer.flush().is_ok()
}

/// A reader of std with a count of its failures.
#[derive(Drop)]
pub struct CountedReader<R> {
    reader: R,
    failures: u64,
}

impl<R> Model for CountedReader<R> {
    ghost use Rattle.fault_io.specs.Real.{ReaderState, reader_code};

    ghost Value = { ReaderState R };

    ghost coded = { reader_code R.code };

    ghost view = { λ s. record { reader = s.reader; failures = s.failures } };
}

impl<R: Read> CountedReader<R> {
    /// This reader, none of whose reads has failed so far.
    pub fn new(reader: R) -> CountedReader<R>
        ensures { result ≡ record { reader = reader; failures = 0 } }
    {
        CountedReader {
            reader,
            failures: 0,
        }
    }
}

impl<R: Read> In for CountedReader<R> {
    ghost account = { λ s. record { remaining = R.remaining s.reader; failures = s.failures } };

    fn failures(&self) -> u64 {
        self.failures
    }

    fn read(&mut self, buf: &mut [u8]) -> Option<usize> {
        let answer = read_once(&mut self.reader, buf);
        if answer.is_none() {
            self.failures = self.failures.saturating_add(1);
        }
        answer
    }
}

/// A writer of std that counts its written bytes, its flushed bytes and its failures. A write that is given bytes and
/// takes none of them has failed too.
#[derive(Drop)]
pub struct CountedWriter<W> {
    writer: W,
    written: u64,
    flushed: u64,
    failures: u64,
}

impl<W> Model for CountedWriter<W> {
    ghost use Rattle.fault_io.specs.Real.{WriterState, writer_code};

    ghost Value = { WriterState W };

    ghost coded = { writer_code W.code };

    ghost view = { λ s. record {
      writer = s.writer;
      written = s.written;
      flushed = s.flushed;
      failures = s.failures;
    } };
}

impl<W: Write> CountedWriter<W> {
    /// This writer, to which nothing was written so far.
    pub fn new(writer: W) -> CountedWriter<W>
        ensures { result ≡ record { writer = writer; written = 0; flushed = 0; failures = 0 } }
    {
        CountedWriter {
            writer,
            written: 0,
            flushed: 0,
            failures: 0,
        }
    }
}

impl<W: Write> Out for CountedWriter<W> {
    ghost account = { λ s. record {
      contents = W.contents s.writer;
      written = s.written;
      flushed = s.flushed;
      failures = s.failures;
    } };

    fn failures(&self) -> u64 {
        self.failures
    }

    fn write(&mut self, piece: &[u8]) -> Option<usize> {
        match write_once(&mut self.writer, piece) {
            Some(count) if count > 0 || piece.is_empty() => {
                self.written = self.written.saturating_add(count as u64);
                Some(count)
            }
            _ => {
                self.failures = self.failures.saturating_add(1);
                None
            }
        }
    }

    fn flush(&mut self) -> bool {
        let done = flush_once(&mut self.writer);
        if done {
            self.flushed = self.written;
        } else {
            self.failures = self.failures.saturating_add(1);
        }
        done
    }
}
