// Real readers and writers: what no clause says of them.
use fault_io::{
    CountedReader, CountedWriter, In, Out, StdSink, StdSource, WriteFault, read_all, write_all,
};
use std::alloc::Global;
use std::io;
use std::io::{ErrorKind, Read, Write};
use std::test::Fail;

#[test]
fn a_reader_of_std_is_read_to_its_end(rt: HostRuntime) -> Result<(), Fail> {
    let text: &[u8] = b"one line\n";
    let mut source = StdSource::new(CountedReader::new(text));
    let bytes = read_all(rt.alloc(), &mut source, 9)?;
    assert_eq!(rt; bytes.as_slice(), text);
    Ok(())
}

#[test]
fn a_writer_of_std_gets_all_bytes(rt: HostRuntime) -> Result<(), Fail> {
    let mut out = Vec::new(rt.alloc());
    let mut sink = StdSink::new(CountedWriter::new(&mut out));
    assert_eq!(rt; write_all(&mut sink, b"one line\n"), Ok(()));
    assert_eq!(rt; out.as_slice(), b"one line\n".as_slice());
    let mut room = [0; 2];
    let full: &mut [u8] = &mut room;
    let mut sink = StdSink::new(CountedWriter::new(full));
    assert_eq!(rt; write_all(&mut sink, b"abc"), Err(WriteFault));
    Ok(())
}

/// A reader of the byte 7, in pieces of one, of which one read fails.
#[derive(Drop)]
struct FaultyReader {
    reads: u8,
    fails: u8,
}

impl Read for FaultyReader {
    fn read(&mut self, buf: &mut [u8]) -> io::Result<usize> {
        self.reads = self.reads.saturating_add(1);
        if self.reads == self.fails {
            return Err(ErrorKind::Other.into());
        }
        match buf {
            [] => Ok(0),
            [first, ..] => {
                *first = 7;
                Ok(1)
            }
        }
    }
}

/// A writer in pieces of two that holds what it was given, and of which one write or one flush fails. It knows how many
/// of its bytes came after the last flush.
#[derive(Drop)]
struct FaultyWriter {
    bytes: Vec<u8>,
    unflushed: usize,
    calls: u8,
    fails: u8,
}

impl FaultyWriter {
    /// A writer whose call of this number fails, from 1: writes have the odd numbers, and flushes the even ones.
    fn new(alloc: Global, fails: u8) -> FaultyWriter {
        FaultyWriter {
            bytes: Vec::new(alloc),
            unflushed: 0,
            calls: 0,
            fails,
        }
    }

    /// Whether this call is the one that fails.
    fn fails_now(&mut self) -> bool {
        self.calls = self.calls.saturating_add(1);
        self.calls == self.fails
    }
}

impl Write for FaultyWriter {
    fn write(&mut self, buf: &[u8]) -> io::Result<usize> {
        let count = buf.len().min(2);
        if self.fails_now() || self.bytes.extend_from_slice(&buf[..count]).is_err() {
            return Err(ErrorKind::Other.into());
        }
        self.unflushed = self.unflushed.saturating_add(count);
        Ok(count)
    }

    fn flush(&mut self) -> io::Result<()> {
        if self.fails_now() {
            return Err(ErrorKind::Other.into());
        }
        self.unflushed = 0;
        Ok(())
    }
}

#[test]
fn no_byte_comes_after_the_last_flush(rt: HostRuntime) -> Result<(), Fail> {
    let mut writer = FaultyWriter::new(rt.alloc(), 0);
    let mut sink = StdSink::new(CountedWriter::new(&mut writer));
    assert_eq!(rt; write_all(&mut sink, b"abcde"), Ok(()));
    assert_eq!(rt; writer.bytes.as_slice(), b"abcde".as_slice());
    assert_eq!(rt; writer.unflushed, 0);
    Ok(())
}

#[test]
fn a_read_that_fails_is_counted_once(rt: HostRuntime) -> Result<(), Fail> {
    let mut reader = CountedReader::new(FaultyReader { reads: 0, fails: 2 });
    let mut buf = [0; 2];
    assert_eq!(rt; reader.read(&mut buf), Some(1));
    assert_eq!(rt; reader.failures(), 0);
    assert_eq!(rt; reader.read(&mut buf), None);
    assert_eq!(rt; reader.failures(), 1);
    assert_eq!(rt; reader.read(&mut buf), Some(1));
    assert_eq!(rt; reader.failures(), 1);
    Ok(())
}

#[test]
fn a_write_or_a_flush_that_fails_is_counted_once(rt: HostRuntime) -> Result<(), Fail> {
    let mut writer = CountedWriter::new(FaultyWriter::new(rt.alloc(), 3));
    assert_eq!(rt; writer.write(b"abcd"), Some(2));
    assert!(rt; writer.flush());
    assert_eq!(rt; writer.failures(), 0);
    assert_eq!(rt; writer.write(b"cd"), None);
    assert!(rt; writer.flush());
    assert_eq!(rt; writer.failures(), 1);
    let mut writer = CountedWriter::new(FaultyWriter::new(rt.alloc(), 2));
    assert_eq!(rt; writer.write(b"abcd"), Some(2));
    assert!(rt; !writer.flush());
    assert_eq!(rt; writer.write(b"cd"), Some(2));
    assert_eq!(rt; writer.failures(), 1);
    Ok(())
}

#[test]
fn a_write_that_takes_nothing_is_counted(rt: HostRuntime) {
    let mut room = [0; 2];
    let full: &mut [u8] = &mut room;
    let mut writer = CountedWriter::new(full);
    assert_eq!(rt; writer.write(b"abc"), Some(2));
    assert_eq!(rt; writer.failures(), 0);
    assert_eq!(rt; writer.write(b"c"), None);
    assert_eq!(rt; writer.failures(), 1);
    assert_eq!(rt; writer.write(b""), Some(0));
    assert_eq!(rt; writer.failures(), 1);
}
