ghost use Rattle.std.specs.Prelude.{◌≡◌, ℕ, ◌≤◌, List, length, Option, OnOk, OnErr};
ghost use Rattle.fault_io.specs.Counts.{Rose, SinkAccount};
ghost use Rattle.fault_io.specs.Written.{PlacesWithin, bytes_placed, IsQuietPlaced, content_after, AddsPart};

use thiserror::Error;

/// What a sink answers when it is given bytes.
#[derive(Clone, Copy, Debug, PartialEq, Eq)]
pub enum Placed {
    /// So many of the bytes were taken, from the first on.
    Took(usize),
    /// The call failed, and nothing was taken.
    Failed,
}

/// Where bytes go to: a file, a terminal or a list in memory, each call of which may fail. This trait is the project's
/// own.
///
/// A sink has a content, which it may tell or not, and counts the calls that failed. A call fails exactly where it
/// raises that count, which stops at 2^64 - 1. A count that stands there counts as raised.
pub trait Sink {
    // What is told of the sink: its content, and its count of faults.
    ghost account: { Self → SinkAccount };

    /// Gives the sink a piece. The sink takes some of it, from its first byte on and at least one byte if there is
    /// one, or fails and takes nothing.
    fn put(&mut self, bytes: &[u8]) -> Placed
        ensures room { PlacesWithin result (length bytes.now) }
        ensures bytes { (account self.new).content
            ≡ content_after (account self.old).content (bytes_placed result bytes.now) }
        ensures later { (account self.old).faults ≤ (account self.new).faults }
        ensures cause { result ≡ Placed.Failed → Rose (account self.old).faults (account self.new).faults }
        ensures quiet { IsQuietPlaced result (account self.old).faults (account self.new).faults };
}

/// A call of a sink failed before all was written.
#[derive(Clone, Copy, Debug, PartialEq, Eq, Error)]
#[error("the sink failed")]
pub struct WriteFault;

/// Writes all of `bytes` in order. `WriteFault` comes only where the sink's count of faults rose, which stands still
/// else, and the sink has then taken a part of the bytes, from the first on, and not all. No memory is taken.
pub fn write_all<K: Sink>(sink: &mut K, bytes: &[u8]) -> Result<(), WriteFault>
    ensures whole { OnOk result ((K.account sink.new).content ≡ content_after (K.account sink.old).content bytes.now) }
    ensures part { OnErr result (AddsPart (K.account sink.old) (K.account sink.new) bytes.now) }
    ensures later { (K.account sink.old).faults ≤ (K.account sink.new).faults }
    ensures cause { OnErr result (Rose (K.account sink.old).faults (K.account sink.new).faults) }
    ensures quiet { OnOk result ((K.account sink.new).faults ≡ (K.account sink.old).faults) }
{
    let mut at = 0;
    'writing: while at < bytes.len() {
        match sink.put(&bytes[at..]) {
            Placed::Took(n) => at += n,
            Placed::Failed => return Err(WriteFault),
        }
    }
    Ok(())
}
