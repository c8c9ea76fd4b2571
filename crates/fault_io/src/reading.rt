ghost use Rattle.std.specs.Prelude.{◌≡◌, ℕ, ◌+◌, ◌≤◌, ◌<◌, List, [], length, vec_len, Option, IfSome, IfOk, IfErr, OnOk, IsErrOf};
ghost use Rattle.fault_io.specs.Counts.{raised_by, Rose, SourceAccount};
ghost use Rattle.fault_io.specs.Given.{TakesWithin, bytes_taken, IsEnd, IsQuietTaken, before_left, TakesBytes, IsStopOf, FaultsAtStop};

use std::alloc::Global;
use thiserror::Error;

/// What a source answers when it is asked for bytes.
#[derive(Clone, Copy, Debug, PartialEq, Eq)]
pub enum Taken {
    /// So many bytes were given: they are the first bytes of the buffer.
    Got(usize),
    /// No byte is left.
    End,
    /// The call failed, and nothing was taken.
    Failed,
}

/// Where bytes come from: a file, a terminal or a list in memory, each call of which may fail. This trait is the
/// project's own.
///
/// A source has a content, which it may tell or not, and keeps three counts that stop at 2^64 - 1: of its calls, of
/// those that failed, and of the bytes that were given. A call fails exactly where it raises the count of failures; a
/// count that stands at its last value counts as raised.
pub trait Source {
    // What is told of the source: what is left, and its counts.
    ghost account: { Self → SourceAccount };

    /// Asks for as many bytes as `buf` has room for. The source may give fewer, which are then the first bytes of the
    /// buffer. `Got(0)` for a buffer that is not empty says the same as `End`: nothing is left.
    fn next(&mut self, buf: &mut [u8]) -> Taken
        ensures room { TakesWithin result (length buf.old) }
        ensures bytes { (account self.old).left ≡ before_left (bytes_taken result buf.new) (account self.new).left }
        ensures end { IsEnd result (length buf.old) → IfSome (account self.old).left (λ bytes. bytes ≡ []) }

        // The counts of bytes, of calls and of faults.
        ensures given { (account self.new).given
            ≡ raised_by (account self.old).given (length (bytes_taken result buf.new)) }
        ensures called { (account self.new).calls ≡ raised_by (account self.old).calls 1 }
        ensures later { (account self.old).faults ≤ (account self.new).faults }
        ensures cause { result ≡ Taken.Failed → Rose (account self.old).faults (account self.new).faults }
        ensures quiet { IsQuietTaken result (account self.old).faults (account self.new).faults };
}

/// Why a source was not read whole.
#[derive(Clone, Copy, Debug, PartialEq, Eq, Error)]
pub enum ReadError {
    /// A call of the source failed.
    #[error("the source failed")]
    ReadFault,
    /// The source gave more bytes than the limit.
    #[error("the source has more bytes than the limit")]
    TooLong,
    /// There was no memory for the bytes.
    #[error("out of memory")]
    NoMemory,
}

/// How many bytes one call of a source is asked for at most.
const CHUNK: usize = 4096;

/// Reads a source to its end, which is at most `limit` bytes. `TooLong` comes exactly where one byte more than the
/// limit was taken, `ReadFault` only where the source's count of faults rose, which stands still else, and `NoMemory`
/// where there was no room for bytes within the limit. There are at most `limit + 1` calls of the source. After an
/// error the bytes that were taken are gone.
pub fn read_all<S: Source>(
    alloc: Global,
    source: &mut S,
    limit: usize,
) -> Result<Vec<u8>, ReadError>
    requires { limit < usize.MAX }
    ensures whole { IfOk result (λ v. IfSome (S.account source.old).left (λ content. v.items ≡ content)) }
    ensures ended { OnOk result (IfSome (S.account source.new).left (λ rest. rest ≡ [])) }
    ensures within { IfOk result (λ v. vec_len v ≤ limit) }
    ensures ok { IfOk result (λ v. TakesBytes (S.account source.old) (S.account source.new) v.items) }

    // What was taken before an error, of which `IsStopOf` tells the number.
    ensures err { IfErr result (λ e. (taken : List ℕ)
        × TakesBytes (S.account source.old) (S.account source.new) taken
        × IsStopOf e limit (length taken)) }
    ensures calls { (S.account source.new).calls ≤ raised_by (S.account source.old).calls (limit + 1) }
    ensures longer { IsErrOf result ReadError.TooLong →
        IfSome (S.account source.old).left (λ content. limit < length content) }

    // The count of faults rises where a call failed, and nowhere else.
    ensures later { (S.account source.old).faults ≤ (S.account source.new).faults }
    ensures cause { IsErrOf result ReadError.ReadFault →
        Rose (S.account source.old).faults (S.account source.new).faults }
    ensures quiet { OnOk result ((S.account source.new).faults ≡ (S.account source.old).faults) }
    ensures stopped { IfErr result (λ e. FaultsAtStop e (S.account source.old).faults (S.account source.new).faults) }
{
    let mut bytes = Vec::new(alloc);
    let mut buf = [0; CHUNK];
    'reading: loop {
        let room = CHUNK.min(limit + 1 - bytes.len());
        match source.next(&mut buf[..room]) {
            Taken::Got(0) | Taken::End => return Ok(bytes),
            Taken::Got(n) if limit - bytes.len() < n => return Err(ReadError::TooLong),
            Taken::Got(n) => {
                if bytes.extend_from_slice(&buf[..n]).is_err() {
                    return Err(ReadError::NoMemory);
                }
            }
            Taken::Failed => return Err(ReadError::ReadFault),
        }
    }
}
