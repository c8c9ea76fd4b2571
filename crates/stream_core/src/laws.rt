//! Laws of chunks and pulls. Each is a call that does nothing and ensures the law.
ghost use Rattle.stream_core.specs.Passed.{ChunkHasCells, PassedIsCovered};

/// A chunk has the source's cell at each token of the range that it covers.
pub fn law_chunk()
    ensures { ChunkHasCells }
{}

/// Where taking a chunk lets a pull pass a token, the chunk covers the token and has the source's cell there.
pub fn law_passed()
    ensures { PassedIsCovered }
{}
