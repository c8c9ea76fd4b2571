//! Streaming: a range of a table goes from one host to another in chunks.
#![tactic(auto)]

mod data;
mod laws;
mod pull;
mod serve;

pub use data::{ChunkAsk, ChunkMsg};
pub use laws::{law_chunk, law_passed};
pub use pull::{Pull, Took};
pub use serve::serve_chunk;
