#![tactic(auto)]

//! Sources and sinks of bytes whose calls may fail, and the reading and writing of a whole text through them.

mod adapters;
mod memory;
mod reading;
mod standard;
mod writing;

pub use adapters::{CountedReader, CountedWriter, In, Out};
pub use memory::{MemorySink, MemorySource};
pub use reading::{ReadError, Source, Taken, read_all};
pub use standard::{StdSink, StdSource};
pub use writing::{Placed, Sink, WriteFault, write_all};
