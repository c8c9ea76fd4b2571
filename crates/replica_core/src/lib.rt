//! What a replica does for a request: it stores or tells a cell, or refuses below its fence; and what it does for a
//! cleanup.
#![tactic(auto)]

mod cleanup;
mod serving;

pub use cleanup::{Cleanup, cleanup_of, serve_cleanup};
pub use serving::{serve_read, serve_write, write_answer};
