//! What a replica stores: a finite map from tables and tokens to cells.
#![tactic(auto)]

mod columns;
mod gathering;
mod laws;
mod putting;
mod store;
mod vec_store;

pub use columns::{insert, raise, rank, start_of, take_out};
pub use gathering::{append_cells, gather};
pub use laws::{law_one_list, law_outside, law_range};
pub use putting::{put_all, put_one};
pub use store::{Chunk, Store, Stored, StoredList};
pub use vec_store::VecStore;
