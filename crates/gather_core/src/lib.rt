//! Gathering: pulls of one range, made one after the other.
#![tactic(auto)]

mod counts;
mod data;
mod gather;
mod laws;
mod rounds;

pub use counts::{count_cells, count_new};
pub use data::Route;
pub use gather::Gather;
pub use laws::{law_bounded, law_ended, law_gather, law_kept};
pub use rounds::{gather_all, gather_once};
