//! A journal to which actors on their own threads append by turns.
#![tactic(auto)]

mod book;
mod close;
mod commit;
mod journal;
mod list;
mod looks;
mod lookup;
mod open;
mod pinning;
mod pins;
mod plays;
mod propose;
mod room;
mod seat;
mod turn;

pub use book::Book;
pub use journal::Journal;
pub use list::SeatList;
pub use seat::Seat;
