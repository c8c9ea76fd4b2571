//! A seat of the running cluster's book, as an actor's chair.
#![tactic(auto)]

mod seat;

pub use seat::BookSeat;
