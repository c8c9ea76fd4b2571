//! The rule of a shared book: actors append to one journal by turns, and pin versions beside it.
#![tactic(auto)]

mod answers;
mod laws;
mod view;
mod world;

pub use answers::{BookError, Committed, Pin, Published, Raised};
pub use laws::{law_pin_steps, law_seats, law_turn_steps};
pub use view::{About, Known, Note, PinLook, Stage, View};
pub use world::World;
