//! Actors at their desks: the place from which an actor reads and writes the shared history, its mail and what it took,
//! the whole turn of a lane, the outboxes of a worker, and how a coordinator's moves go on.
#![tactic(auto)]

mod chair;
mod desk;
mod lane;
mod laws;
mod mail;
mod office;
mod outbox;
mod outputs;
mod plan;

pub use chair::{Chair, Refused};
pub use desk::Desk;
pub use lane::{lane_begin, lane_event, lane_take, lane_timeout, play_lane};
pub use laws::{
    law_advances_are_judged_well, law_events_are_sent, law_lanes_are_patient, law_moves_go_on,
    law_ways_are_shared,
};
pub use mail::{Full, Mail};
pub use office::{Letter, post_letters};
pub use outbox::Outbox;
pub use plan::most_takes;
