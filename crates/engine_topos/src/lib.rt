//! A coordinator at its desk.
#![tactic(auto)]

mod act;
mod ask;
mod clock;
mod course;
mod deed;
mod look;
mod notes;
mod standing;
mod turn;
mod way;

pub use act::{Acted, Gone, topo_act, topo_fence, topo_go};
pub use clock::{Clock, asked_now, fence_now, give_up, moved_on};
pub use course::{Course, count_moves, law_courses_are_shared, move_at};
pub use deed::{Deed, Hindrance, MoveEnd, Silence};
pub use look::topo_look;
pub use notes::{Asked, Notes};
pub use standing::{first_command, planned, stage_in};
pub use turn::{topo_ask, topo_event, topo_take};
pub use way::{Turn, Way, Went, topo_leave, topo_move, topo_turn};
