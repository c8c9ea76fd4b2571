//! The rule of the book, as laws. Each is a call that does nothing and ensures the law, for each world.
ghost use Rattle.book_rule.specs.Steps.{HostSteps, LaneSteps, SeatSteps, TurnSteps};
ghost use Rattle.book_rule.specs.declared.view.About.{About};

use crate::world::World;

/// The steps of a turn keep the rule: to draw a ticket, to look whether it is served, to pass the turn.
pub fn law_turn_steps<W: World>()
    ensures { (about : About W.Opening) → TurnSteps W.meaning about }
{}

/// The steps beside the turns keep the rule: a lane's, by which it pins a version, and a host's, by which it learns
/// that none is pinned and publishes another one.
pub fn law_pin_steps<W: World>()
    ensures lane { (about : About W.Opening) → LaneSteps W.meaning about }
    ensures host { (about : About W.Opening) → HostSteps W.meaning about }
{}

/// A new table meets the rule, the keeper's steps keep it, and a table at its end has one journal with just the entries
/// of each seat.
pub fn law_seats<W: World>()
    ensures { (about : About W.Opening) → SeatSteps W.meaning about }
{}
