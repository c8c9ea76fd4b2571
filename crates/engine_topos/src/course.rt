//! A coordinator's moves, one after the other.
ghost use Rattle.std.specs.Prelude.{◌≡◌, ◌∷◌, OnErr, OnOk, filter, length, option_copied, reverse, slice_get};
ghost use Rattle.plan_facts.specs.Plan.{moves_of};
ghost use Rattle.engine_topos.specs.Courses.{CoursesAreShared, first_course, first_way, is_move_by};

use crate::clock::Clock;
use crate::deed::MoveEnd;
use crate::way::Way;
use base_ids::{HostId, NoMemory};
use run_plan::{MoveAsk, RunPlan};
use std::alloc::Global;
use std::marker::Model;

/// How the moves of a coordinator that it has left ended, and how the next one stands. Callers see the ends with the
/// newest first.
#[derive(Drop)]
pub struct Course {
    ends: Vec<MoveEnd>,
    way: Way,
}

impl Model for Course {
    ghost use Rattle.std.specs.Prelude.{reverse};
    ghost use Rattle.engine_topos.specs.Courses.{CourseView};

    ghost Value = { CourseView };

    ghost view = { λ c. record { ends = reverse c.ends.items; way = c.way } };
}

impl Course {
    /// No move has ended, and the first one is not begun.
    pub fn new(alloc: Global, clock: Clock) -> Course
        ensures { result ≡ first_course clock }
    {
        Course {
            ends: Vec::new(alloc),
            way: Way::new(clock),
        }
    }

    /// How many moves have ended.
    pub fn done(&self) -> usize
        ensures { result ≡ length self.now.ends }
    {
        self.ends.len()
    }

    /// How the move that is under way stands.
    pub fn way(&self) -> Way
        ensures { result ≡ self.now.way }
    {
        self.way
    }

    /// The move under way stands so.
    pub fn set_way(&mut self, way: Way)
        ensures { self.new ≡ record self.old { way = way } }
    {
        self.way = way;
    }

    /// The ends of the moves that have ended, in their order.
    pub fn into_ends(self) -> Vec<MoveEnd>
        ensures { reverse result.items ≡ self.ends }
    {
        let Course { ends, way: _ } = self;
        ends
    }

    /// The move under way has ended so, and the next one is not begun. `NoMemory` leaves all as it was.
    pub fn leave(&mut self, end: MoveEnd, clock: Clock) -> Result<(), NoMemory>
        ensures ok { OnOk result (self.new ≡ record { ends = end ∷ self.old.ends; way = first_way clock }) }
        ensures err { OnErr result (self.new ≡ self.old) }
    {
        self.ends.push(end)?;
        self.way = Way::new(clock);
        Ok(())
    }
}

/// How many of the moves are a coordinator's.
fn count_by(moves: &[MoveAsk], topo: HostId) -> usize
    ensures { result ≡ length (filter (is_move_by topo) moves.now) }
{
    let mut count = 0;
    'moves: for ask in moves {
        if is_by(ask, topo) {
            count += 1;
        }
    }
    count
}

/// The one of this number among a coordinator's.
fn nth_by(moves: &[MoveAsk], topo: HostId, number: usize) -> Option<&MoveAsk>
    ensures { option_copied result ≡ slice_get (filter (is_move_by topo) moves.now) number }
{
    let mut left = number;
    'moves: for ask in moves {
        if is_by(ask, topo) {
            if left == 0 {
                return Some(ask);
            }
            left -= 1;
        }
    }
    None
}

/// How many moves the plan has for the coordinator of a host.
pub fn count_moves(plan: &RunPlan, topo: HostId) -> usize
    ensures { result ≡ length (moves_of plan.now topo) }
{
    count_by(plan.moves.as_slice(), topo)
}

/// The move of this number, from 0, that the plan has for the coordinator of a host. `None` where it has fewer.
pub fn move_at(plan: &RunPlan, topo: HostId, number: usize) -> Option<&MoveAsk>
    ensures { option_copied result ≡ slice_get (moves_of plan.now topo) number }
{
    nth_by(plan.moves.as_slice(), topo, number)
}

fn is_by(ask: &MoveAsk, topo: HostId) -> bool
    ensures { result ≡ is_move_by topo ask.now }
{
    ask.by == topo
}

/// The proposals of a coordinator fall into shares, one for each move that it came to.
pub fn law_courses_are_shared()
    ensures { CoursesAreShared }
{}
