//! The passes of a mailbox that nobody has.
ghost use Rattle.std.specs.Prelude.{◌≡◌, ◌<◌, ◌≤◌, ◌++◌, ◌∷◌, [], length, MatchOption, None, Some};

use crate::pass::Pass;
use crate::room::add_in_room;
use std::marker::Model;

/// The passes of a mailbox that nobody has: the first one, and the others. There is room to take all of them back.
#[derive(Drop)]
pub struct PassList {
    pub(crate) first: Option<Pass>,
    pub(crate) others: Vec<Pass>,
}

impl Model for PassList {
    ghost use Rattle.std.specs.Vec.{vec_capacity};
    ghost use Rattle.work_mail.specs.Passes.{PassesView};

    ghost Value = { PassesView };

    ghost view = { λ p. record { first = p.first; others = p.others.items; room = vec_capacity p.others } };
}

impl PassList {
    /// Takes the first pass, the one that takes.
    pub fn take_first(&mut self) -> Option<Pass>
        ensures { (result ≡ self.old.first) × (self.new ≡ record self.old { first = None }) }
    {
        self.first.take()
    }

    /// Takes the last one of the other passes.
    pub fn take(&mut self) -> Option<Pass>
        ensures others { MatchOption result
            ((self.old.others ≡ []) × (self.new.others ≡ []))
            (λ pass. self.old.others ≡ self.new.others ++ pass ∷ []) }
        ensures rest { (self.new.first ≡ self.old.first) × (self.new.room ≡ self.old.room) }
    {
        self.others.pop()
    }

    /// Takes the first pass back.
    pub fn give_first(&mut self, pass: Pass)
        ensures { self.new ≡ record self.old { first = Some pass } }
    {
        self.first = Some(pass);
    }

    /// Takes another pass back, as the last one. It takes no memory.
    pub fn give(&mut self, pass: Pass)
        requires { length self.old.others < self.old.room }
        ensures others { self.new.others ≡ self.old.others ++ pass ∷ [] }
        ensures rest { (self.new.first ≡ self.old.first) × (self.old.room ≤ self.new.room) }
    {
        add_in_room(&mut self.others, pass);
    }
}
