//! The rule of a mailbox: what its passes know, and the steps that they take.
use base_ids::MsgRef;
use crossbeam_queue::protocol::{Join, Lesson, Outcome, Protocol, Split};
use std::collections::LinkedList;

/// What a pass that has come back had put. No value of it is made: it stands in contracts.
pub struct Ended {
    /// The pass's number.
    pub number: u64,
    /// What it put, in its order.
    pub put: LinkedList<MsgRef>,
}

/// What a pass knows. No value of it is made: it stands in contracts.
pub enum MailLog {
    /// It has come back.
    Spent,
    /// The pass of this number, and what it put.
    Other(u64, LinkedList<MsgRef>),
    /// The pass that takes: what it put, what it took with the newest first, how many passes were made, and what those
    /// had put that came back.
    First(LinkedList<MsgRef>, LinkedList<MsgRef>, u64, LinkedList<Ended>),
}

/// The rule of a mailbox.
pub(crate) struct Merge;

impl Protocol<MsgRef, MailLog> for Merge {
    ghost use Rattle.std.specs.Prelude.{[]};
    ghost use Rattle.work_mail.specs.Merges.{IsMerged};
    ghost use Rattle.work_mail.specs.declared.rule.MailLog.TheVariants.{First};

    ghost holds = { IsMerged };

    ghost first = { First [] [] 1 [] };
}

/// The taker's pass hands out one more, or takes it back.
pub(crate) struct Hand;

impl Split<MailLog> for Hand {
    ghost use Rattle.work_mail.specs.Merges.{handed, handing};

    ghost left = { handing };

    ghost right = { handed };
}

impl Join<MailLog> for Hand {
    ghost use Rattle.work_mail.specs.Merges.{taking_in};
    ghost use Rattle.work_mail.specs.declared.rule.MailLog.TheVariants.{Spent};

    ghost both = { taking_in };

    ghost spent = { Spent };
}

/// A pass puts a reference.
pub(crate) struct Puts;

impl Outcome<MsgRef, MailLog> for Puts {
    ghost use Rattle.std.specs.Prelude.{◌≡◌};
    ghost use Rattle.work_mail.specs.Merges.{with_put};

    ghost then = { λ v x w. w ≡ with_put x v };
}

impl Lesson<MsgRef, MailLog> for Puts {
    ghost use Rattle.work_mail.specs.Merges.{IsSeen};

    ghost fact = { IsSeen };
}

/// The taker's pass takes a reference.
pub(crate) struct Takes;

impl Outcome<MsgRef, MailLog> for Takes {
    ghost use Rattle.std.specs.Prelude.{◌≡◌};
    ghost use Rattle.work_mail.specs.Merges.{with_taken};

    ghost then = { λ v x w. w ≡ with_taken x v };
}

impl Lesson<MsgRef, MailLog> for Takes {
    ghost use Rattle.work_mail.specs.Merges.{IsSeen};

    ghost fact = { IsSeen };
}

/// The taker's pass learns what all passes put.
pub(crate) struct Ends;

impl Lesson<MsgRef, MailLog> for Ends {
    ghost use Rattle.work_mail.specs.Merges.{IsEnded};

    ghost fact = { IsEnded };
}
