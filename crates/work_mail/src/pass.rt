//! The passes of a mailbox.
ghost use Rattle.std.specs.Prelude.{◌≡◌, ◌==◌, [], Bool, None, false};
ghost use Rattle.work_mail.specs.Merges.{IsOut};
ghost use Rattle.work_mail.specs.Passes.{pass_view, taken_from};

use crate::rule::MailLog;
use base_ids::MsgRef;
use std::marker::Model;
use std::sync::Wait;

/// A pass of the queue that a mailbox is.
pub(crate) type QueuePass = crossbeam_queue::Pass<MsgRef, MailLog>;

/// What a thread puts into a mailbox with, and takes from it with the first one. Contracts see which pass it is, and
/// what was put and taken by way of it.
#[derive(Drop)]
pub struct Pass {
    pub(crate) inner: QueuePass,
    pub(crate) receives: bool,
    pub(crate) full: bool,
    pub(crate) takes: u64,
}

impl Model for Pass {
    ghost use Rattle.std.specs.Prelude.{◌≡◌, []};
    ghost use Rattle.work_mail.specs.Merges.{IsOut};
    ghost use Rattle.work_mail.specs.Passes.{MailView, pass_view};

    ghost Value = { MailView };

    ghost view = { λ p. pass_view p.inner.table_id p.inner.me.0.client p.takes p.full };

    ghost invariant = { λ p. (p.inner.me.1 ≡ []) × IsOut p.receives p.inner.me.0.client };
}

impl Pass {
    /// A pass that has put and taken nothing.
    pub(crate) fn new(inner: QueuePass, receives: bool) -> Pass
        requires home { inner.me.1 ≡ [] }
        requires out { IsOut receives inner.me.0.client }
        ensures { result ≡ pass_view inner.table_id inner.me.0.client 0 false }
    {
        Pass {
            inner,
            receives,
            full: false,
            takes: 0,
        }
    }

    /// The pass of the queue.
    pub(crate) fn into_inner(self) -> QueuePass
        ensures table { result.table_id ≡ self.table }
        ensures home { result.me.1 ≡ [] }
        ensures out { (receives : Bool) × IsOut receives result.me.0.client }
        ensures view { self ≡ pass_view result.table_id result.me.0.client self.takes self.full }
    {
        let Pass {
            inner,
            receives: _,
            full: _,
            takes: _,
        } = self;
        inner
    }

    /// Counts a call of `take`. It waits for ever where the count is at its last value.
    pub(crate) fn count_take<R: Wait>(&mut self, rt: &R)
        ensures { self.new ≡ taken_from None self.old }
    {
        if self.takes == u64::MAX {
            for _ in rt.forever() {}
        }
        self.takes += 1;
    }

    /// How many calls of `take` it has made.
    pub fn takes(&self) -> u64
        ensures { result ≡ self.now.takes }
    {
        self.takes
    }

    /// Whether it is the first pass, the one that takes.
    pub fn is_first(&self) -> bool
        ensures { result ≡ (self.now.number == 0) }
    {
        self.receives
    }
}
