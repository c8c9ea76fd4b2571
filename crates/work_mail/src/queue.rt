//! The steps on the queue that a mailbox is.
ghost use Rattle.std.specs.Prelude.{◌≡◌, ◌<◌, ◌∷◌, [], List, IfOk, MatchOption, false, length, true, ℕ};
ghost use Rattle.base_ids.specs.declared.ids.MsgRef.{MsgRef};
ghost use Rattle.crossbeam_queue.specs.Passes.{IsPassOf, ruled_capacity, view};
ghost use Rattle.work_mail.specs.Merges.{IsFirst, IsOut, IsSeen, handed, handing, taking_in, with_put, with_taken};
ghost use Rattle.work_mail.specs.Passes.{AreOthers, ended_of};
ghost use Rattle.work_mail.specs.declared.rule.Ended.{Ended};
ghost use Rattle.work_mail.specs.declared.rule.MailLog.TheVariants.{First};

use crate::pass::{Pass, QueuePass};
use crate::rule::{Hand, MailLog, Merge, Puts, Takes};
use base_ids::{MsgRef, NoMemory};
use crossbeam_queue::RuledArrayQueue;
use std::alloc::Global;
use std::sync::Wait;

/// The queue that a mailbox is.
pub(crate) type Queue = RuledArrayQueue<MsgRef, MailLog, Merge>;

/// A queue for so many references at a time, and its first pass.
pub(crate) fn new_queue(alloc: Global, capacity: usize) -> Result<(Queue, QueuePass), NoMemory>
    requires { 0 < capacity }
    ensures capacity { IfOk result (λ made. ruled_capacity made.0 ≡ capacity) }
    ensures first { IfOk result (λ made. IsPassOf made.0 made.1 × (view made.1 ≡ First [] [] 1 [])) }
{
    Ok(RuledArrayQueue::<MsgRef, MailLog, Merge>::ruled(alloc, capacity)?)
}

/// Puts a reference behind the others. Whether there was room for it.
pub(crate) fn push<R: Wait>(
    queue: &Queue,
    rt: &R,
    pass: &mut QueuePass,
    receives: bool,
    at: MsgRef,
) -> bool
    requires pass { IsPassOf queue.now pass.old }
    requires out { IsOut receives (view pass.old) }
    ensures same { IsPassOf queue.now pass.new × (pass.new.table_id ≡ pass.old.table_id) }
    ensures put { result ≡ true → view pass.new ≡ with_put at (view pass.old) }
    ensures full { result ≡ false →
        (view pass.new ≡ view pass.old) ×
        ((items : List MsgRef) × (length items ≡ ruled_capacity queue.now) × IsSeen (view pass.old) items) }
{
    match queue.push_as::<Puts, R>(rt, pass, at) {
        Ok(()) => true,
        Err(_) => false,
    }
}

/// Takes the first reference, if there is one.
pub(crate) fn pop<R: Wait>(queue: &Queue, rt: &R, pass: &mut QueuePass) -> Option<MsgRef>
    requires pass { IsPassOf queue.now pass.old }
    requires first { IsFirst (view pass.old) }
    ensures same { IsPassOf queue.now pass.new × (pass.new.table_id ≡ pass.old.table_id) }
    ensures took { MatchOption result
        ((view pass.new ≡ view pass.old) × IsSeen (view pass.old) [])
        (λ at. view pass.new ≡ with_taken at (view pass.old)) }
{
    queue.pop_as::<Takes, R>(rt, pass)
}

/// The first pass hands out one more.
pub(crate) fn hand_out(queue: &Queue, first: &mut QueuePass) -> QueuePass
    requires pass { IsPassOf queue.now first.old }
    requires first { IsFirst (view first.old) }
    ensures same { IsPassOf queue.now first.new × (first.new.table_id ≡ first.old.table_id) }
    ensures other { IsPassOf queue.now result }
    ensures views { (view first.new ≡ handing (view first.old)) × (view result ≡ handed (view first.old)) }
{
    queue.another::<Hand>(first)
}

/// The first pass takes another one back.
fn take_in(queue: &Queue, first: &mut QueuePass, other: QueuePass)
    requires pass { IsPassOf queue.now first.old × IsPassOf queue.now other }
    requires first { IsFirst (view first.old) }
    requires other { IsOut false (view other) }
    ensures same { IsPassOf queue.now first.new × (first.new.table_id ≡ first.old.table_id) }
    ensures view { view first.new ≡ taking_in (view first.old) (view other) }
{
    queue.absorb::<Hand>(first, other);
}

/// The first pass takes a pass back.
fn give_back(queue: &Queue, first: &mut QueuePass, pass: Pass)
    requires pass { IsPassOf queue.now first.old × (pass.table ≡ queue.now.table.shared.table_id) }
    requires first { IsFirst (view first.old) }
    requires other { 0 < pass.number }
    ensures same { IsPassOf queue.now first.new × (first.new.table_id ≡ first.old.table_id) }
    ensures view { (put : List MsgRef) (took : List MsgRef) (made : ℕ) (ended : List Ended) →
        view first.old ≡ First put took made ended →
        view first.new ≡ First put took made (record { number = pass.number; put = pass.put } ∷ ended) }
{
    take_in(queue, first, pass.into_inner());
}

/// The first pass takes all others back.
pub(crate) fn gather(queue: &Queue, first: &mut QueuePass, mut others: Vec<Pass>)
    requires pass { IsPassOf queue.now first.old }
    requires first { IsFirst (view first.old) }
    requires others { AreOthers queue.now.table.shared.table_id others.items }
    ensures same { IsPassOf queue.now first.new }
    ensures view { (put : List MsgRef) (took : List MsgRef) (made : ℕ) →
        view first.old ≡ First put took made [] →
        view first.new ≡ First put took made (ended_of others.items) }
{
    while let Some(pass) = others.pop() {
        give_back(queue, first, pass);
    }
}
