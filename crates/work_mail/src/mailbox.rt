//! Mailboxes.
ghost use Rattle.std.specs.Prelude.{◌≡◌, ◌<◌, ◌≤◌, ◌+◌, ◌-◌, [], List, None, Some, length, IfOk, OnErr, OnOk};
ghost use Rattle.base_ids.specs.declared.ids.MsgRef.{MsgRef};
ghost use Rattle.crossbeam_queue.specs.Passes.{IsPassOf, view};
ghost use Rattle.std.specs.Vec.{vec_capacity};
ghost use Rattle.work_mail.specs.Passes.{AreOthers, IsClosed, MailView, Saw, first_mail, fresh_passes, put_in, refused_by, taken_from};
ghost use Rattle.work_mail.specs.declared.rule.MailLog.TheVariants.{First};

use crate::list::PassList;
use crate::pass::{Pass, QueuePass};
use crate::queue::{Queue, gather, hand_out, new_queue, pop, push};
use crate::rule::Ends;
use base_ids::{MsgRef, NoMemory};
use std::alloc::Global;
use std::marker::Model;
use std::sync::Wait;

/// A mailbox was full at one moment of the call.
#[derive(Debug, Clone, Copy, PartialEq, Eq)]
pub struct Full;

/// A mailbox was empty at one moment of the call.
#[derive(Debug, Clone, Copy, PartialEq, Eq)]
pub struct Empty;

/// References of several senders for one receiver, first in, first out. Contracts see its table and its capacity.
#[derive(Drop)]
pub struct Mailbox {
    queue: Queue,
}

impl Model for Mailbox {
    ghost use Rattle.work_mail.specs.Passes.{BoxView};

    ghost Value = { BoxView };

    ghost view = { λ b. record { table = b.queue.table.shared.table_id; capacity = b.queue.cap } };
}

impl Mailbox {
    /// A mailbox for so many references at a time, and so many passes of it. The first pass is the one that takes.
    /// `NoMemory` comes where memory for it is refused.
    pub fn new(alloc: Global, capacity: usize, passes: u32) -> Result<(Mailbox, PassList), NoMemory>
        requires capacity { 0 < capacity }
        requires passes { 0 < passes }
        ensures capacity { IfOk result (λ made. made.0.capacity ≡ capacity) }
        ensures first { IfOk result (λ made. made.1.first ≡ Some (first_mail made.0.table 0 passes)) }
        ensures others { IfOk result (λ made. made.1.others ≡ fresh_passes made.0.table (passes - 1)) }
        ensures room { IfOk result (λ made. passes - 1 ≤ made.1.room) }
    {
        let mut others: Vec<Pass> = Vec::with_capacity(alloc, (passes - 1) as usize)?;
        let (queue, mut first) = new_queue(alloc, capacity)?;
        add_passes(&queue, &mut first, &mut others, passes - 1)?;
        let first = Pass::new(first, true);
        Ok((
            Mailbox { queue },
            PassList {
                first: Some(first),
                others,
            },
        ))
    }

    /// Puts a reference behind the others. `Full` comes only where there was no room at one moment of the call, and
    /// then nothing is put.
    pub fn put<R: Wait>(&self, rt: &R, pass: &mut Pass, at: MsgRef) -> Result<(), Full>
        requires { pass.old.table ≡ self.now.table }
        ensures ok { OnOk result (pass.new ≡ put_in at pass.old) }
        ensures full { OnErr result (pass.new ≡ refused_by pass.old) }
        ensures there { OnErr result ((items : List MsgRef) × (length items ≡ self.now.capacity) × Saw pass.old items) }
    {
        if push(&self.queue, rt, &mut pass.inner, pass.receives, at) {
            pass.full = false;
            return Ok(());
        }
        pass.full = true;
        Err(Full)
    }

    /// Takes the first reference, with the first pass. `Empty` comes only where there was none at one moment of the
    /// call. It waits for ever where it was called 2^64 - 1 times before.
    pub fn take<R: Wait>(&self, rt: &R, pass: &mut Pass) -> Result<MsgRef, Empty>
        requires table { pass.old.table ≡ self.now.table }
        requires first { pass.old.number ≡ 0 }
        ensures ok { IfOk result (λ at. pass.new ≡ taken_from (Some at) pass.old) }
        ensures empty { OnErr result (pass.new ≡ taken_from None pass.old) }
        ensures there { OnErr result (Saw pass.old []) }
    {
        pass.count_take(rt);
        match pop(&self.queue, rt, &mut pass.inner) {
            Some(at) => Ok(at),
            None => Err(Empty),
        }
    }

    /// Ends the mailbox, when its passes have come back. What was taken, and then what is left, are one merge of what
    /// the passes put.
    pub fn close(self, passes: PassList)
        requires first { (first : MailView) × (passes.first ≡ Some first) ×
            (first.table ≡ self.table) × (first.number ≡ 0) }
        requires others { AreOthers self.table passes.others }
        ensures { (first : MailView) → passes.first ≡ Some first → IsClosed first passes.others }
    {
        let PassList { first, others } = passes;
        let Some(first) = first else { unreachable!() };
        let mut first = first.into_inner();
        gather(&self.queue, &mut first, others);
        self.queue.learn_as::<Ends>(&mut first);
    }
}

/// So many passes more of a new queue, which have put and taken nothing.
fn add_passes(
    queue: &Queue,
    first: &mut QueuePass,
    others: &mut Vec<Pass>,
    count: u32,
) -> Result<(), NoMemory>
    requires pass { IsPassOf queue.now first.old }
    requires first { view first.old ≡ First [] [] 1 [] }
    requires none { others.old.items ≡ [] }
    ensures first { OnOk result (IsPassOf queue.now first.new × (view first.new ≡ First [] [] (count + 1) [])) }
    ensures others { OnOk result (others.new.items ≡ fresh_passes queue.now.table.shared.table_id count) }
    ensures room { vec_capacity others.old ≤ vec_capacity others.new }
{
    for _ in 0..count {
        let inner = hand_out(queue, first);
        let pass = Pass::new(inner, false);
        others.push(pass)?;
    }
    Ok(())
}
