//! Workers at one mailbox.
ghost use Rattle.std.specs.Prelude.{◌≡◌, ◌<◌, IfOk};

use base_ids::{MsgRef, NoMemory};
use std::alloc::Global;
use std::sync::Wait;
use std::thread;
use work_mail::{Empty, End, Full, Mail, Mailbox, Part, Pass};

/// A mailbox with three passes.
#[derive(Drop)]
pub struct Trio {
    /// The mailbox.
    pub mailbox: Mailbox,
    /// The pass that takes.
    pub first: Pass,
    /// Another pass.
    pub second: Pass,
    /// And one more.
    pub third: Pass,
}

/// A mailbox for so many references, with three passes.
pub fn mailed(alloc: Global, capacity: usize) -> Result<Trio, NoMemory>
    requires { 0 < capacity }
    ensures first { IfOk result (λ trio. trio.first.table ≡ trio.mailbox.table) }
    ensures second { IfOk result (λ trio. trio.second.table ≡ trio.mailbox.table) }
    ensures third { IfOk result (λ trio. trio.third.table ≡ trio.mailbox.table) }
{
    let (mailbox, mut passes) = Mailbox::new(alloc, capacity, 3)?;
    let Some(first) = passes.take_first() else {
        unreachable!()
    };
    let Some(third) = passes.take() else {
        unreachable!()
    };
    let Some(second) = passes.take() else {
        unreachable!()
    };
    Ok(Trio {
        mailbox,
        first,
        second,
        third,
    })
}

/// A worker at a mailbox: it puts its references, and then takes so many times, into its list.
#[derive(Drop)]
pub struct Clerk<'a> {
    /// Its place in the mailbox.
    pub end: End<'a>,
    /// The entry that its references name.
    pub number: u64,
    /// How many it puts.
    pub puts: u32,
    /// How often it takes.
    pub rounds: u32,
    /// What it took.
    pub took: Vec<MsgRef>,
}

impl<'a> Part for Clerk<'a> {
    ghost ready = { λ clerk. Unit {0} };

    ghost done = { λ before after. Unit {0} };

    fn work<R: Wait>(&mut self, rt: &R) {
        put_some(rt, &mut self.end, self.number, self.puts);
        take_some(rt, &mut self.end, self.rounds, &mut self.took);
    }
}

/// Takes what is left, when all have worked.
pub fn take_rest<R: Wait>(rt: &R, clerk: &mut Clerk<'_>, rounds: u32) {
    take_some(rt, &mut clerk.end, rounds, &mut clerk.took);
}

/// Puts so many references to outputs of an entry.
fn put_some<M: Mail, R: Wait>(rt: &R, mail: &mut M, event: u64, count: u32) {
    for out in 0..count {
        let _put = mail.put(rt, MsgRef { event, out });
    }
}

/// Takes so many times, and keeps what it took.
fn take_some<M: Mail, R: Wait>(rt: &R, mail: &mut M, rounds: u32, took: &mut Vec<MsgRef>) {
    for _ in 0..rounds {
        match mail.take(rt) {
            Some(at) => {
                let _kept = took.push(at);
            }
            None => thread::yield_now(),
        }
    }
}

/// How many references name an entry, if they name its outputs from 0 in order.
pub fn outputs_of(took: &[MsgRef], event: u64) -> Option<u32> {
    let mut count: u32 = 0;
    for at in took {
        if at.event == event {
            if at.out != count {
                return None;
            }
            count = at.out.wrapping_add(1);
        }
    }
    Some(count)
}

/// Puts one reference.
fn put_once<R: Wait>(rt: &R, mailbox: &Mailbox, pass: &mut Pass, out: u32) -> Result<(), Full>
    requires { pass.old.table ≡ mailbox.now.table }
    ensures { (pass.new.table ≡ pass.old.table) × (pass.new.number ≡ pass.old.number) }
{
    mailbox.put(rt, pass, MsgRef { event: 1, out })
}

/// Takes one reference, by the first pass.
fn take_once<R: Wait>(rt: &R, mailbox: &Mailbox, pass: &mut Pass) -> Result<MsgRef, Empty>
    requires table { pass.old.table ≡ mailbox.now.table }
    requires first { pass.old.number ≡ 0 }
    ensures { (pass.new.table ≡ pass.old.table) × (pass.new.number ≡ pass.old.number) }
{
    mailbox.take(rt, pass)
}

/// What a mailbox for one reference answers to two puts and two takes, before it is closed.
pub fn by_ones<R: Wait>(
    rt: &R,
    alloc: Global,
) -> Result<
    (
        Result<(), Full>,
        Result<(), Full>,
        Result<MsgRef, Empty>,
        Result<MsgRef, Empty>,
    ),
    NoMemory,
> {
    let (mailbox, mut passes) = Mailbox::new(alloc, 1, 1)?;
    let Some(mut pass) = passes.take_first() else {
        unreachable!()
    };
    let put = put_once(rt, &mailbox, &mut pass, 5);
    let full = put_once(rt, &mailbox, &mut pass, 6);
    let took = take_once(rt, &mailbox, &mut pass);
    let empty = take_once(rt, &mailbox, &mut pass);
    passes.give_first(pass);
    mailbox.close(passes);
    Ok((put, full, took, empty))
}
