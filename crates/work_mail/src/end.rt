//! A mailbox with a pass of it, as an actor's place.
ghost use Rattle.std.specs.Prelude.{◌≡◌};

use crate::mail::Mail;
use crate::mailbox::{Empty, Full, Mailbox};
use crate::pass::Pass;
use base_ids::MsgRef;
use std::marker::Model;
use std::sync::Wait;

/// A mailbox and a pass of it. Contracts see the pass.
#[derive(Drop)]
pub struct End<'a> {
    mailbox: &'a Mailbox,
    pass: Pass,
}

impl<'a> Model for End<'a> {
    ghost use Rattle.std.specs.Prelude.{◌≡◌};
    ghost use Rattle.work_mail.specs.Passes.{MailView};

    ghost Value = { MailView };

    ghost view = { λ e. e.pass };

    ghost invariant = { λ e. e.pass.table ≡ e.mailbox.now.table };
}

impl<'a> End<'a> {
    /// A place in a mailbox, by a pass of it.
    pub fn new(mailbox: &'a Mailbox, pass: Pass) -> End<'a>
        requires { pass.table ≡ mailbox.now.table }
        ensures { result ≡ pass }
    {
        End { mailbox, pass }
    }

    /// The pass.
    pub fn into_pass(self) -> Pass
        ensures { result ≡ self.entry }
    {
        let End { mailbox: _, pass } = self;
        pass
    }
}

impl<'a> Mail for End<'a> {
    ghost mail = { λ end. end };

    fn put<R: Wait>(&mut self, rt: &R, at: MsgRef) -> Result<(), Full> {
        self.mailbox.put(rt, &mut self.pass, at)
    }

    fn take<R: Wait>(&mut self, rt: &R) -> Option<MsgRef> {
        if !self.pass.is_first() {
            self.pass.count_take(rt);
            return None;
        }
        match self.mailbox.take(rt, &mut self.pass) {
            Ok(at) => Some(at),
            Err(Empty) => None,
        }
    }

    fn takes(&self) -> u64 {
        self.pass.takes()
    }
}
