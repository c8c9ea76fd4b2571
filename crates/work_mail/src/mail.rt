//! A mailbox as an actor sees it.
ghost use Rattle.std.specs.Prelude.{◌≡◌, OnErr, OnOk};
ghost use Rattle.work_mail.specs.Passes.{MailView, put_in, refused_by, taken_from};

use crate::mailbox::Full;
use base_ids::MsgRef;
use std::sync::Wait;

/// A place where references are put and taken. Contracts see what was put and taken by way of it.
pub trait Mail: Drop {
    ghost mail: { Self → MailView };

    /// Puts a reference behind the others. `Full` comes where there is no room for it.
    fn put<R: Wait>(&mut self, rt: &R, at: MsgRef) -> Result<(), Full>
        ensures ok { OnOk result (mail self.new ≡ put_in at (mail self.old)) }
        ensures full { OnErr result (mail self.new ≡ refused_by (mail self.old)) };

    /// Takes the first reference, if there is one and this place takes any.
    fn take<R: Wait>(&mut self, rt: &R) -> Option<MsgRef>
        ensures { mail self.new ≡ taken_from result (mail self.old) };

    /// How often it was asked for a reference.
    fn takes(&self) -> u64
        ensures { result ≡ (mail self.now).takes };
}
