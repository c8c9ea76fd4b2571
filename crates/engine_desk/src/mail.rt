//! One end of a mailbox.
ghost use Rattle.std.specs.Prelude.{◌≡◌, OnErr, OnOk};
ghost use Rattle.engine_desk.specs.Mails.{MailView, put_in, refused_by, taken_from};

use base_ids::MsgRef;
use std::sync::Wait;

/// The mailbox is full.
#[derive(Debug, Clone, Copy, PartialEq, Eq)]
pub struct Full;

/// One end of a mailbox, by which messages are put or taken.
pub trait Mail: Drop {
    ghost mail: { Self → MailView };

    /// Puts a message behind the others.
    fn put<R: Wait>(&mut self, rt: &R, at: MsgRef) -> Result<(), Full>
        ensures ok { OnOk result (mail self.new ≡ put_in at (mail self.old)) }
        ensures full { OnErr result (mail self.new ≡ refused_by (mail self.old)) };

    /// Takes the first message.
    fn take<R: Wait>(&mut self, rt: &R) -> Option<MsgRef>
        ensures { mail self.new ≡ taken_from result (mail self.old) };

    /// How often it was asked for a message.
    fn takes(&self) -> u64
        ensures { result ≡ (mail self.now).takes };
}
