//! Mailboxes, by which workers send each other references, and parts that work side by side.
#![tactic(auto)]

mod end;
mod list;
mod mail;
mod mailbox;
mod parts;
mod pass;
mod queue;
mod room;
mod rule;

pub use end::End;
pub use list::PassList;
pub use mail::Mail;
pub use mailbox::{Empty, Full, Mailbox};
pub use parts::{Gate, Part, run_parts};
pub use pass::Pass;
pub use rule::{Ended, MailLog};
