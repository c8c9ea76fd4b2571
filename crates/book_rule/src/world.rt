//! What the book is generic in.
ghost use Rattle.std.specs.Prelude.{◌≡◌, ℕ, length, option_copied, IfOk, OnOk, OnErr};
ghost use Rattle.book_rule.specs.World.{Meaning, Laws, IsJudged, outcome_after, added};

use base_ids::{Actor, Appended, NoMemory, StateId, Version};
use shared_value::Shared;
use std::alloc::Global;

/// A log over an opening, and what entries mean after one another. A type that implements it says by `meaning` what its
/// entries are, and proves the laws of that.
pub trait World: Drop + Sized {
    /// What the world starts from.
    type Opening: Drop;
    /// An event with its outputs.
    type Entry: Drop;
    /// What a proposal asks for.
    type Command: Drop;
    /// Why a command may be refused.
    type Rule: Copy;
    /// What an output may send.
    type Message: Drop;
    /// What is known of one version.
    type Snapshot: Drop;

    /// The most entries that a journal has.
    const ENTRIES: u64;
    /// The most commands that a log has.
    const LOG: u64;

    ghost ENTRIES: { ℕ };

    ghost LOG: { ℕ };

    ghost meaning: { Meaning Self Self.Opening Self.Entry Self.Command Self.Rule Self.Message Self.Snapshot };

    /// A copy of the opening. `NoMemory` comes where memory for it is refused.
    fn opening(&self) -> Result<Self::Opening, NoMemory>
        ensures { IfOk result (λ opening. opening ≡ meaning.opening self.now) };

    /// How many commands the log has.
    fn log_len(&self) -> u64
        ensures { result ≡ length (meaning.commands self.now) };

    /// What would become of a proposal of one who has read the log of this length: a conflict where the log has
    /// another one, else the rule that the command breaks, else the number that it gets.
    fn outcome(&self, read: StateId, command: &Self::Command) -> Appended<Self::Rule>
        requires { meaning.is_fit command.now }
        ensures { let log = meaning.commands self.now in
            result ≡ outcome_after meaning (meaning.opening self.now) log read.0 command.now };

    /// The entry of a proposal with its outcome. `NoMemory` comes where memory for it is refused.
    fn proposal(
        alloc: Global,
        topo: Actor,
        command: Self::Command,
        outcome: Appended<Self::Rule>,
    ) -> Result<Self::Entry, NoMemory>
        ensures { IfOk result (λ entry. entry ≡ meaning.proposal topo command outcome) };

    /// Adds the command of an accepted proposal to the log. Any other entry leaves it. So does `NoMemory`, which comes
    /// where memory for it is refused.
    fn add(&mut self, entry: &Self::Entry) -> Result<(), NoMemory>
        requires { IsJudged meaning (meaning.opening self.old) (meaning.commands self.old) (meaning.kind entry.now) }
        ensures ok { let log = meaning.commands self.old in
            OnOk result (meaning.commands self.new ≡ added (meaning.kind entry.now) log) }
        ensures err { OnErr result (meaning.commands self.new ≡ meaning.commands self.old) }
        ensures opening { meaning.opening self.new ≡ meaning.opening self.old };

    /// A copy of the message that an output sent, if it sent one. `NoMemory` comes where memory for it is refused.
    fn message_at(entry: &Self::Entry, out: u32) -> Result<Option<Self::Message>, NoMemory>
        ensures { IfOk result (λ message. message ≡ meaning.message entry.now out) };

    /// Lends the command of a number, from 1, where the log has it.
    fn command_at(&self, n: u64) -> Option<&Shared<Self::Command>>
        ensures { option_copied result ≡ meaning.command_at (meaning.commands self.now) n };

    /// Lends the snapshot of a version, where the log has a state of it.
    fn snapshot_at(&self, version: Version) -> Option<&Shared<Self::Snapshot>>
        ensures { option_copied result ≡
            meaning.snapshot_at (meaning.opening self.now) (meaning.commands self.now) version };

    ghost limits: { (meaning.most_entries ≡ ENTRIES) × (meaning.most_commands ≡ LOG) };

    ghost laws: { Laws meaning };
}
