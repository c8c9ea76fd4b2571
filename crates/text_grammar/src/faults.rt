// What a text can be at fault in.
ghost use Rattle.std.specs.Prelude.{◌≡◌};
ghost use Rattle.text_grammar.specs.Rules.{text_rule_word};

use base_ids::{LimitName, NoMemory};
use std::alloc::{AllocError, AllocFailed};
use thiserror::Error;

/// What a line of a schedule text, or its end, is refused for.
#[derive(Clone, Copy, Debug, PartialEq, Eq, Error)]
pub enum TextRule {
    /// What comes first, comments and lines without words aside, is another line than `tablets 1`, or nothing.
    #[error("NoHeader")]
    NoHeader,
    /// The text ends before `go`.
    #[error("NoGo")]
    NoGo,
    /// A line of the header is repeated or out of its order, or names what it may not.
    #[error("BadHeader")]
    BadHeader,
    /// No form allows this line or word here.
    #[error("BadWord")]
    BadWord,
    /// This is not how a number is written, or the number is out of its range.
    #[error("BadNumber")]
    BadNumber,
    /// A token is the least signed number of 64 bits.
    #[error("BadToken")]
    BadToken,
    /// This is not how a cell is written.
    #[error("BadCell")]
    BadCell,
    /// A table of the header names a replica that it may not have.
    #[error("BadReplicas")]
    BadReplicas,
    /// A host or lane that acts, or is asked, is not in the opening.
    #[error("BadActor")]
    BadActor,
    /// An earlier line has this label already.
    #[error("LabelTwice")]
    LabelTwice,
    /// None of the lines before has the label.
    #[error("NoLabel")]
    NoLabel,
}

impl TextRule {
    /// The word by which the rule is printed.
    pub fn word(self) -> &'static str
        ensures { result.now ≡ text_rule_word self }
    {
        match self {
            TextRule::NoHeader => "NoHeader",
            TextRule::NoGo => "NoGo",
            TextRule::BadHeader => "BadHeader",
            TextRule::BadWord => "BadWord",
            TextRule::BadNumber => "BadNumber",
            TextRule::BadToken => "BadToken",
            TextRule::BadCell => "BadCell",
            TextRule::BadReplicas => "BadReplicas",
            TextRule::BadActor => "BadActor",
            TextRule::LabelTwice => "LabelTwice",
            TextRule::NoLabel => "NoLabel",
        }
    }
}

/// What a word or a line is at fault in: a rule that it breaks, or a limit that it passes.
#[derive(Clone, Copy, Debug, PartialEq, Eq, Error)]
pub enum Fault {
    /// It breaks this rule.
    #[error("{}", .0.word())]
    Refused(TextRule),
    /// It passes this limit.
    #[error("limit {}", .0.word())]
    Limit(LimitName),
}

impl From<TextRule> for Fault {
    ghost use Rattle.std.specs.Prelude.{◌≡◌};
    ghost use Rattle.text_grammar.specs.declared.faults.Fault.TheVariants.{Refused};

    ghost from_gives = { λ rule fault. fault ≡ Refused rule };

    fn from(rule: TextRule) -> Fault {
        Fault::Refused(rule)
    }
}

/// Why a line was not read.
#[derive(Clone, Copy, Debug, PartialEq, Eq, Error)]
pub enum LineError {
    /// It is at fault.
    #[error("{0}")]
    Fault(Fault),
    /// Memory was refused.
    #[error("out of memory")]
    NoMemory,
}

impl From<Fault> for LineError {
    ghost use Rattle.std.specs.Prelude.{◌≡◌};
    ghost use Rattle.text_grammar.specs.declared.faults.LineError.TheVariants.{Fault as FaultIn};

    ghost from_gives = { λ fault error. error ≡ FaultIn fault };

    fn from(fault: Fault) -> LineError {
        LineError::Fault(fault)
    }
}

impl From<NoMemory> for LineError {
    ghost use Rattle.std.specs.Prelude.{◌≡◌};
    ghost use Rattle.text_grammar.specs.declared.faults.LineError.TheVariants.{NoMemory as NoMemoryForLine};

    ghost from_gives = { λ _ error. error ≡ NoMemoryForLine };

    fn from(_refused: NoMemory) -> LineError {
        LineError::NoMemory
    }
}

impl From<AllocError> for LineError {
    ghost use Rattle.std.specs.Prelude.{◌≡◌};
    ghost use Rattle.text_grammar.specs.declared.faults.LineError.TheVariants.{NoMemory as NoMemoryForLine};

    ghost from_gives = { λ _ error. error ≡ NoMemoryForLine };

    fn from(_refused: AllocError) -> LineError {
        LineError::NoMemory
    }
}

impl<T: Drop> From<AllocFailed<T>> for LineError {
    ghost use Rattle.std.specs.Prelude.{◌≡◌};
    ghost use Rattle.text_grammar.specs.declared.faults.LineError.TheVariants.{NoMemory as NoMemoryForLine};

    ghost from_gives = { λ _ error. error ≡ NoMemoryForLine };

    fn from(_refused: AllocFailed<T>) -> LineError {
        LineError::NoMemory
    }
}
