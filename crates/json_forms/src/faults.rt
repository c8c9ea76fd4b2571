// What a JSON value can be at fault in.
ghost use Rattle.std.specs.Prelude.{◌≡◌};
ghost use Rattle.json_forms.specs.Rules.{file_rule_word};

use base_ids::{LimitName, NoMemory, Text};
use std::alloc::{AllocError, AllocFailed};
use thiserror::Error;

/// What a document is refused for.
#[derive(Clone, Copy, Debug, PartialEq, Eq, Error)]
pub enum FileRule {
    /// The bytes are no JSON.
    #[error("NotJson")]
    NotJson,
    /// A member that is needed is not there.
    #[error("Missing")]
    Missing,
    /// A value is of another type than is wanted, or a number is not held as a whole number of 64 bits.
    #[error("WrongType")]
    WrongType,
    /// A value is of the type that is wanted, and not one that may stand there.
    #[error("BadValue")]
    BadValue,
}

impl FileRule {
    /// The word by which the rule is printed.
    pub fn word(self) -> &'static str
        ensures { result.now ≡ file_rule_word self }
    {
        match self {
            FileRule::NotJson => "NotJson",
            FileRule::Missing => "Missing",
            FileRule::WrongType => "WrongType",
            FileRule::BadValue => "BadValue",
        }
    }
}

/// What a value is at fault in: a rule that it breaks, or a limit that it passes.
#[derive(Clone, Copy, Debug, PartialEq, Eq)]
pub enum Fault {
    /// It breaks this rule.
    Refused(FileRule),
    /// It passes this limit.
    Limit(LimitName),
}

/// Where a value is at fault, and in what.
#[derive(Debug, Drop)]
pub struct FaultAt {
    /// The way from the value to the one at fault: a slash before each name of a member and each place in a list.
    pub path: Text,
    /// What that one is at fault in.
    pub fault: Fault,
}

/// Why a value was not read.
#[derive(Debug, Drop)]
pub enum ReadError {
    /// It is at fault.
    Fault(FaultAt),
    /// Memory was refused.
    NoMemory,
}

impl From<NoMemory> for ReadError {
    ghost use Rattle.std.specs.Prelude.{◌≡◌};
    ghost use Rattle.json_forms.specs.declared.faults.ReadError.TheVariants.{NoMemory as NoMemoryInRead};

    ghost from_gives = { λ _ error. error ≡ NoMemoryInRead };

    fn from(_refused: NoMemory) -> ReadError {
        ReadError::NoMemory
    }
}

impl From<AllocError> for ReadError {
    ghost use Rattle.std.specs.Prelude.{◌≡◌};
    ghost use Rattle.json_forms.specs.declared.faults.ReadError.TheVariants.{NoMemory as NoMemoryInRead};

    ghost from_gives = { λ _ error. error ≡ NoMemoryInRead };

    fn from(_refused: AllocError) -> ReadError {
        ReadError::NoMemory
    }
}

impl<T: Drop> From<AllocFailed<T>> for ReadError {
    ghost use Rattle.std.specs.Prelude.{◌≡◌};
    ghost use Rattle.json_forms.specs.declared.faults.ReadError.TheVariants.{NoMemory as NoMemoryInRead};

    ghost from_gives = { λ _ error. error ≡ NoMemoryInRead };

    fn from(_refused: AllocFailed<T>) -> ReadError {
        ReadError::NoMemory
    }
}
