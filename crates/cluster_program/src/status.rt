//! How the program ends.
ghost use Rattle.std.specs.Prelude.{◌≡◌};

/// With which status the program ends.
#[derive(Clone, Copy, Debug, PartialEq, Eq)]
pub enum Status {
    /// The command was carried out to its end.
    Done,
    /// The words name no command.
    Usage,
    /// The text is not in the grammar.
    Refused,
    /// An event or a shorthand of the text breaks a rule.
    NotEnabled,
    /// The source failed.
    ReadFault,
    /// The sink failed.
    WriteFault,
    /// A counted quantity passes its limit.
    Limit,
    /// Memory was refused.
    NoMemory,
}

impl Status {
    ghost use Rattle.cluster_program.specs.Status.{status_number};

    /// The number with which the process ends.
    pub fn number(self) -> u8
        ensures { result ≡ status_number self }
    {
        match self {
            Status::Done => 0,
            Status::Usage => 2,
            Status::Refused => 3,
            Status::NotEnabled => 4,
            Status::ReadFault => 5,
            Status::WriteFault => 6,
            Status::Limit => 7,
            Status::NoMemory => 8,
        }
    }
}
