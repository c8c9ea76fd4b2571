// The names of event rules and of limits, and the outcome of a proposal.
ghost use Rattle.std.specs.Prelude.{◌≡◌, codes};
ghost use Rattle.base_ids.specs.Rules.{event_rule_word, limit_word};

use crate::ids::StateId;

/// Why an event may not come next: the first of its rules that it breaks, in an order that is fixed.
#[derive(Clone, Copy, Debug, PartialEq, Eq)]
pub enum EventRule {
    /// A begin has a version that is less than its host's floor.
    BelowFloor,
    /// A begin has a version that its host has not reached.
    AboveVersion,
    /// The lane of a begin has 8 live requests.
    LaneFull,
    /// The journal has no such entry, or the entry no such output.
    NoMessage,
    /// The event takes no such output, or the message was sent to someone else.
    WrongMessage,
    /// The lane of a timeout has no such live request.
    NoRequest,
    /// No command of the log is left for the host to apply.
    NothingToApply,
    /// The version of a quiet event is above that of the host.
    VersionAhead,
    /// A request below the version of a quiet event is live on one of the host's lanes.
    LiveBelow,
    /// What a topo asks of a host does not hold there.
    NotTrue,
    /// As far as the host has applied the log, the session streams nothing to it.
    NoStream,
    /// The pull of the session is done.
    PullOver,
    /// A topo has no complete evidence for the version of the state that it has seen.
    NoEvidence,
    /// A topo has not heard that the pull of the session is done.
    NoDone,
    /// A topo has not heard that what the session leaves was cleaned.
    NoCleaned,
    /// A topo has not heard from each host of the table that it is ready for the split.
    NoReady,
}

impl EventRule {
    /// The word by which the rule is printed.
    pub fn word(self) -> &'static str
        ensures { result.now ≡ event_rule_word self }
    {
        match self {
            EventRule::BelowFloor => "BelowFloor",
            EventRule::AboveVersion => "AboveVersion",
            EventRule::LaneFull => "LaneFull",
            EventRule::NoMessage => "NoMessage",
            EventRule::WrongMessage => "WrongMessage",
            EventRule::NoRequest => "NoRequest",
            EventRule::NothingToApply => "NothingToApply",
            EventRule::VersionAhead => "VersionAhead",
            EventRule::LiveBelow => "LiveBelow",
            EventRule::NotTrue => "NotTrue",
            EventRule::NoStream => "NoStream",
            EventRule::PullOver => "PullOver",
            EventRule::NoEvidence => "NoEvidence",
            EventRule::NoDone => "NoDone",
            EventRule::NoCleaned => "NoCleaned",
            EventRule::NoReady => "NoReady",
        }
    }
}

/// The name of a limit on a counted quantity.
#[derive(Clone, Copy, Debug, PartialEq, Eq)]
pub enum LimitName {
    /// At most 4194304 bytes are read.
    Input,
    /// At most 64 hosts in version 1 of the schedule text, 256 in version 2.
    Hosts,
    /// At most 4 lanes a host.
    Lanes,
    /// At most 16 shards a host.
    Shards,
    /// At most 64 tables in the header.
    Tables,
    /// At most 2^10 tablets in a table, wherever their logarithm is read.
    Log2,
    /// At most 1024 tablets in the header, over its tables together.
    Tablets,
    /// At most 8 replicas in one list.
    Replicas,
    /// At most 64 bytes in a live cell.
    Value,
    /// At most 1000000 entries of the journal.
    Events,
    /// At most 10000 accepted entries of the log.
    Log,
}

impl LimitName {
    /// The word by which the limit is printed.
    pub fn word(self) -> &'static str
        ensures { result.now ≡ limit_word self }
    {
        match self {
            LimitName::Input => "input",
            LimitName::Hosts => "hosts",
            LimitName::Lanes => "lanes",
            LimitName::Shards => "shards",
            LimitName::Tables => "tables",
            LimitName::Log2 => "log2",
            LimitName::Tablets => "tablets",
            LimitName::Replicas => "replicas",
            LimitName::Value => "value",
            LimitName::Events => "events",
            LimitName::Log => "log",
        }
    }
}

/// The outcome of a proposal to group 0.
#[derive(Clone, Copy, Debug, PartialEq, Eq)]
pub enum Appended<R> {
    /// The command is the log's entry of this index, from 1.
    Accepted {
        /// The index of the entry.
        index: u64,
    },
    /// The state id was not the last one, and nothing changed.
    Conflict {
        /// The last state id.
        last: StateId,
    },
    /// The command breaks a rule, and nothing changed.
    Illegal {
        /// The first rule that it breaks.
        rule: R,
    },
}
