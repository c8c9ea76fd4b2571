//! The texts of the report's lines.
ghost use Rattle.std.specs.Prelude.{◌≡◌, IfOk};
ghost use Rattle.std.specs.String.{string_bytes};
ghost use Rattle.report_text.specs.Report.{result_text, kind_text, request_text, reply_line, rule_word, outcome_text, proposal_line, pull_line, cleaned_line, not_mine_line, end_line};

use base_ids::{Appended, HostId, Items, LaneId, Line, NoMemory, OpId, Session, Version};
use quorum_ops::Reply;
use schedule_words::cell_text;
use stage_graph::Kind;
use std::alloc::Global;
use topo_state::Rule;

/// The text of what a client is told.
fn result_text(alloc: Global, reply: &Reply) -> Result<String, NoMemory>
    ensures { IfOk result (λ text. string_bytes text ≡ result_text reply.now) }
{
    match reply {
        Reply::Ok => Ok(String::from_str(alloc, "ok")?),
        Reply::Read(None) => Ok(String::from_str(alloc, "ok none")?),
        Reply::Read(Some(cell)) => {
            let cell = cell_text(alloc, cell)?;
            Ok(format!(in alloc; "ok {cell}")?)
        }
        Reply::Stale { refused, fence } => {
            let fence = fence.0;
            Ok(format!(in alloc; "stale {refused} fence {fence}")?)
        }
        Reply::Timeout { answered, required } => {
            Ok(format!(in alloc; "timeout {answered} of {required}")?)
        }
        Reply::NoTable => Ok(String::from_str(alloc, "notable")?),
        Reply::NotMember => Ok(String::from_str(alloc, "notmember")?),
    }
}

/// The word of a kind of request.
fn kind_text(kind: Kind) -> &'static str
    ensures { result.now ≡ kind_text kind }
{
    match kind {
        Kind::Read => "read",
        Kind::Write => "write",
    }
}

/// The text of a request.
fn request_text(alloc: Global, lane: LaneId, op: OpId, version: Version) -> Result<String, NoMemory>
    ensures { IfOk result (λ text. string_bytes text ≡ request_text lane op version) }
{
    let host = lane.host.0;
    let lane = lane.lane;
    let op = op.0;
    let version = version.0;
    Ok(format!(in alloc; "{host}.{lane} {op} v{version}")?)
}

/// The line of a reply.
pub(crate) fn reply_line(
    alloc: Global,
    lane: LaneId,
    op: OpId,
    version: Version,
    kind: Kind,
    reply: &Reply,
) -> Result<Line, NoMemory>
    ensures { IfOk result (λ line. line ≡ reply_line lane op version kind reply.now) }
{
    let request = request_text(alloc, lane, op, version)?;
    let kind = kind_text(kind);
    let told = result_text(alloc, reply)?;
    let line = format!(in alloc; "reply {request} {kind} {told}\n")?;
    Ok(Items::from_vec(line.into_bytes()))
}

/// The word of a rule.
fn rule_word(rule: Rule) -> &'static str
    ensures { result.now ≡ rule_word rule }
{
    match rule {
        Rule::UnknownHost => "UnknownHost",
        Rule::NotMember => "NotMember",
        Rule::AlreadyMember => "AlreadyMember",
        Rule::StillHolds => "StillHolds",
        Rule::TableExists => "TableExists",
        Rule::NoSuchTable => "NoSuchTable",
        Rule::BadReplicas => "BadReplicas",
        Rule::TooMany => "TooMany",
        Rule::Moving => "Moving",
        Rule::NoSuchSession => "NoSuchSession",
        Rule::BadStage => "BadStage",
        Rule::BadFence => "BadFence",
        Rule::BadResize => "BadResize",
        Rule::NotColocated => "NotColocated",
    }
}

/// The text of what became of a proposal, with the version after it.
fn outcome_text(
    alloc: Global,
    version: Version,
    outcome: Appended<Rule>,
) -> Result<String, NoMemory>
    ensures { IfOk result (λ text. string_bytes text ≡ outcome_text version outcome) }
{
    match outcome {
        Appended::Accepted { index } => {
            let version = version.0;
            Ok(format!(in alloc; "accepted {index} v{version}")?)
        }
        Appended::Conflict { last } => {
            let last = last.0;
            Ok(format!(in alloc; "conflict {last}")?)
        }
        Appended::Illegal { rule } => {
            let rule = rule_word(rule);
            Ok(format!(in alloc; "illegal {rule}")?)
        }
    }
}

/// The line of what became of a proposal, with the version after it.
pub(crate) fn proposal_line(
    alloc: Global,
    topo: HostId,
    version: Version,
    outcome: Appended<Rule>,
) -> Result<Line, NoMemory>
    ensures { IfOk result (λ line. line ≡ proposal_line topo version outcome) }
{
    let topo = topo.0;
    let outcome = outcome_text(alloc, version, outcome)?;
    let line = format!(in alloc; "topo {topo} {outcome}\n")?;
    Ok(Items::from_vec(line.into_bytes()))
}

/// The line of a pull that is done.
pub(crate) fn pull_line(alloc: Global, host: HostId, session: Session) -> Result<Line, NoMemory>
    ensures { IfOk result (λ line. line ≡ pull_line host session) }
{
    let host = host.0;
    let session = session.0;
    let line = format!(in alloc; "pull {host} {session} done\n")?;
    Ok(Items::from_vec(line.into_bytes()))
}

/// The line of a cleanup that was done.
pub(crate) fn cleaned_line(alloc: Global, host: HostId, session: Session) -> Result<Line, NoMemory>
    ensures { IfOk result (λ line. line ≡ cleaned_line host session) }
{
    let host = host.0;
    let session = session.0;
    let line = format!(in alloc; "clean {host} {session} cleaned\n")?;
    Ok(Items::from_vec(line.into_bytes()))
}

/// The line of a cleanup that its host has nothing of.
pub(crate) fn not_mine_line(alloc: Global, host: HostId, session: Session) -> Result<Line, NoMemory>
    ensures { IfOk result (λ line. line ≡ not_mine_line host session) }
{
    let host = host.0;
    let session = session.0;
    let line = format!(in alloc; "clean {host} {session} notmine\n")?;
    Ok(Items::from_vec(line.into_bytes()))
}

/// The end line: the count of replies, that of accepted commands, and the version and the fence of the log's state.
pub(crate) fn end_line(
    alloc: Global,
    replies: usize,
    log: u64,
    version: Version,
    fence: Version,
) -> Result<Line, NoMemory>
    ensures { IfOk result (λ line. line ≡ end_line replies log version fence) }
{
    let version = version.0;
    let fence = fence.0;
    let line = format!(in alloc;
        "end replies {replies} log {log} version {version} fence {fence}\n"
    )?;
    Ok(Items::from_vec(line.into_bytes()))
}
