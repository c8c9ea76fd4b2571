//! By which event a host takes a message, and what the message gives it.
ghost use Rattle.std.specs.Prelude.{◌≡◌, IsSome, MatchOption, Some, true};
ghost use Rattle.base_ids.specs.Names.{same_host};
ghost use Rattle.plan_facts.specs.Skips.{is_others};
ghost use Rattle.engine_hosts.specs.Ways.{IsWay, asked_input, asked_session, asked_way, event_by, if_for, input_in, pull_in_message};

use barrier_core::{Ask, What};
use base_ids::{Actor, HostId, MsgRef, Session};
use cluster_history::{Event, Message};
use host_core::HostInput;

/// By which event a host takes a message.
#[derive(Debug, Clone, Copy, PartialEq, Eq)]
pub enum Way {
    /// It stores a cell, tells one, or sends the next cells of a range.
    Serves,
    /// It tells a coordinator that what was asked is so.
    Answers,
    /// It drops what a move leaves behind, where the move's session says so.
    Cleans,
    /// It takes a chunk.
    TakesChunk,
}

fn is_same_host(a: HostId, b: HostId) -> bool
    ensures { result ≡ same_host a b }
{
    a == b
}

/// How a host takes an ask.
fn asked_way(what: What) -> Way
    ensures { result ≡ asked_way what }
{
    match what {
        What::Clean(_) => Way::Cleans,
        _ => Way::Answers,
    }
}

/// What an ask gives a host.
fn asked_input(ask: Ask) -> HostInput
    ensures { result ≡ asked_input ask ask.what }
{
    match ask.what {
        What::Clean(_) => HostInput::Clean(ask),
        _ => HostInput::Answer(ask),
    }
}

/// A way, where the message is for the host.
fn if_for(to: HostId, host: HostId, way: Way) -> Option<Way>
    ensures { result ≡ if_for to host way }
{
    if is_same_host(to, host) {
        Some(way)
    } else {
        None
    }
}

/// How a host takes a message, where it is for that host.
pub(crate) fn way_for(message: &Message, host: HostId) -> Option<Way>
    ensures { MatchOption result (is_others (Actor.Host host) (Some message.now) ≡ true)
        (λ way. IsWay host message.now way) }
{
    match message {
        Message::Write(ask) => if_for(ask.to.host, host, Way::Serves),
        Message::Read(ask) => if_for(ask.to.host, host, Way::Serves),
        Message::ChunkAsk(ask) => if_for(ask.to, host, Way::Serves),
        Message::Chunk(chunk) => if_for(chunk.get().to, host, Way::TakesChunk),
        Message::Ask(ask) => if_for(ask.to, host, asked_way(ask.what)),
        _ => None,
    }
}

/// The event by which a host takes the message this way.
pub(crate) fn event_by(way: Way, host: HostId, at: MsgRef) -> Event
    ensures { result ≡ event_by way host at }
{
    match way {
        Way::Serves => Event::Serve { host, at },
        Way::Answers => Event::Answer { host, at },
        Way::Cleans => Event::Clean { host, at },
        Way::TakesChunk => Event::TakeChunk { host, at },
    }
}

/// What a message of a kind that hosts take gives a host.
pub(crate) fn input_by(message: Message) -> HostInput
    requires { IsSome (input_in message) }
    ensures { input_in message ≡ Some result }
{
    match message {
        Message::Write(ask) => HostInput::Write(ask),
        Message::Read(ask) => HostInput::Read(ask),
        Message::ChunkAsk(ask) => HostInput::SendChunk(ask),
        Message::Chunk(chunk) => HostInput::TakeChunk(chunk),
        Message::Ask(ask) => asked_input(ask),
        _ => unreachable!(),
    }
}

/// The session of an ask whether its pull is done.
fn asked_session(what: What) -> Option<Session>
    ensures { result ≡ asked_session what }
{
    match what {
        What::Done(session) => Some(session),
        _ => None,
    }
}

/// The session whose pull a message speaks of: that of a chunk, or of an ask whether the pull is done.
pub(crate) fn pull_in(message: &Message) -> Option<Session>
    ensures { result ≡ pull_in_message message.now }
{
    match message {
        Message::Chunk(chunk) => Some(chunk.get().session),
        Message::Ask(ask) => asked_session(ask.what),
        _ => None,
    }
}
