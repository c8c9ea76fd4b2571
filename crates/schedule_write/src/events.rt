// The lines of events.
ghost use Rattle.std.specs.Fmt.{decimal};
ghost use Rattle.std.specs.Prelude.{◌≡◌, ◌++◌, ◌∷◌, [], OnOk};
ghost use Rattle.cluster_history.specs.Messages.{level_of};
ghost use Rattle.cluster_history.specs.declared.data.Event.TheVariants.{Ask, Begin};
ghost use Rattle.schedule_write.specs.Words.{spaced_words, joined_words, spelt_host, spelt_lane, reference_word};
ghost use Rattle.schedule_write.specs.Events.{operation_words, spelt_what, spelt_command, actor_words, event_words};
ghost use Rattle.topo_state.specs.declared.command.Command.TheVariants.{CreateTable, Start};

use crate::words::{
    cell, host, lane, level_word, number, reference, replica, replicas, resize_word, signed,
    target_word, word,
};
use barrier_core::What;
use base_ids::{Actor, HostId, LaneId, MsgRef, NoMemory, Replica, TableId, Version};
use cluster_history::{Event, Operation};
use stage_graph::Level;
use std::alloc::Global;
use token_ring::TabletId;
use topo_state::Command;

/// Adds what a client asks, without its level.
fn operation(alloc: Global, text: &mut Vec<u8>, operation: &Operation) -> Result<(), NoMemory>
    ensures { OnOk result (text.new.items ≡ text.old.items ++ spaced_words (operation_words operation.now)) }
{
    match operation {
        Operation::Write {
            table,
            token,
            cell: written,
            ..
        } => {
            word(text, "write")?;
            number(text, u64::from(table.0))?;
            signed(text, token.get())?;
            cell(alloc, text, written)
        }
        Operation::Read { table, token, .. } => {
            word(text, "read")?;
            number(text, u64::from(table.0))?;
            signed(text, token.get())
        }
    }
}

/// Adds what a coordinator asks.
fn what(text: &mut Vec<u8>, what: What) -> Result<(), NoMemory>
    ensures { OnOk result (text.new.items ≡ text.old.items ++ spaced_words (spelt_what what)) }
{
    let (verb, asked) = match what {
        What::Drain(version) => ("drain", version.0),
        What::Fence(version) => ("fence", version.0),
        What::Done(session) => ("done", session.0),
        What::Clean(session) => ("clean", session.0),
        What::Ready(session) => ("ready", session.0),
    };
    word(text, verb)?;
    number(text, asked)
}

/// Adds a command that creates a table.
fn creation(text: &mut Vec<u8>, table: TableId, log2: u8, all: &[Replica]) -> Result<(), NoMemory>
    ensures { OnOk result
        (text.new.items ≡ text.old.items ++ spaced_words (spelt_command (CreateTable table log2 all.now))) }
{
    word(text, "create")?;
    number(text, u64::from(table.0))?;
    number(text, u64::from(log2))?;
    replicas(text, all)
}

/// Adds a command that starts a move.
fn start(
    text: &mut Vec<u8>,
    table: TableId,
    tablet: TabletId,
    leaving: Replica,
    pending: Replica,
) -> Result<(), NoMemory>
    ensures { OnOk result
        (text.new.items ≡ text.old.items ++ spaced_words (spelt_command (Start table tablet leaving pending))) }
{
    word(text, "start")?;
    number(text, u64::from(table.0))?;
    number(text, u64::from(tablet.0))?;
    replica(text, leaving)?;
    replica(text, pending)
}

/// Adds a command.
fn command(text: &mut Vec<u8>, command: &Command) -> Result<(), NoMemory>
    ensures { OnOk result (text.new.items ≡ text.old.items ++ spaced_words (spelt_command command.now)) }
{
    match command {
        Command::CreateTable {
            table,
            log2,
            replicas,
        } => creation(text, *table, *log2, replicas.as_slice()),
        Command::Start {
            table,
            tablet,
            leaving,
            pending,
        } => start(text, *table, *tablet, *leaving, *pending),
        Command::Advance { session, to } => {
            word(text, "advance")?;
            number(text, session.0)?;
            word(text, target_word(*to))
        }
        Command::SetFence(version) => {
            word(text, "fence")?;
            number(text, version.0)
        }
        Command::Join(member) => {
            word(text, "join")?;
            host(text, *member)
        }
        Command::Leave(member) => {
            word(text, "leave")?;
            host(text, *member)
        }
        Command::Resize { table, kind } => {
            word(text, "resize")?;
            number(text, u64::from(table.0))?;
            word(text, resize_word(*kind))
        }
        Command::FinalizeResize { table, seq } => {
            word(text, "finalize")?;
            number(text, u64::from(table.0))?;
            number(text, seq.0)
        }
    }
}

/// Adds an actor.
fn actor(text: &mut Vec<u8>, actor: Actor) -> Result<(), NoMemory>
    ensures { OnOk result (text.new.items ≡ text.old.items ++ spaced_words (actor_words actor)) }
{
    match actor {
        Actor::Host(by) => {
            word(text, "host")?;
            host(text, by)
        }
        Actor::Lane(by) => {
            word(text, "lane")?;
            lane(text, by)
        }
        Actor::Topo(by) => {
            word(text, "topo")?;
            host(text, by)
        }
    }
}

/// Begins a line with a verb and a host.
fn of_host(text: &mut Vec<u8>, verb: &str, by: HostId) -> Result<(), NoMemory>
    ensures { OnOk result (text.new.items ≡ text.old.items ++ joined_words (verb.now ∷ spelt_host by ∷ [])) }
{
    text.extend_from_slice(verb.as_bytes())?;
    host(text, by)
}

/// Begins a line with a verb, a host and a number.
fn of_number(text: &mut Vec<u8>, verb: &str, by: HostId, asked: u64) -> Result<(), NoMemory>
    ensures { OnOk result
        (text.new.items ≡ text.old.items ++ joined_words (verb.now ∷ spelt_host by ∷ decimal asked ∷ [])) }
{
    of_host(text, verb, by)?;
    number(text, asked)
}

/// Begins a line with a verb, a host and a message.
fn of_message(text: &mut Vec<u8>, verb: &str, by: HostId, at: MsgRef) -> Result<(), NoMemory>
    ensures { OnOk result
        (text.new.items ≡ text.old.items ++ joined_words (verb.now ∷ spelt_host by ∷ reference_word at ∷ [])) }
{
    of_host(text, verb, by)?;
    reference(text, at)
}

/// Begins a line with a verb and a lane.
fn of_lane(text: &mut Vec<u8>, verb: &str, by: LaneId) -> Result<(), NoMemory>
    ensures { OnOk result (text.new.items ≡ text.old.items ++ joined_words (verb.now ∷ spelt_lane by ∷ [])) }
{
    text.extend_from_slice(verb.as_bytes())?;
    lane(text, by)
}

/// The level of what a client asks.
fn level_of(operation: &Operation) -> Level
    ensures { result ≡ level_of operation.now }
{
    match operation {
        Operation::Write { level, .. } => *level,
        Operation::Read { level, .. } => *level,
    }
}

/// Adds the words of a begin, which names its level and its version.
fn begin(
    alloc: Global,
    text: &mut Vec<u8>,
    by: LaneId,
    asked: &Operation,
    version: Version,
) -> Result<(), NoMemory>
    ensures { OnOk result (text.new.items ≡ text.old.items ++ joined_words (event_words (Begin by asked.now version))) }
{
    of_lane(text, "begin", by)?;
    operation(alloc, text, asked)?;
    word(text, level_word(level_of(asked)))?;
    word(text, "at")?;
    number(text, version.0)?;
    Ok(())
}

/// Adds the words of a coordinator's question.
fn ask(text: &mut Vec<u8>, by: HostId, asked: HostId, question: What) -> Result<(), NoMemory>
    ensures { OnOk result (text.new.items ≡ text.old.items ++ joined_words (event_words (Ask by asked question))) }
{
    of_host(text, "ask", by)?;
    host(text, asked)?;
    what(text, question)
}

/// Adds the words of an event.
pub(crate) fn event(alloc: Global, text: &mut Vec<u8>, event: &Event) -> Result<(), NoMemory>
    ensures { OnOk result (text.new.items ≡ text.old.items ++ joined_words (event_words event.now)) }
{
    match event {
        Event::Begin {
            lane,
            operation,
            version,
        } => begin(alloc, text, *lane, operation, *version),
        Event::Take { lane, at } => {
            of_lane(text, "take", *lane)?;
            reference(text, *at)
        }
        Event::Timeout { lane, op } => {
            of_lane(text, "timeout", *lane)?;
            number(text, op.0)
        }
        Event::Apply { host } => of_host(text, "apply", *host),
        Event::Quiet { host, version } => of_number(text, "quiet", *host, version.0),
        Event::Serve { host, at } => of_message(text, "serve", *host, *at),
        Event::Answer { host, at } => of_message(text, "answer", *host, *at),
        Event::Clean { host, at } => of_message(text, "clean", *host, *at),
        Event::Pull { host, session } => of_number(text, "pull", *host, session.0),
        Event::TakeChunk { host, at } => of_message(text, "chunk", *host, *at),
        Event::Look { topo } => of_host(text, "look", *topo),
        Event::Ask { topo, host, what } => ask(text, *topo, *host, *what),
        Event::Hear { topo, at } => of_message(text, "hear", *topo, *at),
        Event::Propose {
            topo,
            command: proposed,
        } => {
            of_host(text, "propose", *topo)?;
            command(text, proposed)
        }
        Event::Restart { actor: by } => {
            text.extend_from_slice(b"restart")?;
            actor(text, *by)
        }
    }
}
