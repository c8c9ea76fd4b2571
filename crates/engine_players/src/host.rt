//! A host plays its events.
ghost use Rattle.std.specs.Prelude.{◌≡◌, ◌∷◌, [], IfOk, None, OnOk};
ghost use Rattle.cluster_history.specs.declared.data.Output.{Output as SentOutput};
ghost use Rattle.host_core.specs.Host.{CanTake, host_after, host_rule};
ghost use Rattle.host_ties.specs.HostTies.{host_outputs};
ghost use Rattle.engine_desk.specs.Desks.{IsSeated};
ghost use Rattle.engine_players.specs.Hosts.{IsHost, IsHostDue, IsHostPlayed, host_entry};

use barrier_core::{Fact, What};
use base_ids::{HostId, Items, NoMemory};
use cell_merge::{Body, Cell};
use cluster_history::{Entry, Event, Message, Output, OutputList};
use engine_desk::{Chair, Desk, Mail, Refused};
use host_core::{HostCore, HostInput, HostOut};
use quorum_ops::{Answer, Said};
use replica_store::Store;
use std::alloc::Global;
use std::sync::Wait;
use stream_core::{ChunkAsk, ChunkMsg};

/// A list of one message.
fn one(alloc: Global, message: Message) -> Result<OutputList, NoMemory>
    ensures { IfOk result (λ outputs. outputs ≡ SentOutput.Sent message ∷ []) }
{
    let _inside: Option<(&Message, &Answer, &Said, &Cell, &Body, &ChunkMsg)> = None;
    let _asks: Option<(&ChunkAsk, &Fact, &What)> = None;
    let mut outputs = Items::new(alloc);
    outputs.push(Output::Sent(message))?;
    Ok(outputs)
}

/// What a host gives out, as outputs.
fn outputs_of(alloc: Global, host: HostId, out: HostOut) -> Result<OutputList, NoMemory>
    ensures { IfOk result (λ outputs. outputs ≡ host_outputs host out) }
{
    match out {
        HostOut::Nothing | HostOut::Pulling(_) => Ok(Items::new(alloc)),
        HostOut::Answer(answer) => one(alloc, Message::Answer(answer)),
        HostOut::Ask(ask) => one(alloc, Message::ChunkAsk(ask)),
        HostOut::Chunk(chunk) => one(alloc, Message::Chunk(chunk)),
        HostOut::Fact(fact) => one(alloc, Message::Fact(fact)),
        HostOut::NotMine { to, session } => one(
            alloc,
            Message::NotMine {
                from: host,
                to,
                session,
            },
        ),
        HostOut::Pulled(session) => {
            let mut outputs = Items::new(alloc);
            outputs.push(Output::Pulled { session })?;
            Ok(outputs)
        }
    }
}

/// A host plays an event, which has then this entry. `NoMemory` may come after it was played.
fn played_entry<S: Store>(
    alloc: Global,
    host: HostId,
    core: &mut HostCore<S>,
    event: Event,
    input: HostInput,
) -> Result<Entry, NoMemory>
    requires named { host ≡ core.old.core.host }
    requires rule { host_rule core.old.core input ≡ None }
    requires fits { CanTake core.old.core input }
    ensures entry { IfOk result (λ entry. entry ≡ host_entry core.old.core event input) }
    ensures core { OnOk result (core.new.core ≡ host_after core.old.core input) }
{
    let prepared = core.prepare(input)?;
    let out = core.settle(prepared);
    let outputs = outputs_of(alloc, host, out)?;
    Ok(Entry { event, outputs })
}

/// A host plays an event that is enabled in what it has seen. After an error the host itself is lost.
pub fn play_host<C: Chair, M: Mail, S: Store, R: Wait>(
    rt: &R,
    alloc: Global,
    desk: &mut Desk<C, M>,
    host: HostId,
    core: &mut HostCore<S>,
    event: Event,
    input: HostInput,
) -> Result<u64, Refused>
    requires named { host ≡ core.old.core.host }
    requires seated { IsSeated desk.old.known }
    requires host { IsHost desk.old.known core.old.core }
    requires due { IsHostDue desk.old core.old.core event input }
    ensures { IsHostPlayed desk.old core.old.core event input result desk.new core.new.core }
{
    let entry = played_entry(alloc, host, core, event, input)?;
    desk.commit(rt, entry)
}
