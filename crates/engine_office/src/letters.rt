//! The messages of an entry, and room for them.
ghost use Rattle.std.specs.Prelude.{◌≡◌, ◌*◌, ◌^◌, ◌<◌, ◌++◌, ◌∷◌, [], IfOk, OnOk, length};
ghost use Rattle.cluster_history.specs.Messages.{addressee};
ghost use Rattle.engine_desk.specs.Offices.{HasRoom, HaveRoom, box_place, letters_of};
ghost use Rattle.engine_office.specs.Sendings.{AreGrown, newest};

use base_ids::{Actor, MsgRef, NoMemory};
use cell_merge::{Body, Cell};
use cluster_history::{Message, Output};
use engine_desk::{Letter, Mail, Outbox};
use std::alloc::Global;

/// Who may take the message.
fn addressee(message: &Message) -> Actor
    ensures { result ≡ addressee message.now }
{
    match message {
        Message::Write(ask) => Actor::Host(ask.to.host),
        Message::Read(ask) => Actor::Host(ask.to.host),
        Message::Answer(answer) => Actor::Lane(answer.lane),
        Message::ChunkAsk(ask) => Actor::Host(ask.to),
        Message::Chunk(chunk) => Actor::Host(chunk.get().to),
        Message::Ask(ask) => Actor::Host(ask.to),
        Message::Fact(fact) => Actor::Topo(fact.to),
        Message::NotMine { to, .. } => Actor::Topo(*to),
    }
}

/// Adds the letter of an output that is a message.
fn add_letter(letters: &mut Vec<Letter>, out: u32, output: &Output) -> Result<(), NoMemory>
    ensures { OnOk result (letters.new.items ≡ letters.old.items ++ letters_of out (output.now ∷ [])) }
{
    if let Output::Sent(message) = output {
        letters.push(Letter {
            out,
            to: addressee(message),
        })?;
    }
    Ok(())
}

/// The messages of an entry's outputs. `NoMemory` comes also where there are too many outputs for their numbers.
pub(crate) fn letters_of(alloc: Global, outputs: &[Output]) -> Result<Vec<Letter>, NoMemory>
    ensures { IfOk result (λ letters. letters.items ≡ letters_of 0 outputs.now) }
{
    let mut letters = Vec::new(alloc);
    let mut out: u32 = 0;
    'outputs: for output in outputs {
        if out == u32::MAX {
            return Err(NoMemory);
        }
        add_letter(&mut letters, out, output)?;
        out += 1;
    }
    Ok(letters)
}

/// Where an actor's box stands.
fn box_place(lanes: u8, actor: Actor) -> usize
    ensures { result ≡ box_place lanes actor }
{
    let width = lanes as usize + 2;
    match actor {
        Actor::Host(host) => host.0 as usize * width,
        Actor::Topo(host) => host.0 as usize * width + 1,
        Actor::Lane(lane) => lane.host.0 as usize * width + 2 + lane.lane as usize,
    }
}

/// Makes room for so many more in the actor's box, where there is one.
fn reserve_at<M: Mail>(
    boxes: &mut [Outbox<M>],
    lanes: u8,
    count: usize,
    to: Actor,
) -> Result<(), NoMemory>
    ensures grown { AreGrown boxes.old boxes.new }
    ensures room { OnOk result (HasRoom lanes boxes.new count to) }
{
    let place = box_place(lanes, to);
    if place < boxes.len() {
        boxes[place].reserve(count)?;
    }
    Ok(())
}

/// Makes room for two copies of each message in the box of its addressee.
pub(crate) fn make_room<M: Mail>(
    boxes: &mut [Outbox<M>],
    lanes: u8,
    letters: &[Letter],
) -> Result<(), NoMemory>
    requires few { 2 * length letters.now < 2 ^ 64 }
    ensures grown { AreGrown boxes.old boxes.new }
    ensures room { OnOk result (HaveRoom lanes boxes.new 0 letters.now) }
{
    let count = 2 * letters.len();
    'letters: for letter in letters {
        reserve_at(boxes, lanes, count, letter.to)?;
    }
    Ok(())
}

/// The newest message, where so many messages more have this number.
pub(crate) fn newest(number: u64, letters: &[Letter], last: Option<MsgRef>) -> Option<MsgRef>
    ensures { result ≡ newest number letters.now last }
{
    match letters.first() {
        Some(letter) => Some(MsgRef {
            event: number,
            out: letter.out,
        }),
        None => last,
    }
}
