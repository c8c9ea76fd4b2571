//! A worker's outboxes, one for each mailbox, and the storm's draws.
ghost use Rattle.std.specs.Prelude.{◌≡◌, ◌≤◌, ◌<◌, ◌+◌, ◌*◌, ◌++◌, ◌∷◌, [], ℕ, All, IfOk, List, length, slice_index_or};
ghost use Rattle.base_ids.specs.Names.{same_actor};
ghost use Rattle.base_ids.specs.declared.ids.Actor.{Actor};
ghost use Rattle.cluster_history.specs.declared.data.Output.{Output};
ghost use Rattle.plan_facts.specs.Posts.{Post, copies_after};
ghost use Rattle.engine_desk.specs.Offices.{ArePlaced, ArePosted, AreDrawn, HasRoom, HaveRoom, IsOffice, box_place, letters_of, post_of, with_letters};
ghost use Rattle.engine_desk.specs.declared.office.Letter.{Letter};

use crate::mail::Mail;
use crate::outbox::Outbox;
use base_ids::{Actor, MsgRef, NoMemory};
use cluster_history::{Message, Output};
use rand_core::utils::NextWord;
use rand_pcg::Lcg64Xsh32;
use run_plan::Storm;
use std::alloc::Global;

/// A message of an entry, by the number of its output and by who may take it.
#[derive(Debug, Clone, Copy)]
pub struct Letter {
    /// The number of the output.
    pub out: u32,
    /// Who may take it.
    pub to: Actor,
}

/// Where an actor's box stands.
fn box_place(lanes: u8, actor: Actor) -> usize
    ensures { result ≡ box_place lanes actor }
{
    let width = lanes as usize + 2;
    match actor {
        Actor::Host(host) => host.0 as usize * width,
        Actor::Topo(host) => host.0 as usize * width + 1,
        Actor::Lane(lane) => lane.host.0 as usize * width + 2 + lane.lane as usize,
    }
}

/// How often the next message is put, by two draws.
fn next_copies(storm: Option<Storm>, draws: &mut Lcg64Xsh32) -> usize
    ensures few { result ≤ 2 }
    ensures drawn { (worker : ℕ) (posts : List Post) (post : Post) → AreDrawn storm worker draws.old posts
        → AreDrawn storm worker draws.new (post ∷ posts) }
    ensures copies { (worker : ℕ) (posts : List Post) → AreDrawn storm worker draws.old posts
        → result ≡ copies_after storm worker posts }
{
    match storm {
        None => 1,
        Some(storm) => {
            let first = draws.next_word() % 100;
            let second = draws.next_word() % 100;
            if first < storm.lose as u32 {
                0
            } else if second < storm.repeat as u32 {
                2
            } else {
                1
            }
        }
    }
}

fn is_same_actor(a: Actor, b: Actor) -> bool
    ensures { result ≡ same_actor a b }
{
    a == b
}

/// Lets a message wait so often in the box of its addressee, for which there is room.
fn post_copies<M: Mail>(boxes: &mut [Outbox<M>], lanes: u8, copies: usize, at: MsgRef, to: Actor)
    requires few { copies ≤ 2 }
    requires placed { ArePlaced lanes boxes.old }
    requires room { HasRoom lanes boxes.old 2 to }
    ensures { ArePosted copies at to boxes.old boxes.new }
{
    let place = box_place(lanes, to);
    if place < boxes.len() {
        if is_same_actor(to, boxes[place].to()) {
            boxes[place].add_copies(at, copies);
        }
    }
}

/// Lets the messages of an entry wait, each as often as the storm draws, in the boxes of their addressees.
pub fn post_letters<M: Mail>(
    boxes: &mut [Outbox<M>],
    draws: &mut Lcg64Xsh32,
    storm: Option<Storm>,
    lanes: u8,
    number: u64,
    letters: &[Letter],
)
    requires placed { ArePlaced lanes boxes.old }
    requires room { HaveRoom lanes boxes.old 0 letters.now }
    ensures placed { ArePlaced lanes boxes.new }
    ensures posted { (worker : ℕ) (by : Actor) (posts : List Post) → IsOffice storm worker draws.old boxes.old posts
        → IsOffice storm worker draws.new boxes.new (with_letters by number letters.now posts) }
{
    'posting: for letter in letters {
        let copies = next_copies(storm, draws);
        let at = MsgRef {
            event: number,
            out: letter.out,
        };
        post_copies(boxes, lanes, copies, at, letter.to);
    }
}
