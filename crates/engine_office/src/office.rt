//! A worker's office.
ghost use Rattle.std.specs.Prelude.{◌≡◌, ◌*◌, ◌^◌, ◌<◌, IfOk, OnOk, List, None, length, ℕ};
ghost use Rattle.base_ids.specs.declared.ids.Actor.{Actor};
ghost use Rattle.plan_facts.specs.Own.{taken_ref};
ghost use Rattle.plan_facts.specs.Posts.{Post};
ghost use Rattle.engine_desk.specs.Chairs.{IsRun, MayCommit};
ghost use Rattle.engine_desk.specs.Desks.{DeskTurned, IsDeskCommit};
ghost use Rattle.engine_desk.specs.Offices.{ArePlaced, HaveRoom, IsOffice, with_letters};
ghost use Rattle.engine_office.specs.Sendings.{AreGrown, HasCaughtUp, SendsOn};

use crate::letters::{letters_of, make_room, newest};
use base_ids::{MsgRef, NoMemory};
use cluster_history::Entry;
use engine_desk::{Chair, Desk, Letter, Mail, Outbox, Refused, post_letters};
use rand_pcg::Lcg64Xsh32;
use run_plan::Storm;
use std::alloc::Global;
use std::marker::Model;
use std::sync::Wait;

/// The outboxes of a worker, what its storm draws, and the newest message of its actors.
#[derive(Drop)]
pub struct Office<M: Mail> {
    worker: u64,
    storm: Option<Storm>,
    lanes: u8,
    draws: Lcg64Xsh32,
    boxes: Vec<Outbox<M>>,
    last: Option<MsgRef>,
}

impl<M: Mail> Model for Office<M> {
    ghost use Rattle.engine_desk.specs.Offices.{ArePlaced};
    ghost use Rattle.engine_office.specs.Sendings.{OfficeView};

    ghost Value = { OfficeView };

    ghost view = { λ o. record {
      worker = o.worker;
      storm = o.storm;
      lanes = o.lanes;
      draws = o.draws;
      boxes = o.boxes.items;
      last = o.last;
    } };

    ghost invariant = { λ o. ArePlaced o.lanes o.boxes.items };
}

/// Makes room for two copies of each message in the box of its addressee.
fn room_for<M: Mail>(
    boxes: &mut Vec<Outbox<M>>,
    lanes: u8,
    letters: &[Letter],
) -> Result<(), NoMemory>
    requires few { 2 * length letters.now < 2 ^ 64 }
    ensures grown { AreGrown boxes.old.items boxes.new.items }
    ensures room { OnOk result (HaveRoom lanes boxes.new.items 0 letters.now) }
{
    make_room(boxes.as_mut_slice(), lanes, letters)
}

/// Lets the messages of an entry wait, each as often as the storm draws, in the boxes of their addressees.
fn post_all<M: Mail>(
    boxes: &mut Vec<Outbox<M>>,
    draws: &mut Lcg64Xsh32,
    storm: Option<Storm>,
    lanes: u8,
    number: u64,
    letters: &[Letter],
)
    requires placed { ArePlaced lanes boxes.old.items }
    requires room { HaveRoom lanes boxes.old.items 0 letters.now }
    ensures placed { ArePlaced lanes boxes.new.items }
    ensures posted { (worker : ℕ) (by : Actor) (posts : List Post)
        → IsOffice storm worker draws.old boxes.old.items posts
        → IsOffice storm worker draws.new boxes.new.items (with_letters by number letters.now posts) }
{
    post_letters(boxes.as_mut_slice(), draws, storm, lanes, number, letters);
}

impl<M: Mail> Office<M> {
    /// The actor sees as far as the newest message of the worker's actors: it waits until it does.
    pub fn catch_up<C: Chair, R: Wait>(
        &self,
        rt: &R,
        alloc: Global,
        desk: &mut Desk<C, M>,
    ) -> Result<(), NoMemory>
        requires { IsRun desk.old.known.opening desk.old.known.seen }
        ensures turned { DeskTurned desk.old desk.new }
        ensures caught { OnOk result (HasCaughtUp self.now desk.new.known) }
    {
        if let Some(at) = self.last {
            desk.wait_for(rt, alloc, at)?;
        }
        Ok(())
    }

    /// Adds an entry of an actor that has caught up, gives its number, and lets its messages wait. Once the entry is
    /// there nothing is refused.
    pub fn commit<C: Chair, R: Wait>(
        &mut self,
        rt: &R,
        alloc: Global,
        desk: &mut Desk<C, M>,
        entry: Entry,
    ) -> Result<u64, Refused>
        requires may { MayCommit desk.old.known entry }
        requires held { desk.old.held ≡ taken_ref entry.event }
        requires run { IsRun desk.old.known.opening desk.old.known.seen }
        requires caught { HasCaughtUp self.old desk.old.known }
        ensures committed { IsDeskCommit desk.old entry result desk.new }
        ensures sends { SendsOn desk.old.known desk.new.known self.old self.new }
        ensures caught { HasCaughtUp self.new desk.new.known }
    {
        let letters = letters_of(alloc, entry.outputs.as_slice())?;
        room_for(&mut self.boxes, self.lanes, letters.as_slice())?;
        let number = desk.commit(rt, entry)?;
        post_all(
            &mut self.boxes,
            &mut self.draws,
            self.storm,
            self.lanes,
            number,
            letters.as_slice(),
        );
        self.last = newest(number, letters.as_slice(), self.last);
        Ok(number)
    }
}
