ghost use Rattle.std.specs.Prelude.{◌≡◌, ◌≢◌, ℕ, ◌+◌, ◌-◌, ◌<◌, ◌≤◌, length, take, map, count_by, IsTrue, ◌↔◌};
ghost use Rattle.std.specs.List.{list_any};
ghost use Rattle.base_ids.specs.Replicas.{AreDistinct};
ghost use Rattle.quorum_tally.specs.Standings.{is_unmarked, is_answered, is_refused, unmarked_place, is_target, is_open, is_place_of, is_open_place, mark_in, marked_place, verdict_at};

use base_ids::{HostId, Replica, ShardId};
use std::marker::Model;

/// How a target of a request stands.
#[derive(Clone, Copy, Debug, PartialEq, Eq)]
pub enum Standing {
    /// It has said nothing yet.
    Unmarked,
    /// Its first word was an answer.
    Answered,
    /// Its first word was a refusal.
    Refused,
}

/// A target of a request, and how it stands.
#[derive(Clone, Copy, Debug, PartialEq, Eq)]
pub struct Place {
    /// The target.
    pub replica: Replica,
    /// How it stands.
    pub standing: Standing,
}

/// What an answer or a refusal came to.
#[derive(Clone, Copy, Debug, PartialEq, Eq)]
pub enum Mark {
    /// It counts: the first of its replica.
    Fresh,
    /// The replica was marked before, by either call. Nothing changed.
    Repeat,
    /// The replica is no target. Nothing changed.
    Stranger,
}

/// What the marks so far decide.
#[derive(Clone, Copy, Debug, PartialEq, Eq)]
pub enum Verdict {
    /// As many targets as needed have answered.
    Enough,
    /// So many have refused that those which are left are fewer than needed.
    Hopeless {
        /// The number of targets that have refused.
        refused: u8,
    },
    /// Neither.
    Open,
}

/// Counts the distinct targets that have answered and that have refused, of 1 to 9 targets.
#[derive(Debug, Drop)]
pub struct Tally {
    places: [Place; 9],
    count: usize,
    need: u8,
}

impl Model for Tally {
    ghost use Rattle.std.specs.Prelude.{◌≤◌, take};
    ghost use Rattle.quorum_tally.specs.Standings.{Standings};

    ghost Value = { Standings };

    ghost view = { λ t. record { places = take t.count t.places; need = t.need } };

    ghost invariant = { λ t. t.count ≤ 9 };
}

impl Tally {
    ghost use Rattle.std.specs.Prelude.{◌≡◌, ◌≢◌, ◌<◌, ◌≤◌, length, ◌↔◌};
    ghost use Rattle.base_ids.specs.Replicas.{AreDistinct};
    ghost use Rattle.quorum_tally.specs.Standings.{unmarked_standings, mark_of, marked_standings, answered_places, refused_places, hopeful_count, verdict_of};

    /// The tally of these targets, with nobody marked. Of the targets `need` have to answer.
    pub fn new(targets: &[Replica], need: u8) -> Tally
        requires some { 1 ≤ length targets.now }
        requires few { length targets.now ≤ 9 }
        requires distinct { AreDistinct targets.now }
        requires needs_one { 1 ≤ need }
        requires reachable { need ≤ length targets.now }
        ensures { result ≡ unmarked_standings targets.now need }
    {
        let nobody = Replica {
            host: HostId(0),
            shard: ShardId(0),
        };
        let mut places = [unmarked_place(nobody); 9];
        fill_places(&mut places, targets);
        Tally {
            places,
            count: targets.len(),
            need,
        }
    }

    /// Marks the replica as one that has answered, unless it is no target or was marked before.
    pub fn answer(&mut self, from: Replica) -> Mark
        ensures mark { result ≡ mark_of self.old from }
        ensures tally { self.new ≡ marked_standings self.old from Standing.Answered }
        ensures kept { result ≢ Mark.Fresh → self.new ≡ self.old }
    {
        mark_places(&mut self.places[..self.count], from, Standing::Answered)
    }

    /// Marks the replica as one that has refused, unless it is no target or was marked before.
    pub fn refuse(&mut self, from: Replica) -> Mark
        ensures mark { result ≡ mark_of self.old from }
        ensures tally { self.new ≡ marked_standings self.old from Standing.Refused }
        ensures kept { result ≢ Mark.Fresh → self.new ≡ self.old }
    {
        mark_places(&mut self.places[..self.count], from, Standing::Refused)
    }

    /// An equal tally.
    pub fn copy(&self) -> Tally
        ensures { result ≡ self.now }
    {
        Tally {
            places: self.places,
            count: self.count,
            need: self.need,
        }
    }

    /// How many targets have answered.
    pub fn answered(&self) -> u8
        ensures { result ≡ answered_places self.now }
    {
        answered_of(&self.places[..self.count])
    }

    /// How many targets have refused.
    pub fn refused(&self) -> u8
        ensures count { result ≡ refused_places self.now }
        ensures few { result ≤ length self.now.places }
    {
        refused_of(&self.places[..self.count])
    }

    /// How many answers are enough.
    pub fn need(&self) -> u8
        ensures { result ≡ self.now.need }
    {
        self.need
    }

    /// What the marks so far decide.
    pub fn verdict(&self) -> Verdict
        ensures verdict { result ≡ verdict_of self.now }
        ensures enough { (result ≡ Verdict.Enough) ↔ (self.now.need ≤ answered_places self.now) }
        ensures hopeless { (result ≡ Verdict.Hopeless (refused_places self.now)) ↔
            (hopeful_count self.now < self.now.need) }
        ensures exclusive { self.now.need ≤ answered_places self.now → self.now.need ≤ hopeful_count self.now }
    {
        verdict_at(self.answered(), self.refused(), self.targets(), self.need())
    }

    /// How many targets there are.
    pub fn targets(&self) -> u8
        ensures { result ≡ length self.now.places }
    {
        self.places[..self.count].len() as u8
    }
}

/// What these numbers decide.
fn verdict_at(answered: u8, refused: u8, targets: u8, need: u8) -> Verdict
    requires { answered + refused ≤ targets }
    ensures verdict { result ≡ verdict_at answered refused targets need }
    ensures enough { (result ≡ Verdict.Enough) ↔ (need ≤ answered) }
    ensures hopeless { (result ≡ Verdict.Hopeless refused) ↔ (targets - refused < need) }
    ensures exclusive { need ≤ answered → need ≤ targets - refused }
{
    if answered >= need {
        Verdict::Enough
    } else if targets - refused < need {
        Verdict::Hopeless { refused }
    } else {
        Verdict::Open
    }
}

/// The place of a target that has said nothing.
fn unmarked_place(replica: Replica) -> Place
    ensures { result ≡ unmarked_place replica }
{
    Place {
        replica,
        standing: Standing::Unmarked,
    }
}

/// Fills the front of the places with the targets.
fn fill_places(places: &mut [Place], targets: &[Replica])
    requires room { length targets.now ≤ length places.old }
    ensures { take (length targets.now) places.new ≡ map unmarked_place targets.now }
{
    for i in 0..targets.len() {
        places[i] = unmarked_place(targets[i]);
    }
}

fn is_place_of(from: Replica, place: &Place) -> bool
    ensures { result ≡ is_place_of from place.now }
{
    place.replica == from
}

fn is_open_place(from: Replica, place: &Place) -> bool
    ensures { result ≡ is_open_place from place.now }
{
    is_place_of(from, place) && matches!(place.standing, Standing::Unmarked)
}

/// The place after a word of a replica.
fn marked_place(from: Replica, standing: Standing, place: Place) -> Place
    ensures { result ≡ marked_place from standing place }
{
    if is_open_place(from, &place) {
        Place {
            replica: place.replica,
            standing,
        }
    } else {
        place
    }
}

/// What a word of this replica comes to.
fn mark_in(places: &[Place], from: Replica) -> Mark
    ensures { result ≡ mark_in places.now from }
{
    if !is_target(places, from) {
        Mark::Stranger
    } else if is_open(places, from) {
        Mark::Fresh
    } else {
        Mark::Repeat
    }
}

fn is_target(places: &[Place], from: Replica) -> bool
    ensures { result ≡ is_target places.now from }
{
    places.iter().any(|place| is_place_of(from, place))
}

fn is_open(places: &[Place], from: Replica) -> bool
    ensures { result ≡ is_open places.now from }
{
    places.iter().any(|place| is_open_place(from, place))
}

/// Marks one replica in the places, and says what that came to.
fn mark_places(places: &mut [Place], from: Replica, standing: Standing) -> Mark
    ensures mark { result ≡ mark_in places.old from }
    ensures places { places.new ≡ map (marked_place from standing) places.old }
    ensures kept { result ≢ Mark.Fresh → places.new ≡ places.old }
{
    let mark = mark_in(places, from);
    mark_all(places, from, standing);
    mark
}

fn mark_all(places: &mut [Place], from: Replica, standing: Standing)
    ensures { places.new ≡ map (marked_place from standing) places.old }
{
    for i in 0..places.len() {
        places[i] = marked_place(from, standing, places[i]);
    }
}

fn answered_of(places: &[Place]) -> u8
    requires { length places.now ≤ 9 }
    ensures count { result ≡ count_by (λ place. is_answered place.standing) places.now }
{
    places
        .iter()
        .filter(|place| matches!(place.standing, Standing::Answered))
        .count() as u8
}

fn refused_of(places: &[Place]) -> u8
    requires { length places.now ≤ 9 }
    ensures count { result ≡ count_by (λ place. is_refused place.standing) places.now }
    ensures few { result ≤ length places.now }
{
    places
        .iter()
        .filter(|place| matches!(place.standing, Standing::Refused))
        .count() as u8
}
