//! The parts of a new book.
ghost use Rattle.std.specs.Prelude.{◌≡◌, ◌<◌, ◌≤◌, ◌+◌, ◌*◌, ◌++◌, ◌∷◌, [], ℕ, length, IfOk, OnOk, vec_len};
ghost use Rattle.std.specs.Vec.{vec_capacity};
ghost use Rattle.base_ids.specs.declared.ids.Actor.TheVariants.{Lane as ByLane};
ghost use Rattle.base_ids.specs.declared.ids.LaneId.{LaneId};
ghost use Rattle.book_rule.specs.Notes.{first_words, host_of, hosts_of};
ghost use Rattle.book_rule.specs.Turns.{IsBook};
ghost use Rattle.book_rule.specs.Seats.{IsFree, IsKeeper, fresh_seats, known_in};
ghost use Rattle.book_rule.specs.declared.view.View.TheVariants.{Keeper};

use crate::journal::Journal;
use crate::plays::{BookTable, Hand, TableSeat, Words};
use crate::seat::Seat;
use atomic_table::Table;
use base_ids::{Actor, HostId, LaneId, NoMemory};
use book_rule::{About, World};
use std::alloc::Global;

/// The host that an actor is on.
pub(crate) fn host_of(actor: Actor) -> HostId
    ensures { result ≡ host_of actor }
{
    match actor {
        Actor::Host(host) | Actor::Topo(host) => host,
        Actor::Lane(lane) => lane.host,
    }
}

/// The lane that an actor is.
pub(crate) fn lane_of(actor: Actor) -> LaneId
    requires { (lane : LaneId) × (actor ≡ ByLane lane) }
    ensures { actor ≡ ByLane result }
{
    match actor {
        Actor::Lane(lane) => lane,
        Actor::Host(_) | Actor::Topo(_) => unreachable!(),
    }
}

/// The least bound of the numbers of the actors' hosts.
pub(crate) fn hosts_of(actors: &[Actor]) -> u64
    ensures bound { result ≡ hosts_of actors.now }
    ensures most { result ≤ 65536 }
{
    let mut hosts: u64 = 0;
    let mut i = actors.len();
    while i > 0 {
        i -= 1;
        let HostId(number) = host_of(actors[i]);
        hosts = (number as u64 + 1).max(hosts);
    }
    hosts
}

/// The words of one host more, which has published version 1 and has no pins.
fn add_host(words: &mut Vec<u64>) -> Result<(), NoMemory>
    ensures { OnOk result (words.new.items ≡ words.old.items ++ 1 ∷ 0 ∷ 0 ∷ 0 ∷ 0 ∷ 0 ∷ 0 ∷ 0 ∷ 0 ∷ []) }
{
    words.extend_from_slice(&[1, 0, 0, 0, 0, 0, 0, 0, 0])?;
    Ok(())
}

/// The words of a new table.
pub(crate) fn words_of(alloc: Global, hosts: u64) -> Result<Vec<u64>, NoMemory>
    ensures { IfOk result (λ words. words.items ≡ first_words hosts) }
{
    let mut words: Vec<u64> = Vec::new(alloc);
    words.extend_from_slice(&[0, 0])?;
    for _ in 0..hosts {
        add_host(&mut words)?;
    }
    Ok(words)
}

/// The seat of an actor, who has done and seen nothing.
fn seat_of<W: World>(inner: TableSeat<W>, actor: Actor) -> Seat<W>
    requires free { IsFree W.meaning inner.me }
    requires actor { (known_in W.meaning inner.me).actor ≡ actor }
    requires words { 11 + 9 * (host_of actor).0 ≤ inner.table_id.words }
    ensures { (result.table ≡ inner.table_id) × (result.known ≡ known_in W.meaning inner.me) }
{
    Seat { inner, actor }
}

/// Seats for the actors, in order.
pub(crate) fn hand_out<W: World>(
    table: &Words<W>,
    keeper: &mut TableSeat<W>,
    actors: &[Actor],
    alloc: Global,
) -> Result<Vec<Seat<W>>, NoMemory>
    requires words { table.now.table_id.words ≡ 2 + 9 * hosts_of actors.now }
    requires keeper { (keeper.old.table_id ≡ table.now.table_id) ×
        (keeper.old.me ≡ (Keeper table.now.key.opening actors.now [], [])) }
    ensures keeper { OnOk result
        ((keeper.new.table_id ≡ keeper.old.table_id) ×
        (keeper.new.me ≡ (Keeper table.now.key.opening [] [], []))) }
    ensures seats { let fresh = fresh_seats table.now.table_id table.now.key.opening actors.now in
        IfOk result (λ seats. seats.items ≡ fresh) }
    ensures room { IfOk result (λ seats. length actors.now ≤ vec_capacity seats) }
{
    let mut seats: Vec<Seat<W>> = Vec::with_capacity(alloc, actors.len())?;
    for i in 0..actors.len() {
        let inner = table.split_seat::<Hand<W>>(keeper);
        seats.push(seat_of(inner, actors[i]))?;
    }
    Ok(seats)
}

/// The table of a book, and the keeper's seat.
pub(crate) fn table_of<W: World>(
    alloc: Global,
    world: W,
    about: &About<W::Opening>,
) -> Result<(BookTable<W>, TableSeat<W>), NoMemory>
    requires book { IsBook W.meaning about.now }
    requires opening { W.meaning.opening world ≡ about.now.opening }
    requires log { W.meaning.commands world ≡ [] }
    ensures shape { IfOk result
        (λ made.
        (made.0.shared.table_id.words ≡ 2 + 9 * about.now.hosts) × (made.0.shared.table_id.slots ≡ 1) ×
        (made.0.shared.key ≡ about.now)) }
    ensures keeper { IfOk result
        (λ made.
        (made.1.table_id ≡ made.0.shared.table_id) ×
        (made.1.me ≡ (Keeper about.now.opening about.now.actors [], []))) }
{
    let words = words_of(alloc, about.hosts)?;
    let mut journals: Vec<Journal<W>> = Vec::new(alloc);
    if journals.push(Journal::new(alloc, world)).is_err() {
        return Err(NoMemory);
    }
    match Table::new(alloc, words.as_slice(), journals, about) {
        Ok(made) => Ok(made),
        Err(_refused) => Err(NoMemory),
    }
}
