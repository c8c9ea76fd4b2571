//! What a seat knows. No value of these types is made: they stand in contracts.
use base_ids::{Actor, Items, Version};
use std::collections::LinkedList;

/// What a book is made of.
#[derive(Drop)]
pub struct About<O> {
    /// The opening of its world.
    pub opening: O,
    /// Its actors.
    pub actors: Items<Actor>,
    /// A bound of the numbers of their hosts.
    pub hosts: u64,
}

/// Where a seat is in a turn.
pub enum Stage {
    /// It waits for nothing.
    Idle,
    /// It has drawn this ticket.
    Waits(u64),
    /// This ticket is served: the seat has the journal.
    Turn(u64),
}

/// A look at a pin word of a host.
pub struct PinLook {
    /// Which of the host's eight pin words it was, from 0.
    pub word: u64,
    /// How many pins stood on it.
    pub count: u64,
}

/// What an actor knows beside the journal.
pub struct Note {
    /// Of a lane: the versions of its confirmed pins.
    pub pins: LinkedList<Version>,
    /// Of a lane: the versions of its raised pins.
    pub raised: LinkedList<Version>,
    /// Of a lane: the version that it saw published last.
    pub saw: Version,
    /// Of a host: the version that it published last.
    pub published: Version,
    /// Of a host: its looks at its pin words since then, the newest first.
    pub looks: LinkedList<PinLook>,
}

/// What one actor has done and seen, the newest entries first.
pub struct Known<O, E> {
    /// The opening of the world.
    pub opening: O,
    /// Whose it is.
    pub actor: Actor,
    /// Its own entries.
    pub own: LinkedList<E>,
    /// The history at its last turn.
    pub seen: LinkedList<E>,
    /// Its pins, or what its host published.
    pub note: Note,
}

/// The view of a seat.
pub enum View<O, E> {
    /// It was given back.
    Spent,
    /// The keeper's: the opening, the actors that have no seat yet, and what the ended ones knew.
    Keeper(O, LinkedList<Actor>, LinkedList<Known<O, E>>),
    /// An actor's.
    Working(Stage, Known<O, E>),
}
