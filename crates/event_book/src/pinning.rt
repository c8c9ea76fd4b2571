//! Pins and published versions, over a seat of the table.
ghost use Rattle.std.specs.Prelude.{◌≡◌, ◌<◌, ◌≤◌, ◌+◌, ◌*◌, false, length, true};
ghost use Rattle.base_ids.specs.declared.ids.Actor.TheVariants.{Host as ByHost, Lane as ByLane};
ghost use Rattle.book_rule.specs.Notes.{IsBusy, IsIdle, count_of};
ghost use Rattle.book_rule.specs.Pins.{HasLooked, IsConfirmed, IsIdleTo, IsPublished, saw_version, with_raised};
ghost use Rattle.book_rule.specs.Seats.{HasNoted, IsFree, known_in};

use crate::pins::{look_pins, lower_raised, publish_next, raise_at, see, see_again};
use crate::plays::{TableSeat, Words};
use base_ids::{HostId, LaneId, Version};
use book_rule::{Pin, Published, Raised, World};
use std::marker::Brand;

/// A lane looks at its host's version, and raises a pin there.
pub(crate) fn raise_pin<W: World>(table: &Words<W>, seat: &mut TableSeat<W>, lane: LaneId) -> Raised
    requires words { 11 + 9 * lane.host.0 ≤ table.now.table_id.words }
    requires seat { seat.old.table_id ≡ table.now.table_id }
    requires free { IsFree W.meaning seat.old.me }
    requires lane { (known_in W.meaning seat.old.me).actor ≡ ByLane lane }
    requires room { let note = (known_in W.meaning seat.old.me).note in length note.pins + length note.raised < 8 }
    ensures same { (seat.new.table_id ≡ seat.old.table_id) × (seat.new.id ≡ seat.old.id) }
    ensures told { HasNoted W.meaning (λ note. with_raised (saw_version result.saw.0 note)) seat.old.me seat.new.me }
{
    let found = see(table, seat, lane);
    let saw = Version(found);
    raise_at(table, seat, lane, saw);
    Raised { saw }
}

/// A lane looks again, and confirms a pin that it raised at this version, or lowers it.
pub(crate) fn confirm_pin<W: World>(
    table: &Words<W>,
    seat: &mut TableSeat<W>,
    lane: LaneId,
    saw: Version,
) -> Pin
    requires words { 11 + 9 * lane.host.0 ≤ table.now.table_id.words }
    requires seat { seat.old.table_id ≡ table.now.table_id }
    requires free { IsFree W.meaning seat.old.me }
    requires lane { (known_in W.meaning seat.old.me).actor ≡ ByLane lane }
    requires raised { 0 < count_of saw (known_in W.meaning seat.old.me).note.raised }
    ensures same { (seat.new.table_id ≡ seat.old.table_id) × (seat.new.id ≡ seat.old.id) }
    ensures free { IsFree W.meaning seat.new.me }
    ensures told { IsConfirmed (known_in W.meaning seat.old.me) (known_in W.meaning seat.new.me) saw result }
{
    let now = see_again::<W, Brand>(table, seat, lane, saw);
    if now == saw.0 {
        return Pin::Pinned(saw);
    }
    lower_raised::<W, Brand>(table, seat, lane, saw);
    Pin::Moved {
        saw,
        now: Version(now),
    }
}

/// A host publishes the next version, unless a pin stands on its word.
pub(crate) fn publish_version<W: World>(
    table: &Words<W>,
    seat: &mut TableSeat<W>,
    host: HostId,
    version: Version,
) -> Published
    requires words { 11 + 9 * host.0 ≤ table.now.table_id.words }
    requires seat { seat.old.table_id ≡ table.now.table_id }
    requires free { IsFree W.meaning seat.old.me }
    requires host { (known_in W.meaning seat.old.me).actor ≡ ByHost host }
    requires next { version.0 ≡ (known_in W.meaning seat.old.me).note.published.0 + 1 }
    requires reached { let old = known_in W.meaning seat.old.me in
        version.0 ≤ (W.meaning.version old.opening old.seen host).0 }
    ensures same { (seat.new.table_id ≡ seat.old.table_id) × (seat.new.id ≡ seat.old.id) }
    ensures free { IsFree W.meaning seat.new.me }
    ensures told { IsPublished (known_in W.meaning seat.old.me) (known_in W.meaning seat.new.me) version result }
{
    let count = look_pins(table, seat, host, version);
    if count != 0 {
        return Published::SlotPinned { count };
    }
    publish_next(table, seat, host, version);
    Published::Published
}

/// Whether the pin word of the version so many before is seen empty, if there is that version.
fn is_idle_back<W: World>(
    table: &Words<W>,
    seat: &mut TableSeat<W>,
    host: HostId,
    version: Version,
    back: u64,
) -> bool
    requires words { 11 + 9 * host.0 ≤ table.now.table_id.words }
    requires seat { seat.old.table_id ≡ table.now.table_id }
    requires free { IsFree W.meaning seat.old.me }
    requires host { (known_in W.meaning seat.old.me).actor ≡ ByHost host }
    requires seven { (0 < back) × (back < 8) }
    ensures same { (seat.new.table_id ≡ seat.old.table_id) × (seat.new.id ≡ seat.old.id) }
    ensures free { IsFree W.meaning seat.new.me }
    ensures told { HasLooked (known_in W.meaning seat.old.me) (known_in W.meaning seat.new.me) }
    ensures idle { result ≡ true →
        IsIdleTo (known_in W.meaning seat.old.me).note version back →
        IsIdleTo (known_in W.meaning seat.new.me).note version (back + 1) }
    ensures busy { result ≡ false → IsBusy (known_in W.meaning seat.new.me).note version }
{
    if version.0 <= back {
        return true;
    }
    let found = look_pins(table, seat, host, Version(version.0 - back));
    found == 0
}

/// Whether a host sees that no older version than the published one is pinned.
pub(crate) fn is_idle<W: World>(
    table: &Words<W>,
    seat: &mut TableSeat<W>,
    host: HostId,
    version: Version,
) -> bool
    requires words { 11 + 9 * host.0 ≤ table.now.table_id.words }
    requires seat { seat.old.table_id ≡ table.now.table_id }
    requires free { IsFree W.meaning seat.old.me }
    requires host { (known_in W.meaning seat.old.me).actor ≡ ByHost host }
    requires published { (known_in W.meaning seat.old.me).note.published ≡ version }
    ensures same { (seat.new.table_id ≡ seat.old.table_id) × (seat.new.id ≡ seat.old.id) }
    ensures free { IsFree W.meaning seat.new.me }
    ensures told { HasLooked (known_in W.meaning seat.old.me) (known_in W.meaning seat.new.me) }
    ensures idle { result ≡ true → IsIdle (known_in W.meaning seat.new.me).note version }
    ensures busy { result ≡ false → IsBusy (known_in W.meaning seat.new.me).note version }
{
    let mut back: u64 = 1;
    while back < 8 {
        if !is_idle_back(table, seat, host, version, back) {
            return false;
        }
        back += 1;
    }
    true
}
