//! The steps beside the turns, over a seat of the table. Word 2 + 9h of the table is the version word of the host h,
//! and its eight pin words stand behind it.
ghost use Rattle.std.specs.Prelude.{◌≡◌, ◌≢◌, ◌<◌, ◌≤◌, ◌+◌, ◌*◌, ◌%◌, length};
ghost use Rattle.base_ids.specs.declared.ids.Actor.TheVariants.{Host as ByHost, Lane as ByLane};
ghost use Rattle.book_rule.specs.Notes.{SawEmpty, count_of, pin_word, version_word};
ghost use Rattle.book_rule.specs.Pins.{saw_version, with_confirmed, with_look, with_published, with_raised, without_pin, without_raised};
ghost use Rattle.book_rule.specs.Seats.{HasNoted, IsFree, known_in};

use crate::plays::{
    Chosen, Confirm, LookAtPins, LowerPin, LowerRaised, Publish, Raise, See, TableSeat, Words,
};
use base_ids::{HostId, LaneId, Version};
use book_rule::World;

/// The place of a host's version word.
fn version_word(host: HostId) -> usize
    ensures { result ≡ version_word host.0 }
{
    2 + 9 * host.0 as usize
}

/// The place of the pin word of a version.
fn pin_word(host: HostId, version: Version) -> usize
    ensures { result ≡ pin_word host.0 (version.0 % 8) }
{
    3 + 9 * host.0 as usize + (version.0 % 8) as usize
}

/// A lane looks at its host's version word.
pub(crate) fn see<W: World>(table: &Words<W>, seat: &mut TableSeat<W>, lane: LaneId) -> u64
    requires words { 11 + 9 * lane.host.0 ≤ table.now.table_id.words }
    requires seat { seat.old.table_id ≡ table.now.table_id }
    requires free { IsFree W.meaning seat.old.me }
    requires lane { (known_in W.meaning seat.old.me).actor ≡ ByLane lane }
    ensures same { (seat.new.table_id ≡ seat.old.table_id) × (seat.new.id ≡ seat.old.id) }
    ensures told { HasNoted W.meaning (saw_version result) seat.old.me seat.new.me }
{
    table.load::<See<W>>(seat, version_word(lane.host))
}

/// A lane raises a pin at the version that it saw.
pub(crate) fn raise_at<W: World>(
    table: &Words<W>,
    seat: &mut TableSeat<W>,
    lane: LaneId,
    version: Version,
)
    requires words { 11 + 9 * lane.host.0 ≤ table.now.table_id.words }
    requires seat { seat.old.table_id ≡ table.now.table_id }
    requires free { IsFree W.meaning seat.old.me }
    requires lane { (known_in W.meaning seat.old.me).actor ≡ ByLane lane }
    requires version { (known_in W.meaning seat.old.me).note.saw ≡ version }
    requires room { let note = (known_in W.meaning seat.old.me).note in length note.pins + length note.raised < 8 }
    ensures same { (seat.new.table_id ≡ seat.old.table_id) × (seat.new.id ≡ seat.old.id) }
    ensures told { HasNoted W.meaning with_raised seat.old.me seat.new.me }
{
    table.fetch_add::<Raise<W>>(seat, pin_word(lane.host, version), 1);
}

/// A lane looks again at its host's version word, for a pin that it raised at this version.
pub(crate) fn see_again<W: World, K: Chosen>(
    table: &Words<W>,
    seat: &mut TableSeat<W>,
    lane: LaneId,
    version: Version,
) -> u64
    requires words { 11 + 9 * lane.host.0 ≤ table.now.table_id.words }
    requires seat { seat.old.table_id ≡ table.now.table_id }
    requires free { IsFree W.meaning seat.old.me }
    requires lane { (known_in W.meaning seat.old.me).actor ≡ ByLane lane }
    requires raised { 0 < count_of version (known_in W.meaning seat.old.me).note.raised }
    requires chosen { K.chosen ≡ version }
    ensures same { (seat.new.table_id ≡ seat.old.table_id) × (seat.new.id ≡ seat.old.id) }
    ensures found { result ≡ version.0 → HasNoted W.meaning (with_confirmed version) seat.old.me seat.new.me }
    ensures moved { result ≢ version.0 → HasNoted W.meaning (saw_version result) seat.old.me seat.new.me }
{
    table.load::<Confirm<W, K>>(seat, version_word(lane.host))
}

/// A lane lowers a pin that it raised at this version.
pub(crate) fn lower_raised<W: World, K: Chosen>(
    table: &Words<W>,
    seat: &mut TableSeat<W>,
    lane: LaneId,
    version: Version,
)
    requires words { 11 + 9 * lane.host.0 ≤ table.now.table_id.words }
    requires seat { seat.old.table_id ≡ table.now.table_id }
    requires free { IsFree W.meaning seat.old.me }
    requires lane { (known_in W.meaning seat.old.me).actor ≡ ByLane lane }
    requires raised { 0 < count_of version (known_in W.meaning seat.old.me).note.raised }
    requires chosen { K.chosen ≡ version }
    ensures same { (seat.new.table_id ≡ seat.old.table_id) × (seat.new.id ≡ seat.old.id) }
    ensures told { HasNoted W.meaning (without_raised version) seat.old.me seat.new.me }
{
    table.fetch_sub::<LowerRaised<W, K>>(seat, pin_word(lane.host, version), 1);
}

/// A lane lowers a confirmed pin that no live request needs.
pub(crate) fn lower_pin<W: World, K: Chosen>(
    table: &Words<W>,
    seat: &mut TableSeat<W>,
    lane: LaneId,
    version: Version,
)
    requires words { 11 + 9 * lane.host.0 ≤ table.now.table_id.words }
    requires seat { seat.old.table_id ≡ table.now.table_id }
    requires free { IsFree W.meaning seat.old.me }
    requires lane { (known_in W.meaning seat.old.me).actor ≡ ByLane lane }
    requires spare { let old = known_in W.meaning seat.old.me in
        W.meaning.live old.opening old.seen lane version < count_of version old.note.pins }
    requires chosen { K.chosen ≡ version }
    ensures same { (seat.new.table_id ≡ seat.old.table_id) × (seat.new.id ≡ seat.old.id) }
    ensures told { HasNoted W.meaning (without_pin version) seat.old.me seat.new.me }
{
    table.fetch_sub::<LowerPin<W, K>>(seat, pin_word(lane.host, version), 1);
}

/// A host looks at the pin word of a version.
pub(crate) fn look_pins<W: World>(
    table: &Words<W>,
    seat: &mut TableSeat<W>,
    host: HostId,
    version: Version,
) -> u64
    requires words { 11 + 9 * host.0 ≤ table.now.table_id.words }
    requires seat { seat.old.table_id ≡ table.now.table_id }
    requires free { IsFree W.meaning seat.old.me }
    requires host { (known_in W.meaning seat.old.me).actor ≡ ByHost host }
    ensures same { (seat.new.table_id ≡ seat.old.table_id) × (seat.new.id ≡ seat.old.id) }
    ensures told { HasNoted W.meaning (with_look (version.0 % 8) result) seat.old.me seat.new.me }
{
    table.load::<LookAtPins<W>>(seat, pin_word(host, version))
}

/// A host publishes the next version, whose pin word it has seen empty.
pub(crate) fn publish_next<W: World>(
    table: &Words<W>,
    seat: &mut TableSeat<W>,
    host: HostId,
    version: Version,
)
    requires words { 11 + 9 * host.0 ≤ table.now.table_id.words }
    requires seat { seat.old.table_id ≡ table.now.table_id }
    requires free { IsFree W.meaning seat.old.me }
    requires host { (known_in W.meaning seat.old.me).actor ≡ ByHost host }
    requires next { version.0 ≡ (known_in W.meaning seat.old.me).note.published.0 + 1 }
    requires empty { SawEmpty (known_in W.meaning seat.old.me).note.looks (version.0 % 8) }
    requires reached { let old = known_in W.meaning seat.old.me in
        version.0 ≤ (W.meaning.version old.opening old.seen host).0 }
    ensures same { (seat.new.table_id ≡ seat.old.table_id) × (seat.new.id ≡ seat.old.id) }
    ensures told { HasNoted W.meaning (with_published version.0) seat.old.me seat.new.me }
{
    table.store::<Publish<W>>(seat, version_word(host), version.0);
}
