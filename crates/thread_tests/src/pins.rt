//! Calls of a host and of one of its lanes. What they leave of a seat is said as far as the next call asks for it.
ghost use Rattle.std.specs.Prelude.{◌≡◌, ◌<◌, ◌≤◌, ◌+◌, ◌∷◌, [], List, IfNone, IfSome, length, true};
ghost use Rattle.base_ids.specs.declared.ids.Version.{Version};
ghost use Rattle.book_rule.specs.Notes.{IsIdle};
ghost use Rattle.thread_tests.specs.Diary.{version};
ghost use Rattle.thread_tests.specs.Scenes.{IsHost, IsLane, the_host};

use crate::diary::{Diary, Line};
use base_ids::{HostId, Version};
use book_rule::{Pin, Published};
use event_book::{Book, Seat};
use std::sync::Wait;

/// The lane pins a version. `None` where its host has published another one meanwhile.
pub fn pin(book: &Book<Diary>, lane: &mut Seat<Diary>) -> Option<Version>
    requires table { lane.old.table ≡ book.now.table }
    requires lane { IsLane lane.old.known }
    requires room { length lane.old.known.note.pins < 8 }
    ensures table { lane.new.table ≡ lane.old.table }
    ensures lane { IsLane lane.new.known }
    ensures pins { IfSome result (λ pinned. lane.new.known.note.pins ≡ pinned ∷ lane.old.known.note.pins) }
{
    match book.pin(lane) {
        Pin::Pinned(version) => Some(version),
        Pin::Moved { .. } => None,
    }
}

/// The host publishes a version while the lane pins one. What the lane saw before and after, where that moved.
pub fn meet(
    book: &Book<Diary>,
    host: &mut Seat<Diary>,
    lane: &mut Seat<Diary>,
    next: Version,
) -> Option<(Version, Version)>
    requires tables { (host.old.table ≡ book.now.table) × (lane.old.table ≡ book.now.table) }
    requires host { IsHost host.old.known }
    requires lane { IsLane lane.old.known }
    requires room { length lane.old.known.note.pins < 8 }
    requires next { next.0 ≡ host.old.known.note.published.0 + 1 }
    requires reached { next.0 ≤ (version host.old.known.seen the_host).0 }
    ensures tables { (host.new.table ≡ host.old.table) × (lane.new.table ≡ lane.old.table) }
    ensures host { IsHost host.new.known × (host.new.known.seen ≡ host.old.known.seen) }
    ensures lane { IsLane lane.new.known }
    ensures published { IfSome result (λ _. host.new.known.note.published ≡ next) }
    ensures pins { IfSome result (λ _. lane.new.known.note.pins ≡ lane.old.known.note.pins) }
{
    let raised = book.raise(lane);
    let refused = publish(book, host, next);
    let pin = book.confirm(lane, raised);
    if refused.is_some() {
        return None;
    }
    match pin {
        Pin::Pinned(_) => None,
        Pin::Moved { saw, now } => Some((saw, now)),
    }
}

/// The host publishes a version, or tells how many pins it saw on the version's word.
pub fn publish(book: &Book<Diary>, host: &mut Seat<Diary>, next: Version) -> Option<u64>
    requires table { host.old.table ≡ book.now.table }
    requires host { IsHost host.old.known }
    requires next { next.0 ≡ host.old.known.note.published.0 + 1 }
    requires reached { next.0 ≤ (version host.old.known.seen the_host).0 }
    ensures table { host.new.table ≡ host.old.table }
    ensures host { IsHost host.new.known × (host.new.known.seen ≡ host.old.known.seen) }
    ensures published { IfNone result (host.new.known.note.published ≡ next) }
    ensures pinned { IfSome result (λ _. host.new.known.note.published ≡ host.old.known.note.published) }
{
    match book.publish(host, next) {
        Published::Published => None,
        Published::SlotPinned { count } => Some(count),
    }
}

/// The host publishes the versions from 3 to 8.
pub fn publish_middle(book: &Book<Diary>, host: &mut Seat<Diary>) -> bool
    requires table { host.old.table ≡ book.now.table }
    requires host { IsHost host.old.known }
    requires two { host.old.known.note.published.0 ≡ 2 }
    requires reached { 8 ≤ (version host.old.known.seen the_host).0 }
    ensures table { host.new.table ≡ host.old.table }
    ensures host { IsHost host.new.known × (host.new.known.seen ≡ host.old.known.seen) }
    ensures eight { result ≡ true → host.new.known.note.published ≡ record { 0 = 8 } }
{
    let mut last: u64 = 2;
    while last < 8 {
        if publish(book, host, Version(last + 1)).is_some() {
            return false;
        }
        last += 1;
    }
    true
}

/// The lane lowers the pin that it confirmed last.
pub fn unpin(book: &Book<Diary>, lane: &mut Seat<Diary>, pinned: Version)
    requires table { lane.old.table ≡ book.now.table }
    requires lane { IsLane lane.old.known }
    requires pinned { (rest : List Version) × (lane.old.known.note.pins ≡ pinned ∷ rest) }
    ensures table { lane.new.table ≡ lane.old.table }
    ensures lane { IsLane lane.new.known }
    ensures pins { lane.old.known.note.pins ≡ pinned ∷ lane.new.known.note.pins }
{
    book.unpin(lane, pinned);
}

/// Whether the host sees no pin below the version that it has published.
pub fn idle(book: &Book<Diary>, host: &mut Seat<Diary>, published: Version) -> bool
    requires table { host.old.table ≡ book.now.table }
    requires host { IsHost host.old.known }
    requires published { host.old.known.note.published ≡ published }
    ensures table { host.new.table ≡ host.old.table }
    ensures host { IsHost host.new.known × (host.new.known.seen ≡ host.old.known.seen) }
    ensures published { host.new.known.note.published ≡ published }
    ensures idle { result ≡ true → IsIdle host.new.known.note published }
{
    book.idle_below(host, published)
}

/// The host moves so many versions on.
pub fn reach<R: Wait>(rt: &R, book: &Book<Diary>, host: &mut Seat<Diary>, steps: u64) -> bool
    requires table { host.old.table ≡ book.now.table }
    requires host { IsHost host.old.known }
    ensures table { host.new.table ≡ host.old.table }
    ensures host { IsHost host.new.known × (host.new.known.note ≡ host.old.known.note) }
    ensures reached { result ≡ true → steps + 1 ≤ (version host.new.known.seen the_host).0 }
{
    match book.commit(rt, host, Line::Reach(HostId(0), steps)) {
        Ok(_committed) => true,
        Err(_) => false,
    }
}

/// The host says that nothing below a version is live.
pub fn quiet<R: Wait>(
    rt: &R,
    book: &Book<Diary>,
    host: &mut Seat<Diary>,
    published: Version,
) -> bool
    requires table { host.old.table ≡ book.now.table }
    requires host { IsHost host.old.known }
    requires idle { IsIdle host.old.known.note published }
    ensures table { host.new.table ≡ host.old.table }
    ensures host { IsHost host.new.known }
{
    book.commit(rt, host, Line::Quiet(HostId(0), published))
        .is_ok()
}
