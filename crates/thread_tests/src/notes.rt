//! Two seats on threads of their own, and what is read of their notes.
ghost use Rattle.std.specs.Prelude.{◌≡◌};

use crate::diary::{Diary, Line};
use base_ids::{Actor, MsgRef, Version};
use event_book::{Book, Seat};
use std::sync::Wait;
use std::thread::{Threads, join};

/// How many notes each seat makes.
const NOTES: u64 = 9;

/// Notes the numbers from 0.
fn note_some<R: Wait>(rt: &R, book: &Book<Diary>, mut seat: Seat<Diary>) -> Seat<Diary>
    requires { seat.table ≡ book.now.table }
    ensures { (result.table ≡ book.now.table) × (result.known.actor ≡ seat.known.actor) }
{
    let by = seat.actor();
    for text in 0..NOTES {
        let _added = book.commit(rt, &mut seat, Line::Note(by, text));
    }
    seat
}

/// Both seats make their notes, side by side.
pub fn note_both<R: Threads + Wait + Sync>(
    rt: &R,
    book: &Book<Diary>,
    one: Seat<Diary>,
    two: Seat<Diary>,
) -> (Seat<Diary>, Seat<Diary>)
    requires one { one.table ≡ book.now.table }
    requires two { two.table ≡ book.now.table }
    ensures one { (result.0.table ≡ book.now.table) × (result.0.known.actor ≡ one.known.actor) }
    ensures two { (result.1.table ≡ book.now.table) × (result.1.known.actor ≡ two.known.actor) }
{
    join(
        rt,
        || -> Seat<Diary>
            requires { one.table ≡ book.now.table }
            ensures { (result.table ≡ book.entry.now.table) × (result.known.actor ≡ one.known.actor) }
        { note_some(rt, book, one) },
        || -> Seat<Diary>
            requires { two.table ≡ book.now.table }
            ensures { (result.table ≡ book.entry.now.table) × (result.known.actor ≡ two.known.actor) }
        { note_some(rt, book, two) },
    )
}

/// How many notes an actor made, if they are the numbers from 0 in order.
pub fn notes_of(entries: &[Line], by: Actor) -> Option<u64> {
    let mut count: u64 = 0;
    for entry in entries {
        if let Line::Note(whose, text) = entry {
            if *whose == by {
                if *text != count {
                    return None;
                }
                count = text.wrapping_add(1);
            }
        }
    }
    Some(count)
}

/// Looks at what the history has: a command, a snapshot, and the message of an entry.
pub fn read_all<R: Wait>(
    rt: &R,
    book: &Book<Diary>,
    seat: &mut Seat<Diary>,
    at: MsgRef,
) -> (Option<u64>, Option<u64>, Option<u64>)
    requires { seat.old.table ≡ book.now.table }
    ensures table { seat.new.table ≡ seat.old.table }
    ensures actor { seat.new.known.actor ≡ seat.old.known.actor }
{
    let command = match book.entry(rt, seat, 1) {
        Ok(Some(command)) => Some(*command),
        Ok(None) | Err(_) => None,
    };
    let snapshot = match book.snapshot(rt, seat, Version(1)) {
        Ok(Some(snapshot)) => Some(*snapshot),
        Ok(None) | Err(_) => None,
    };
    let message = book.message(rt, seat, at).unwrap_or(None);
    (command, snapshot, message)
}
