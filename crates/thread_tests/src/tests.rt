ghost use Rattle.std.specs.Prelude.{◌≡◌};

use crate::diary::Line;
use crate::mail::{Clerk, Trio, by_ones, mailed, outputs_of, take_rest};
use crate::notes::{note_both, notes_of, read_all};
use crate::pair::{Pair, closed, opened};
use crate::pins::{idle, meet, pin, publish, publish_middle, quiet, reach, unpin};
use base_ids::{Actor, Appended, HostId, LaneId, LimitName, MsgRef, StateId, Version};
use book_rule::BookError;
use std::test::Fail;
use work_mail::{Empty, End, Full, run_parts};

#[test]
fn seats_append_side_by_side(rt: HostRuntime) -> Result<(), Fail> {
    let host = Actor::Host(HostId(0));
    let topo = Actor::Topo(HostId(1));
    let Pair {
        book,
        seats,
        one,
        mut two,
    } = opened(rt.alloc(), host, topo)?;
    let accepted = book.propose(&rt, &mut two, StateId(0), 5);
    assert!(rt; accepted == Ok(Appended::Accepted { index: 1 }));
    let conflict = book.propose(&rt, &mut two, StateId(0), 6);
    assert!(rt; conflict == Ok(Appended::Conflict { last: StateId(1) }));
    let (mut one, two) = note_both(&rt, &book, one, two);
    let full = book.commit(&rt, &mut one, Line::Note(host, 9));
    assert!(rt;
        full == Err(BookError::Limit {
            name: LimitName::Events
        })
    );
    let at = MsgRef { event: 3, out: 0 };
    let found = read_all(&rt, &book, &mut one, at);
    assert!(rt; found == (Some(5), Some(7), Some(0)));
    let journal = closed(book, seats, one, two);
    assert!(rt; journal.entries.len() == 20);
    assert!(rt; notes_of(journal.entries.as_slice(), host) == Some(9));
    assert!(rt; notes_of(journal.entries.as_slice(), topo) == Some(9));
    Ok(())
}

#[test]
fn pins_hold_versions(rt: HostRuntime) -> Result<(), Fail> {
    let lane = Actor::Lane(LaneId {
        host: HostId(0),
        lane: 0,
    });
    let Pair {
        book,
        seats,
        mut one,
        mut two,
    } = opened(rt.alloc(), Actor::Host(HostId(0)), lane)?;
    assert!(rt; reach(&rt, &book, &mut one, 8));
    let first = pin(&book, &mut two);
    assert!(rt; first == Some(Version(1)));
    let Some(first) = first else { return Ok(()) };
    let second = pin(&book, &mut two);
    assert!(rt; second == Some(Version(1)));
    let Some(second) = second else { return Ok(()) };
    // the host publishes between the first look and the second
    let moved = meet(&book, &mut one, &mut two, Version(2));
    assert!(rt; moved == Some((Version(1), Version(2))));
    let Some(_) = moved else { return Ok(()) };
    assert!(rt; !idle(&book, &mut one, Version(2)));
    assert!(rt; publish_middle(&book, &mut one));
    // version 9 has the word of version 1
    let pinned = publish(&book, &mut one, Version(9));
    assert!(rt; pinned == Some(2));
    let Some(_) = pinned else { return Ok(()) };
    unpin(&book, &mut two, second);
    let pinned = publish(&book, &mut one, Version(9));
    assert!(rt; pinned == Some(1));
    let Some(_) = pinned else { return Ok(()) };
    assert!(rt; !idle(&book, &mut one, Version(8)));
    unpin(&book, &mut two, first);
    assert!(rt; idle(&book, &mut one, Version(8)));
    let pinned = publish(&book, &mut one, Version(9));
    assert!(rt; pinned == None);
    let None = pinned else { return Ok(()) };
    assert!(rt; idle(&book, &mut one, Version(9)));
    assert!(rt; quiet(&rt, &book, &mut one, Version(9)));
    let journal = closed(book, seats, one, two);
    assert!(rt; journal.entries.len() == 2);
    Ok(())
}

#[test]
fn mail_is_one_merge(rt: HostRuntime) -> Result<(), Fail> {
    let alloc = rt.alloc();
    let Trio {
        mailbox,
        first,
        second,
        third,
    } = mailed(alloc, 64)?;
    let mut clerks = [
        Clerk {
            end: End::new(&mailbox, first),
            number: 1,
            puts: 0,
            rounds: 500,
            took: Vec::new(alloc),
        },
        Clerk {
            end: End::new(&mailbox, second),
            number: 2,
            puts: 20,
            rounds: 1,
            took: Vec::new(alloc),
        },
        Clerk {
            end: End::new(&mailbox, third),
            number: 3,
            puts: 20,
            rounds: 1,
            took: Vec::new(alloc),
        },
    ];
    run_parts(&rt, &mut clerks);
    take_rest(&rt, &mut clerks[0], 41);
    assert!(rt; clerks[0].took.len() == 40);
    assert!(rt; outputs_of(clerks[0].took.as_slice(), 2) == Some(20));
    assert!(rt; outputs_of(clerks[0].took.as_slice(), 3) == Some(20));
    let (put, full, first, empty) = by_ones(&rt, alloc)?;
    assert!(rt; put.is_ok() && full == Err(Full));
    assert!(rt; first == Ok(MsgRef { event: 1, out: 5 }) && empty == Err(Empty));
    Ok(())
}
