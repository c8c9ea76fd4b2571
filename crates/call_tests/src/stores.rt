// Both stores by the same calls.
use base_ids::TableId;
use cell_merge::{Body, Cell};
use replica_store::{Store, VecStore, gather};
use run_store::RunStore;
use std::test::Fail;
use token_ring::{Token, TokenRange};

const TABLE: TableId = TableId(1);

const OTHER: TableId = TableId(2);

fn token(value: i64) -> Result<Token, Fail> {
    Ok(Token::new(value).ok_or("no token")?)
}

fn range(first: i64, last: i64) -> Result<TokenRange, Fail> {
    Ok(TokenRange {
        first: token(first)?,
        last: token(last)?,
    })
}

fn cell(timestamp: i64) -> Cell {
    Cell {
        timestamp,
        body: Body::Dead(1),
    }
}

fn fill<S: Store>(store: &mut S) -> Result<(), Fail> {
    for (table, place) in [(OTHER, 4), (TABLE, 9), (TABLE, -5), (TABLE, 4), (TABLE, -3)] {
        store.reserve(1)?;
        store.put(table, token(place)?, cell(place));
    }
    Ok(())
}

/// The tokens and times of a table's cells that a store gives after the same calls, in one line.
fn played<S: Store + Drop>(rt: &HostRuntime, mut store: S) -> Result<String, Fail> {
    fill(&mut store)?;
    store.regroup(TABLE, 3)?;
    store.reserve(4)?;
    store.put(TABLE, token(-3)?, cell(-7));
    store.put(TABLE, token(4)?, cell(8));
    store.put(TABLE, token(i64::MAX)?, cell(1));
    store.put(OTHER, token(i64::MIN + 1)?, cell(2));
    store.drop_range(TABLE, range(5, 10)?);
    store.regroup(TABLE, 1)?;
    store.regroup(OTHER, 2)?;
    store.reserve(2)?;
    store.put(TABLE, token(-(1 << 62))?, cell(3));
    store.drop_range(OTHER, range(0, 10)?);
    let mut text = String::new(rt.alloc());
    for table in [TABLE, OTHER] {
        let list = gather(rt.alloc(), &store, table, range(i64::MIN + 1, i64::MAX)?, 2)?;
        for stored in list.as_slice() {
            let found = store.get(table, stored.token) == Some(&stored.cell);
            let line = format!(in rt.alloc();
                "{}@{} {} ",
                stored.token.get(),
                stored.cell.timestamp,
                found
            )?;
            text.push_str(line.as_str())?;
        }
    }
    Ok(text)
}

#[test]
fn both_stores_keep_the_same_map(rt: HostRuntime) -> Result<(), Fail> {
    let in_runs = played(&rt, RunStore::new(rt.alloc()))?;
    let in_one_list = played(&rt, VecStore::new(rt.alloc()))?;
    let wanted =
        "-4611686018427387904@3 true -5@-5 true -3@-3 true 4@8 true 9223372036854775807@1 true \
        -9223372036854775807@2 true ";
    assert_eq!(rt; in_runs.as_str(), wanted);
    assert_eq!(rt; in_one_list.as_str(), wanted);
    Ok(())
}
