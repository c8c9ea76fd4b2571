//! Each row's document is read, and what is answered is compared.
use crate::rows::{
    COUNTED, Change, HOSTS, MOVES, NESTED, PACE, SCRIPTS, STORM, TABLES, TEXTS, WHOLE,
};
use base_ids::HostId;
use cluster_file::{FileError, parse};
use std::alloc::{AllocError, Global};
use std::process::Abort;
use std::str;
use std::test::Fail;

/// Adds a text, with a double quote for each single one.
fn add(bytes: &mut Vec<u8>, text: &str) -> Result<(), Fail> {
    for byte in text.bytes() {
        bytes.push(if byte == b'\'' { b'"' } else { byte })?;
    }
    Ok(())
}

/// The document with another piece instead of one.
fn changed(alloc: Global, old: &str, new: &str) -> Result<Vec<u8>, Fail> {
    let (before, behind) = WHOLE.split_once(old).ok_or("no such piece")?;
    let mut bytes = Vec::new(alloc);
    for text in [before, new, behind] {
        add(&mut bytes, text)?;
    }
    Ok(bytes)
}

/// A document with so many tables of sixteen tablets, and behind them another item.
fn with_tables(alloc: Global, count: u16, last: &str) -> Result<Vec<u8>, Fail> {
    let mut bytes = Vec::new(alloc);
    add(&mut bytes, "{'tablets':1,'hosts':1,'lanes':1,'tables':[")?;
    for id in 0..count {
        let table = format!(in alloc; "{{'id':{id},'log2':4,'replicas':['0:0']}},")?;
        add(&mut bytes, table.as_str())?;
    }
    add(&mut bytes, last)?;
    add(&mut bytes, "]}")?;
    Ok(bytes)
}

/// A document with a member that is passed over, so many lists in one another.
fn with_lists(alloc: Global, count: usize) -> Result<Vec<u8>, Fail> {
    let mut bytes = Vec::new(alloc);
    add(
        &mut bytes,
        "{'tablets':1,'hosts':1,'lanes':1,'tables':[],'lists':",
    )?;
    let before = vec![in alloc; b'['; count]?;
    bytes.extend_from_slice(before.as_slice())?;
    let behind = vec![in alloc; b']'; count]?;
    bytes.extend_from_slice(behind.as_slice())?;
    add(&mut bytes, "}")?;
    Ok(bytes)
}

/// What is answered of a document, in words.
fn answer(alloc: Global, bytes: &[u8]) -> Result<Vec<u8>, AllocError> {
    match parse(alloc, bytes) {
        Ok(_) => Vec::from_slice(alloc, b"read"),
        Err(FileError::NoMemory) => Vec::from_slice(alloc, b"no memory"),
        Err(FileError::Limit { name }) => {
            let mut line = Vec::from_slice(alloc, b"limit ")?;
            line.extend_from_slice(name.word().as_bytes())?;
            Ok(line)
        }
        Err(FileError::Refused { path, rule }) => {
            let mut line = Vec::from_slice(alloc, path.as_slice())?;
            line.extend_from_slice(b" ")?;
            line.extend_from_slice(rule.word().as_bytes())?;
            Ok(line)
        }
    }
}

/// Compares what is answered of a document.
fn check(rt: &impl Abort, alloc: Global, bytes: &[u8], wanted: &str) -> Result<(), Fail> {
    let answer = answer(alloc, bytes)?;
    assert_eq!(rt; str::from_utf8(answer.as_slice()), Ok(wanted));
    Ok(())
}

/// Compares what is answered of the document with each of these changes.
fn check_changes(rt: &impl Abort, alloc: Global, changes: &[Change]) -> Result<(), Fail> {
    for change in changes {
        let (old, new, wanted) = *change;
        let bytes = changed(alloc, old, new)?;
        check(rt, alloc, bytes.as_slice(), wanted)?;
    }
    Ok(())
}

#[test]
fn changes_of_hosts_are_told(rt: HostRuntime) -> Result<(), Fail> {
    check_changes(&rt, rt.alloc(), HOSTS)
}

#[test]
fn changes_of_pace_are_told(rt: HostRuntime) -> Result<(), Fail> {
    check_changes(&rt, rt.alloc(), PACE)
}

#[test]
fn changes_of_tables_are_told(rt: HostRuntime) -> Result<(), Fail> {
    check_changes(&rt, rt.alloc(), TABLES)
}

#[test]
fn changes_of_scripts_are_told(rt: HostRuntime) -> Result<(), Fail> {
    check_changes(&rt, rt.alloc(), SCRIPTS)
}

#[test]
fn changes_of_moves_are_told(rt: HostRuntime) -> Result<(), Fail> {
    check_changes(&rt, rt.alloc(), MOVES)
}

#[test]
fn changes_of_storm_are_told(rt: HostRuntime) -> Result<(), Fail> {
    check_changes(&rt, rt.alloc(), STORM)
}

#[test]
fn texts_have_their_answers(rt: HostRuntime) -> Result<(), Fail> {
    let alloc = rt.alloc();
    for (text, wanted) in TEXTS {
        let mut bytes = Vec::new(alloc);
        add(&mut bytes, text)?;
        check(&rt, alloc, bytes.as_slice(), wanted)?;
    }
    Ok(())
}

#[test]
fn tables_are_counted(rt: HostRuntime) -> Result<(), Fail> {
    let alloc = rt.alloc();
    for (count, last, wanted) in COUNTED {
        let bytes = with_tables(alloc, count, last)?;
        check(&rt, alloc, bytes.as_slice(), wanted)?;
    }
    Ok(())
}

#[test]
fn lists_stand_in_one_another(rt: HostRuntime) -> Result<(), Fail> {
    let alloc = rt.alloc();
    for (count, wanted) in NESTED {
        let bytes = with_lists(alloc, count)?;
        check(&rt, alloc, bytes.as_slice(), wanted)?;
    }
    let brackets = vec![in alloc; b'['; 200]?;
    check(&rt, alloc, brackets.as_slice(), "/ NotJson")
}

#[test]
fn what_is_no_text_is_no_json(rt: HostRuntime) -> Result<(), Fail> {
    let alloc = rt.alloc();
    let mut bytes = changed(alloc, "", "")?;
    bytes.push(0xff)?;
    check(&rt, alloc, bytes.as_slice(), "/ NotJson")
}

#[test]
fn what_is_cut_off_is_no_json(rt: HostRuntime) -> Result<(), Fail> {
    let alloc = rt.alloc();
    let whole = changed(alloc, "", "")?;
    for piece in 0..=whole.len() / 10 {
        let front = &whole.as_slice()[..10 * piece];
        let wanted = if front.len() < whole.len() {
            "/ NotJson"
        } else {
            "read"
        };
        check(&rt, alloc, front, wanted)?;
    }
    check(&rt, alloc, whole.as_slice(), "read")
}

#[test]
fn what_is_left_out_has_its_default(rt: HostRuntime) -> Result<(), Fail> {
    let text = b"{\"tablets\":1,\"hosts\":3,\"lanes\":1,\"tables\":[]}";
    let Ok((opening, plan)) = parse(rt.alloc(), text) else {
        return Err(Fail::from("the document is not read"));
    };
    assert_eq!(rt; opening.shards, 1);
    assert_eq!(rt;
        opening.members.as_slice(),
        [HostId(0), HostId(1), HostId(2)].as_slice()
    );
    assert_eq!(rt; (plan.workers, plan.patience, plan.drain), (2, 1000, 100));
    assert!(rt; plan.scripts.as_slice().is_empty() && plan.moves.as_slice().is_empty());
    assert!(rt; plan.storm.is_none());
    Ok(())
}
