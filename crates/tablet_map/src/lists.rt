//! The calls of the map, over its lists.
ghost use Rattle.std.specs.Prelude.{◌≡◌, ◌≤◌, ◌<◌, length, IfOk, map, option_map, position, replicate, take, ◌/◌, ◌*◌, ◌+◌, IfSome};
ghost use Rattle.std.specs.List.{flat_map, list_all};
ghost use Rattle.base_ids.specs.Replicas.{has_replica};
ghost use Rattle.tablet_map.specs.Replicas.{replaced_list, same_set};
ghost use Rattle.tablet_map.specs.Tablets.{tablet_in, has_session};
ghost use Rattle.tablet_map.specs.Calls.{at_rest, both, pairs, least_moving, least_apart};

use crate::tablet::Tablet;
use base_ids::{NoMemory, Replica, ReplicaList, Session, has_replica, place_of_replica};
use std::alloc::Global;

/// The place of the first tablet whose transition has this session.
pub(crate) fn place_of_session(tablets: &[Tablet], session: Session) -> Option<usize>
    ensures { result ≡ position (has_session session) tablets.now }
{
    tablets
        .iter()
        .position(|tablet| tablet.has_session(session))
}

/// The place of the first tablet in transition.
pub(crate) fn place_of_moving(tablets: &[Tablet]) -> Option<usize>
    ensures { result ≡ least_moving tablets.now }
{
    tablets.iter().position(|tablet| tablet.is_moving())
}

/// Puts the pending replica into the leaving one's place.
pub(crate) fn replace(replicas: &mut ReplicaList, leaving: Replica, pending: Replica)
    ensures { replicas.new ≡ replaced_list leaving pending replicas.old }
{
    if let Some(at) = place_of_replica(replicas.as_slice(), leaving) {
        replicas.replace(at, pending);
    }
}

/// Whether all replicas of a list are in another.
fn are_in(replicas: &[Replica], others: &[Replica]) -> bool
    ensures { result ≡ list_all (has_replica others.now) replicas.now }
{
    replicas.iter().all(|replica| has_replica(others, *replica))
}

/// Whether two lists are the same as sets. Takes no memory.
fn is_same_set(a: &[Replica], b: &[Replica]) -> bool
    ensures { result ≡ same_set a.now b.now }
{
    are_in(a, b) && are_in(b, a)
}

/// Whether the two tablets of a pair of neighbours have the same set of replicas.
fn is_colocated(tablets: &[Tablet], pair: usize) -> bool
    requires { 2 * pair + 1 < length tablets.now }
    ensures { result ≡
        same_set (tablet_in tablets.now (2 * pair)).replicas (tablet_in tablets.now (2 * pair + 1)).replicas }
{
    let left = &tablets[2 * pair];
    let right = &tablets[2 * pair + 1];
    is_same_set(left.replicas.as_slice(), right.replicas.as_slice())
}

/// The left one of the first pair of neighbours that have not the same set of replicas.
pub(crate) fn place_of_apart(tablets: &[Tablet]) -> Option<usize>
    ensures place { result ≡ least_apart tablets.now }
    ensures within { IfSome result (λ at. at < length tablets.now) }
{
    for pair in 0..tablets.len() / 2 {
        if !is_colocated(tablets, pair) {
            return Some(2 * pair);
        }
    }
    None
}

/// So many tablets with these replicas.
pub(crate) fn equal_tablets(
    alloc: Global,
    count: u32,
    replicas: &[Replica],
) -> Result<Vec<Tablet>, NoMemory>
    requires { length replicas.now ≤ 9 }
    ensures { IfOk result (λ tablets. tablets.items ≡ replicate count (at_rest replicas.now)) }
{
    let mut tablets = Vec::new(alloc);
    for _ in 0..count {
        tablets.push(Tablet::at_rest(alloc, replicas)?)?;
    }
    Ok(tablets)
}

/// Equal tablets.
pub(crate) fn clones(alloc: Global, tablets: &[Tablet]) -> Result<Vec<Tablet>, NoMemory>
    ensures { IfOk result (λ copies. copies.items ≡ tablets.now) }
{
    let mut copies = Vec::new(alloc);
    for tablet in tablets {
        copies.push(tablet.clone_in(alloc)?)?;
    }
    Ok(copies)
}

/// Each tablet twice.
pub(crate) fn halves(alloc: Global, tablets: &[Tablet]) -> Result<Vec<Tablet>, NoMemory>
    ensures { IfOk result (λ copies. copies.items ≡ flat_map both tablets.now) }
{
    let mut copies = Vec::new(alloc);
    for tablet in tablets {
        copies.push(tablet.clone_in(alloc)?)?;
        copies.push(tablet.clone_in(alloc)?)?;
    }
    Ok(copies)
}

/// Keeps the left one of each pair of neighbours. Takes no memory.
pub(crate) fn keep_left(tablets: &mut Vec<Tablet>)
    ensures { tablets.new.items ≡ map (λ pair. pair.0) (pairs tablets.old.items) }
{
    let pairs = tablets.len() / 2;
    gather_left(tablets.as_mut_slice());
    tablets.truncate(pairs);
}

/// Puts the left one of each pair of neighbours in front.
fn gather_left(tablets: &mut [Tablet])
    ensures { take (length tablets.old / 2) tablets.new ≡ map (λ pair. pair.0) (pairs tablets.old) }
{
    let pairs = tablets.len() / 2;
    for pair in 1..pairs {
        tablets.swap(pair, 2 * pair);
    }
}
