//! How many tablets each member has.
ghost use Rattle.std.specs.Prelude.{◌≡◌, ◌≤◌, ◌+◌, ◌<◌, map, filter, length, slice_index_or, IfOk};
ghost use Rattle.std.specs.List.{AllPass};
ghost use Rattle.balance_plan.specs.Loads.{lies_on, table_load, load, greatest, least};
ghost use Rattle.balance_plan.specs.Plans.{lesser, least_host};
ghost use Rattle.balance_plan.specs.Shares.{spread_by, share_of, load_of, host_of, has_load, shifted, CanShift};
ghost use Rattle.topo_state.specs.Tables.{tablet_count};

use base_ids::{HostId, NoMemory, has_host};
use std::alloc::Global;
use tablet_map::Tablet;
use topo_state::Table;

/// A member with its load.
#[derive(Clone, Copy)]
pub(crate) struct Share {
    /// The member.
    pub(crate) host: HostId,
    /// How many tablets have a replica on it.
    pub(crate) load: usize,
}

/// Whether the tablet has a replica on the host.
pub(crate) fn lies_on(host: HostId, tablet: &Tablet) -> bool
    ensures { result ≡ lies_on host tablet.now }
{
    has_host(tablet.replicas.as_slice(), host)
}

/// How many tablets of the table have a replica on the host.
fn table_load(host: HostId, table: &Table) -> usize
    ensures { result ≡ table_load host table.now }
{
    table
        .map
        .tablets()
        .iter()
        .filter(|tablet| lies_on(host, tablet))
        .count()
}

/// How many tablets of all tables have a replica on the host.
#[tactic(auto, using(crate::proofs::ShareLemmas::load_few))]
pub fn load(tables: &[Table], host: HostId) -> usize
    requires { tablet_count tables.now ≤ 1024 }
    ensures { result ≡ load tables.now host }
{
    let mut count = 0;
    for table in tables {
        count += table_load(host, table);
    }
    count
}

/// The members with their loads, in order.
pub(crate) fn shares(
    alloc: Global,
    members: &[HostId],
    tables: &[Table],
) -> Result<Vec<Share>, NoMemory>
    requires { tablet_count tables.now ≤ 1024 }
    ensures { IfOk result (λ list. list.items ≡ map (share_of tables.now) members.now) }
{
    let mut list = Vec::new(alloc);
    for member in members {
        list.push(Share {
            host: *member,
            load: load(tables, *member),
        })?;
    }
    Ok(list)
}

/// The greatest load, and 0 of no members.
pub(crate) fn greatest(shares: &[Share]) -> usize
    ensures { result ≡ greatest (map load_of shares.now) }
{
    match shares {
        [] => 0,
        [first, rest @ ..] => first.load.max(greatest(rest)),
    }
}

/// The least load, and 0 of no members.
pub(crate) fn least(shares: &[Share]) -> usize
    ensures { result ≡ least (map load_of shares.now) }
{
    match shares {
        [] => 0,
        [first] => first.load,
        [first, rest @ ..] => first.load.min(least(rest)),
    }
}

/// The greatest load less the least.
pub(crate) fn spread(shares: &[Share]) -> usize
    ensures { result ≡ spread_by shares.now }
{
    greatest(shares).saturating_sub(least(shares))
}

/// The host of the lesser number.
fn lesser(host: HostId, other: Option<HostId>) -> Option<HostId>
    ensures { result ≡ lesser host other }
{
    match other {
        None => Some(host),
        Some(other) => {
            if other.0 < host.0 {
                Some(other)
            } else {
                Some(host)
            }
        }
    }
}

/// The least of the members that have this load.
pub(crate) fn least_with(shares: &[Share], load: usize) -> Option<HostId>
    ensures { result ≡ least_host (map host_of (filter (has_load load) shares.now)) }
{
    match shares {
        [] => None,
        [first, rest @ ..] => {
            let later = least_with(rest, load);
            if first.load == load {
                lesser(first.host, later)
            } else {
                later
            }
        }
    }
}

/// The share after a replica went from one host to another.
fn shifted(share: &Share, from: HostId, to: HostId) -> Share
    requires { CanShift from share.now }
    ensures { result ≡ shifted from to share.now }
{
    if from == share.host {
        Share {
            host: share.host,
            load: share.load - 1,
        }
    } else if to == share.host {
        Share {
            host: share.host,
            load: share.load + 1,
        }
    } else {
        *share
    }
}

/// Counts that a replica went from one host to another.
pub(crate) fn shift(shares: &mut [Share], from: HostId, to: HostId)
    requires { (k : _) (other : _) → k < length shares.old → CanShift from (slice_index_or shares.old k other) }
    ensures { shares.new ≡ map (shifted from to) shares.old }
{
    for at in 0..shares.len() {
        shares[at] = shifted(&shares[at], from, to);
    }
}
