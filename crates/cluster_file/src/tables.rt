// The tables at first.
ghost use Rattle.std.specs.Prelude.{◌≡◌, ◌≤◌, ◌<◌, ◌^◌, ◌+◌, ◌++◌, ◌∷◌, [], length, false, IfOk, codes};
ghost use Rattle.std.specs.List.{All, list_any};
ghost use Rattle.base_ids.specs.Replicas.{has_host};
ghost use Rattle.serde_json.specs.View.{view, items_view};
ghost use Rattle.json_forms.specs.Forms.{Member, MemberOr, Each};
ghost use Rattle.json_forms.specs.Readings.{reading, read_each};
ghost use Rattle.json_forms.specs.Results.{Gives};
ghost use Rattle.tablet_map.specs.Replicas.{IsReplicaSet};
ghost use Rattle.topo_state.specs.State.{is_member};
ghost use Rattle.topo_state.specs.Tables.{tablet_count};
ghost use Rattle.cluster_file.specs.Openings.{may_hold, replica, replicas, new_id, size, is_named, tablet, other, table_of, table, next_table, tables};
ghost use Rattle.cluster_file.specs.Sound.{IsSoundOther, MayBeSet};

use crate::frame::Frame;
use base_ids::{HostId, Items, LimitName, NoMemory, Replica, TableId, has_host, is_same_host};
use json_forms::{
    Fault, FileRule, ReadError, count, here, list, need, number_below, object, spelled, text,
    under, under_item,
};
use schedule_words::next_replica;
use serde_json::Value;
use std::alloc::Global;
use tablet_map::TabletMap;
use token_ring::TabletId;
use topo_state::{Table, TableList, is_member, table_in, tablet_count};

/// Other replicas for one tablet of a table.
#[derive(Debug, Drop)]
pub(crate) struct Other {
    /// The tablet.
    pub(crate) tablet: TabletId,
    /// The replicas, 1 to 8.
    pub(crate) replicas: Items<Replica>,
}

/// Whether the host is a member. Its own place in the list is looked at first: there it stands where all hosts are
/// members, in order.
#[tactic(auto, using(crate::proofs::SoundLemmas::member_at))]
fn is_among(members: &[HostId], host: HostId) -> bool
    ensures { result ≡ is_member members.now host }
{
    let place = usize::from(host.0);
    (place < members.len() && is_same_host(host, members[place])) || is_member(members, host)
}

/// Whether a tablet may have the replica behind others.
fn may_hold(frame: &Frame, earlier: &[Replica], replica: Replica) -> bool
    ensures { result ≡ may_hold frame.now earlier.now replica }
{
    is_among(frame.members.as_slice(), replica.host)
        && (replica.shard.0 < frame.shards && !has_host(earlier, replica.host))
}

/// A replica behind others. The ninth passes the limit `replicas`, and one that may not stand there is `BadValue`.
#[tactic(auto, unfolding(crate::specs::Openings::replica))]
fn replica(
    alloc: Global,
    frame: &Frame,
    earlier: &[Replica],
    value: &Value,
) -> Result<Replica, ReadError>
    ensures read { Gives (λ r. r) result (reading (replica frame.now earlier.now) (view value.now)) }
    ensures few { IfOk result (λ _. length earlier.now < 8) }
    ensures alone { IfOk result (λ r. has_host earlier.now r.host ≡ false) }
{
    let word = text(alloc, value)?;
    let replica = spelled(alloc, next_replica(earlier, word))?;
    if may_hold(frame, earlier, replica) {
        Ok(replica)
    } else {
        Err(here(alloc, Fault::Refused(FileRule::BadValue)))
    }
}

/// A replica behind others, with which they still may be a tablet's.
fn replica_behind(
    alloc: Global,
    frame: &Frame,
    earlier: &[Replica],
    value: &Value,
) -> Result<Replica, ReadError>
    ensures read { Gives (λ r. r) result (reading (replica frame.now earlier.now) (view value.now)) }
    ensures set { IfOk result (λ r. MayBeSet earlier.now → MayBeSet (earlier.now ++ r ∷ [])) }
{
    let replica = replica(alloc, frame, earlier, value)?;
    Ok(replica)
}

/// The replicas in these items.
#[tactic(auto, using(crate::proofs::SoundLemmas::set_none, crate::proofs::SoundLemmas::set_some))]
fn replicas_in(alloc: Global, frame: &Frame, items: &[Value]) -> Result<Items<Replica>, ReadError>
    ensures read { Gives (λ list. list) result
        (read_each (λ earlier e. reading (replica frame.now earlier) e) [] (items_view items.now)) }
    ensures set { IfOk result (λ list. 0 < length list → IsReplicaSet list) }
{
    let mut replicas = Items::new(alloc);
    let mut left = items;
    'items: while let [first, behind @ ..] = left {
        let place = replicas.as_slice().len();
        let read = replica_behind(alloc, frame, replicas.as_slice(), first);
        let replica = under_item(alloc, place, read)?;
        replicas.push(replica)?;
        left = behind;
    }
    Ok(replicas)
}

/// One or more replicas.
#[tactic(auto, unfolding(crate::specs::Openings::replicas))]
fn replicas(alloc: Global, frame: &Frame, value: &Value) -> Result<Items<Replica>, ReadError>
    ensures read { Gives (λ list. list) result (reading (replicas frame.now) (view value.now)) }
    ensures set { IfOk result (λ list. IsReplicaSet list) }
{
    let items = list(alloc, value)?;
    let replicas = replicas_in(alloc, frame, items)?;
    if replicas.as_slice().is_empty() {
        Err(here(alloc, Fault::Refused(FileRule::BadValue)))
    } else {
        Ok(replicas)
    }
}

/// The member `replicas`.
fn replicas_member(alloc: Global, frame: &Frame, value: &Value) -> Result<Items<Replica>, ReadError>
    ensures read { Gives (λ list. list) result
        (reading (Member (codes "replicas") (replicas frame.now)) (view value.now)) }
    ensures set { IfOk result (λ list. IsReplicaSet list) }
{
    let member = need(alloc, "replicas", value)?;
    let list = under(alloc, "replicas", replicas(alloc, frame, member))?;
    Ok(list)
}

/// The number of a table behind others. One that stands there already is `BadValue`.
#[tactic(auto, unfolding(crate::specs::Openings::new_id))]
fn new_id(alloc: Global, earlier: &[Table], value: &Value) -> Result<TableId, ReadError>
    ensures { Gives (λ id. id) result (reading (new_id earlier.now) (view value.now)) }
{
    let n = number_below(alloc, 1 << 32, value)?;
    let id = TableId(n as u32);
    if table_in(earlier, id).is_some() {
        Err(here(alloc, Fault::Refused(FileRule::BadValue)))
    } else {
        Ok(id)
    }
}

/// The logarithm of a count of tablets. More than 10 pass the limit `log2`, and more than 1024 tablets in all tables
/// the limit `tablets`.
#[tactic(auto, unfolding(crate::specs::Openings::size))]
fn size(alloc: Global, earlier: &[Table], value: &Value) -> Result<u8, ReadError>
    requires { tablet_count earlier.now ≤ 1024 }
    ensures read { Gives (λ b. b) result (reading (size earlier.now) (view value.now)) }
    ensures few { IfOk result (λ b. b ≤ 10) }
    ensures all { IfOk result (λ b. tablet_count earlier.now + 2 ^ b ≤ 1024) }
{
    let log2 = count(alloc, 0, 10, LimitName::Log2, value)?;
    if tablet_count(earlier) + (1 << log2) <= 1024 {
        Ok(log2 as u8)
    } else {
        Err(here(alloc, Fault::Limit(LimitName::Tablets)))
    }
}

/// Whether these are the replicas of the tablet.
fn is_named(tablet: u64, other: &Other) -> bool
    ensures { result ≡ is_named tablet other.now }
{
    u64::from(other.tablet.0) == tablet
}

/// Whether the tablet has replicas of its own already.
fn is_taken(earlier: &[Other], tablet: u64) -> bool
    ensures { result ≡ list_any (is_named tablet) earlier.now }
{
    earlier.iter().any(|other| is_named(tablet, other))
}

/// A tablet of the table behind others. One that stands there already is `BadValue`.
#[tactic(auto, unfolding(crate::specs::Openings::tablet))]
fn tablet(alloc: Global, log2: u8, earlier: &[Other], value: &Value) -> Result<TabletId, ReadError>
    requires { log2 ≤ 10 }
    ensures read { Gives (λ t. t) result (reading (tablet log2 earlier.now) (view value.now)) }
    ensures within { IfOk result (λ t. t.0 < 2 ^ log2) }
{
    let n = number_below(alloc, 1 << log2, value)?;
    if is_taken(earlier, n) {
        Err(here(alloc, Fault::Refused(FileRule::BadValue)))
    } else {
        Ok(TabletId(n as u32))
    }
}

/// Other replicas for one tablet, behind others.
#[tactic(auto, unfolding(crate::specs::Openings::other))]
fn other_at(
    alloc: Global,
    frame: &Frame,
    log2: u8,
    earlier: &[Other],
    value: &Value,
) -> Result<Other, ReadError>
    requires { log2 ≤ 10 }
    ensures read { Gives (λ o. o) result (reading (other frame.now log2 earlier.now) (view value.now)) }
    ensures sound { IfOk result (λ o. IsSoundOther log2 o) }
{
    object(alloc, value)?;
    let member = need(alloc, "tablet", value)?;
    let tablet = under(alloc, "tablet", tablet(alloc, log2, earlier, member))?;
    let replicas = replicas_member(alloc, frame, value)?;
    Ok(Other { tablet, replicas })
}

/// Other replicas for some tablets, in these items.
#[tactic(auto, using(crate::proofs::SoundLemmas::other_more))]
fn others_in(
    alloc: Global,
    frame: &Frame,
    log2: u8,
    items: &[Value],
) -> Result<Items<Other>, ReadError>
    requires { log2 ≤ 10 }
    ensures read { Gives (λ list. list) result
        (read_each (λ earlier e. reading (other frame.now log2 earlier) e) [] (items_view items.now)) }
    ensures sound { IfOk result (λ list. All (IsSoundOther log2) list) }
{
    let mut others = Items::new(alloc);
    let mut left = items;
    'items: while let [first, behind @ ..] = left {
        let place = others.as_slice().len();
        let read = other_at(alloc, frame, log2, others.as_slice(), first);
        let other = under_item(alloc, place, read)?;
        others.push(other)?;
        left = behind;
    }
    Ok(others)
}

/// Other replicas for some tablets.
fn others(alloc: Global, frame: &Frame, log2: u8, value: &Value) -> Result<Items<Other>, ReadError>
    requires { log2 ≤ 10 }
    ensures read { Gives (λ list. list) result (reading (Each (other frame.now log2)) (view value.now)) }
    ensures sound { IfOk result (λ list. All (IsSoundOther log2) list) }
{
    let items = list(alloc, value)?;
    others_in(alloc, frame, log2, items)
}

/// The member `other`, none where it is left out.
fn others_member(
    alloc: Global,
    frame: &Frame,
    log2: u8,
    value: &Value,
) -> Result<Items<Other>, ReadError>
    requires { log2 ≤ 10 }
    ensures read { Gives (λ list. list) result
        (reading (MemberOr (codes "other") [] (Each (other frame.now log2))) (view value.now)) }
    ensures sound { IfOk result (λ list. All (IsSoundOther log2) list) }
{
    match value.get("other") {
        None => Ok(Items::new(alloc)),
        Some(member) => {
            let list = under(alloc, "other", others(alloc, frame, log2, member))?;
            Ok(list)
        }
    }
}

/// The table with other replicas for some tablets.
#[tactic(auto, using(crate::proofs::SoundLemmas::placing_first, crate::proofs::SoundLemmas::placing_more, crate::proofs::SoundLemmas::within_map, crate::proofs::SoundLemmas::rests_there))]
fn table_of(
    alloc: Global,
    id: TableId,
    log2: u8,
    replicas: &[Replica],
    others: &[Other],
) -> Result<Table, NoMemory>
    requires few { log2 ≤ 10 }
    requires set { IsReplicaSet replicas.now }
    requires others { All (IsSoundOther log2) others.now }
    ensures { IfOk result (λ table. table ≡ table_of id log2 replicas.now others.now) }
{
    let mut map = TabletMap::new(alloc, log2, replicas)?;
    let mut left = others;
    'others: while let [first, behind @ ..] = left {
        map.set_replicas(alloc, first.tablet, first.replicas.as_slice())?;
        left = behind;
    }
    Ok(Table {
        id,
        map,
        resize: None,
    })
}

/// A table behind others.
#[tactic(auto, unfolding(crate::specs::Openings::table), using(crate::proofs::SoundLemmas::table_length))]
fn table(alloc: Global, frame: &Frame, earlier: &[Table], value: &Value) -> Result<Table, ReadError>
    requires { tablet_count earlier.now ≤ 1024 }
    ensures read { Gives (λ t. t) result (reading (table frame.now earlier.now) (view value.now)) }
    ensures all { IfOk result (λ t. tablet_count earlier.now + length t.map.list ≤ 1024) }
{
    object(alloc, value)?;
    let member = need(alloc, "id", value)?;
    let id = under(alloc, "id", new_id(alloc, earlier, member))?;
    let member = need(alloc, "log2", value)?;
    let log2 = under(alloc, "log2", size(alloc, earlier, member))?;
    let replicas = replicas_member(alloc, frame, value)?;
    let others = others_member(alloc, frame, log2, value)?;
    Ok(table_of(alloc, id, log2, replicas.as_slice(), others.as_slice())?)
}

/// A table behind others. The 65th passes the limit `tables`.
fn next_table(
    alloc: Global,
    frame: &Frame,
    earlier: &[Table],
    value: &Value,
) -> Result<Table, ReadError>
    requires { tablet_count earlier.now ≤ 1024 }
    ensures read { Gives (λ t. t) result (reading (next_table frame.now earlier.now) (view value.now)) }
    ensures all { IfOk result (λ t. tablet_count earlier.now + length t.map.list ≤ 1024) }
{
    if earlier.len() < 64 {
        table(alloc, frame, earlier, value)
    } else {
        Err(here(alloc, Fault::Limit(LimitName::Tables)))
    }
}

/// The tables in these items.
#[tactic(auto, using(crate::proofs::SoundLemmas::table_more))]
fn tables_in(alloc: Global, frame: &Frame, items: &[Value]) -> Result<TableList, ReadError>
    ensures { Gives (λ list. list) result
        (read_each (λ earlier e. reading (next_table frame.now earlier) e) [] (items_view items.now)) }
{
    let mut tables: TableList = Items::new(alloc);
    let mut left = items;
    'items: while let [first, behind @ ..] = left {
        let place = tables.as_slice().len();
        let read = next_table(alloc, frame, tables.as_slice(), first);
        let table = under_item(alloc, place, read)?;
        tables.push(table)?;
        left = behind;
    }
    Ok(tables)
}

/// The tables.
#[tactic(auto, unfolding(crate::specs::Openings::tables))]
fn tables(alloc: Global, frame: &Frame, value: &Value) -> Result<TableList, ReadError>
    ensures { Gives (λ list. list) result (reading (tables frame.now) (view value.now)) }
{
    let items = list(alloc, value)?;
    tables_in(alloc, frame, items)
}

/// The member `tables`.
pub(crate) fn tables_member(
    alloc: Global,
    frame: &Frame,
    value: &Value,
) -> Result<TableList, ReadError>
    ensures { Gives (λ list. list) result (reading (Member (codes "tables") (tables frame.now)) (view value.now)) }
{
    let member = need(alloc, "tables", value)?;
    let list = under(alloc, "tables", tables(alloc, frame, member))?;
    Ok(list)
}
