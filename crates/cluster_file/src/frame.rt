// Hosts, lanes, shards and members.
ghost use Rattle.std.specs.Prelude.{◌≡◌, ◌≤◌, ◌<◌, [], IfOk, codes};
ghost use Rattle.serde_json.specs.View.{view, items_view};
ghost use Rattle.base_ids.specs.declared.rules.LimitName.TheVariants.{Hosts};
ghost use Rattle.json_forms.specs.Forms.{Member, MemberOr};
ghost use Rattle.json_forms.specs.Readings.{reading, read_each};
ghost use Rattle.json_forms.specs.Judging.{count, some_of};
ghost use Rattle.json_forms.specs.Results.{Gives};
ghost use Rattle.schedule_header.specs.Header.{hosts_under};
ghost use Rattle.schedule_header.specs.Forms.{most_hosts};
ghost use Rattle.cluster_file.specs.Openings.{member, format_of, frame};

use base_ids::{HostId, HostList, Items, LimitName, NoMemory};
use json_forms::{
    Fault, FileRule, ReadError, count_member, count_member_or, here, list, number_below, under,
    under_item,
};
use schedule_words::Format;
use serde_json::Value;
use std::alloc::Global;
use topo_state::is_member;

/// The format by its number.
pub(crate) fn format_of(number: u64) -> Format
    ensures { result ≡ format_of number }
{
    if number == 1 {
        Format::One
    } else {
        Format::Two
    }
}

/// The most hosts of a format.
fn most_hosts(format: Format) -> u64
    ensures value { result ≡ most_hosts format }
    ensures few { result ≤ 256 }
{
    match format {
        Format::One => 64,
        Format::Two => 256,
    }
}

/// How the hosts stand.
#[derive(Debug, Drop)]
pub(crate) struct Frame {
    /// The format of the document.
    pub(crate) format: Format,
    /// How many hosts there are, 1 to 64, in the second format to 256.
    pub(crate) hosts: u16,
    /// How many lanes each host has, 1 to 4.
    pub(crate) lanes: u8,
    /// How many shards each host has, 1 to 16.
    pub(crate) shards: u8,
    /// The members.
    pub(crate) members: HostList,
}

/// A member behind others. One that stands there already is `BadValue`.
#[tactic(auto, unfolding(crate::specs::Openings::member))]
fn member(alloc: Global, hosts: u16, earlier: &[HostId], value: &Value) -> Result<HostId, ReadError>
    ensures { Gives (λ h. h) result (reading (member hosts earlier.now) (view value.now)) }
{
    let n = number_below(alloc, u64::from(hosts), value)?;
    let host = HostId(n as u16);
    if is_member(earlier, host) {
        Err(here(alloc, Fault::Refused(FileRule::BadValue)))
    } else {
        Ok(host)
    }
}

/// The members in these items.
fn members_in(alloc: Global, hosts: u16, items: &[Value]) -> Result<HostList, ReadError>
    ensures { Gives (λ list. list) result
        (read_each (λ earlier e. reading (member hosts earlier) e) [] (items_view items.now)) }
{
    let mut members: HostList = Items::new(alloc);
    let mut left = items;
    'items: while let [first, behind @ ..] = left {
        let place = members.as_slice().len();
        let read = member(alloc, hosts, members.as_slice(), first);
        let member = under_item(alloc, place, read)?;
        members.push(member)?;
        left = behind;
    }
    Ok(members)
}

/// One or more members.
fn some_members(alloc: Global, hosts: u16, value: &Value) -> Result<HostList, ReadError>
    ensures { Gives (λ list. list) result (reading (some_of (member hosts)) (view value.now)) }
{
    let items = list(alloc, value)?;
    let members = members_in(alloc, hosts, items)?;
    if members.as_slice().is_empty() {
        Err(here(alloc, Fault::Refused(FileRule::BadValue)))
    } else {
        Ok(members)
    }
}

/// The hosts below a number.
fn hosts_below(alloc: Global, hosts: u16) -> Result<HostList, NoMemory>
    ensures { IfOk result (λ list. list ≡ hosts_under hosts) }
{
    let mut list: HostList = Items::new(alloc);
    for host in 0..hosts {
        list.push(HostId(host))?;
    }
    Ok(list)
}

/// The members, all hosts where they are left out.
fn members(alloc: Global, hosts: u16, value: &Value) -> Result<HostList, ReadError>
    ensures { Gives (λ list. list) result
        (reading (MemberOr (codes "members") (hosts_under hosts) (some_of (member hosts))) (view value.now)) }
{
    match value.get("members") {
        None => Ok(hosts_below(alloc, hosts)?),
        Some(member) => {
            let members = under(alloc, "members", some_members(alloc, hosts, member))?;
            Ok(members)
        }
    }
}

/// The counts of hosts, lanes and shards, and the members.
#[tactic(auto, unfolding(crate::specs::Openings::frame))]
pub(crate) fn frame_in(alloc: Global, format: Format, value: &Value) -> Result<Frame, ReadError>
    ensures read { Gives (λ frame. frame) result (reading (frame format) (view value.now)) }
    ensures hosts { IfOk result (λ frame. 1 ≤ frame.hosts) }
{
    let hosts = count_member(
        alloc,
        "hosts",
        1,
        most_hosts(format),
        LimitName::Hosts,
        value,
    )?;
    let lanes = count_member(alloc, "lanes", 1, 4, LimitName::Lanes, value)?;
    let shards = count_member_or(alloc, "shards", 1, 1, 16, LimitName::Shards, value)?;
    let members = members(alloc, hosts as u16, value)?;
    Ok(Frame {
        format,
        hosts: hosts as u16,
        lanes: lanes as u8,
        shards: shards as u8,
        members,
    })
}
