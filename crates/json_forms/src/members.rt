// Members of an object that are numbers.
ghost use Rattle.std.specs.Prelude.{◌≡◌, ◌≤◌, IfOk};
ghost use Rattle.serde_json.specs.View.{view};
ghost use Rattle.json_forms.specs.Forms.{Member, MemberOr};
ghost use Rattle.json_forms.specs.Readings.{reading};
ghost use Rattle.json_forms.specs.Judging.{number, count};
ghost use Rattle.json_forms.specs.Results.{Gives};

use crate::faults::ReadError;
use crate::values::{count, need, number, under};
use base_ids::LimitName;
use serde_json::Value;
use std::alloc::Global;

/// The member of this name, a whole number from the one to the other.
pub fn number_member(
    alloc: Global,
    name: &str,
    least: u64,
    most: u64,
    value: &Value,
) -> Result<u64, ReadError>
    ensures read { Gives (λ n. n) result (reading (Member name.now (number least most)) (view value.now)) }
    ensures within { IfOk result (λ n. (least ≤ n) × (n ≤ most)) }
{
    let member = need(alloc, name, value)?;
    let n = under(alloc, name, number(alloc, least, most, member))?;
    Ok(n)
}

/// The same, where it may be left out and then is another number.
pub fn number_member_or(
    alloc: Global,
    name: &str,
    other: u64,
    least: u64,
    most: u64,
    value: &Value,
) -> Result<u64, ReadError>
    requires { (least ≤ other) × (other ≤ most) }
    ensures read { Gives (λ n. n) result (reading (MemberOr name.now other (number least most)) (view value.now)) }
    ensures within { IfOk result (λ n. (least ≤ n) × (n ≤ most)) }
{
    match value.get(name) {
        None => Ok(other),
        Some(member) => {
            let n = under(alloc, name, number(alloc, least, most, member))?;
            Ok(n)
        }
    }
}

/// The member of this name, a count from this one on within its limit.
pub fn count_member(
    alloc: Global,
    name: &str,
    least: u64,
    most: u64,
    limit: LimitName,
    value: &Value,
) -> Result<u64, ReadError>
    ensures read { Gives (λ n. n) result (reading (Member name.now (count least most limit)) (view value.now)) }
    ensures within { IfOk result (λ n. (least ≤ n) × (n ≤ most)) }
{
    let member = need(alloc, name, value)?;
    let n = under(alloc, name, count(alloc, least, most, limit, member))?;
    Ok(n)
}

/// The same, where it may be left out and then is another number.
pub fn count_member_or(
    alloc: Global,
    name: &str,
    other: u64,
    least: u64,
    most: u64,
    limit: LimitName,
    value: &Value,
) -> Result<u64, ReadError>
    requires { (least ≤ other) × (other ≤ most) }
    ensures read { Gives (λ n. n) result
        (reading (MemberOr name.now other (count least most limit)) (view value.now)) }
    ensures within { IfOk result (λ n. (least ≤ n) × (n ≤ most)) }
{
    match value.get(name) {
        None => Ok(other),
        Some(member) => {
            let n = under(alloc, name, count(alloc, least, most, limit, member))?;
            Ok(n)
        }
    }
}
