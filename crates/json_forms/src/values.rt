// Values and their parts, read one by one.
ghost use Rattle.std.specs.Prelude.{◌≡◌, ◌≤◌, ◌<◌, ◌∷◌, ◌++◌, IfOk, decimal};
ghost use Rattle.serde_json.specs.View.{view, items_view, members_view};
ghost use Rattle.json_forms.specs.Rules.{here, of_text};
ghost use Rattle.json_forms.specs.Readings.{reading, text_of, items_in, object_of, member_of};
ghost use Rattle.json_forms.specs.Judging.{whole, number, number_below, count};
ghost use Rattle.json_forms.specs.Results.{Gives, IsUnder, as_read, as_read_line};
ghost use Rattle.json_forms.specs.declared.faults.ReadError.TheVariants.{Fault as FaultIn};

use crate::faults::{Fault, FaultAt, FileRule, ReadError};
use base_ids::{Items, LimitName, NoMemory, Text};
use serde_json::{Map, Value};
use std::alloc::Global;
use text_grammar::LineError;

/// The value itself is at fault.
pub fn here(alloc: Global, fault: Fault) -> ReadError
    ensures { result ≡ FaultIn (here fault) }
{
    ReadError::Fault(FaultAt {
        path: Items::new(alloc),
        fault,
    })
}

/// What a text's fault is as a value's: whatever rule the text breaks, its spelling is bad; a limit stays.
fn of_text(fault: text_grammar::Fault) -> Fault
    ensures { result ≡ of_text fault }
{
    match fault {
        text_grammar::Fault::Refused(_) => Fault::Refused(FileRule::BadValue),
        text_grammar::Fault::Limit(name) => Fault::Limit(name),
    }
}

/// What a text tells, as what is read of its value.
pub fn spelled<T: Drop>(alloc: Global, read: Result<T, text_grammar::Fault>) -> Result<T, ReadError>
    ensures { result ≡ as_read read }
{
    match read {
        Ok(x) => Ok(x),
        Err(fault) => Err(here(alloc, of_text(fault))),
    }
}

/// What a text tells, as what is read of its value, where memory may be refused.
pub fn spelled_line<T: Drop>(alloc: Global, read: Result<T, LineError>) -> Result<T, ReadError>
    ensures { result ≡ as_read_line read }
{
    match read {
        Ok(x) => Ok(x),
        Err(LineError::Fault(fault)) => Err(here(alloc, of_text(fault))),
        Err(LineError::NoMemory) => Err(ReadError::NoMemory),
    }
}

/// A path with a name before it.
fn longer(alloc: Global, name: &[u8], path: &[u8]) -> Result<Text, NoMemory>
    ensures { IfOk result (λ text. text ≡ 47 ∷ name.now ++ path.now) }
{
    let mut text = Vec::from_slice(alloc, b"/")?;
    text.extend_from_slice(name)?;
    text.extend_from_slice(path)?;
    Ok(Items::from_vec(text))
}

/// What is read of a part that stands one name further.
fn below<T: Drop>(alloc: Global, name: &[u8], read: Result<T, ReadError>) -> Result<T, ReadError>
    ensures { IsUnder name.now read result }
{
    match read {
        Ok(x) => Ok(x),
        Err(ReadError::NoMemory) => Err(ReadError::NoMemory),
        Err(ReadError::Fault(at)) => {
            let path = longer(alloc, name, at.path.as_slice())?;
            Err(ReadError::Fault(FaultAt {
                path,
                fault: at.fault,
            }))
        }
    }
}

/// What is read of the member of this name.
pub fn under<T: Drop>(alloc: Global, name: &str, read: Result<T, ReadError>) -> Result<T, ReadError>
    ensures { IsUnder name.now read result }
{
    below(alloc, name.as_bytes(), read)
}

/// What is read of the item at this place.
pub fn under_item<T: Drop>(
    alloc: Global,
    place: usize,
    read: Result<T, ReadError>,
) -> Result<T, ReadError>
    ensures { IsUnder (decimal place) read result }
{
    match read {
        Ok(x) => Ok(x),
        Err(error) => {
            let mut buffer = itoa::Buffer::new();
            below(alloc, buffer.format(place).as_bytes(), Err(error))
        }
    }
}

/// The whole number of 64 bits that a value holds. One below 0 is `BadValue`, and any other value is `WrongType`.
#[tactic(auto, unfolding(crate::specs::Judging::whole))]
pub fn whole(alloc: Global, value: &Value) -> Result<u64, ReadError>
    ensures { Gives (λ n. n) result (reading whole (view value.now)) }
{
    match value.as_number() {
        None => Err(here(alloc, Fault::Refused(FileRule::WrongType))),
        Some(number) => match number.as_u64() {
            Some(n) => Ok(n),
            None => {
                if number.is_f64() {
                    Err(here(alloc, Fault::Refused(FileRule::WrongType)))
                } else {
                    Err(here(alloc, Fault::Refused(FileRule::BadValue)))
                }
            }
        },
    }
}

/// A whole number from the one to the other. Any other is `BadValue`.
#[tactic(auto, unfolding(crate::specs::Judging::number))]
pub fn number(alloc: Global, least: u64, most: u64, value: &Value) -> Result<u64, ReadError>
    ensures read { Gives (λ n. n) result (reading (number least most) (view value.now)) }
    ensures within { IfOk result (λ n. (least ≤ n) × (n ≤ most)) }
{
    let n = whole(alloc, value)?;
    if least <= n && n <= most {
        Ok(n)
    } else {
        Err(here(alloc, Fault::Refused(FileRule::BadValue)))
    }
}

/// A whole number below this one. Any other is `BadValue`.
#[tactic(auto, unfolding(crate::specs::Judging::number_below))]
pub fn number_below(alloc: Global, limit: u64, value: &Value) -> Result<u64, ReadError>
    ensures read { Gives (λ n. n) result (reading (number_below limit) (view value.now)) }
    ensures within { IfOk result (λ n. n < limit) }
{
    let n = whole(alloc, value)?;
    if n < limit {
        Ok(n)
    } else {
        Err(here(alloc, Fault::Refused(FileRule::BadValue)))
    }
}

/// A count from this one on. A lesser one is `BadValue`, and a greater than the limit passes it.
#[tactic(auto, unfolding(crate::specs::Judging::count))]
pub fn count(
    alloc: Global,
    least: u64,
    most: u64,
    name: LimitName,
    value: &Value,
) -> Result<u64, ReadError>
    ensures read { Gives (λ n. n) result (reading (count least most name) (view value.now)) }
    ensures within { IfOk result (λ n. (least ≤ n) × (n ≤ most)) }
{
    let n = whole(alloc, value)?;
    if n < least {
        Err(here(alloc, Fault::Refused(FileRule::BadValue)))
    } else if n <= most {
        Ok(n)
    } else {
        Err(here(alloc, Fault::Limit(name)))
    }
}

/// The bytes of a text. Any other value is `WrongType`.
pub fn text<'v>(alloc: Global, value: &'v Value) -> Result<&'v [u8], ReadError>
    ensures { Gives (λ bytes. bytes.now) result (text_of (view value.now)) }
{
    match value.as_str() {
        None => Err(here(alloc, Fault::Refused(FileRule::WrongType))),
        Some(text) => Ok(text.as_bytes()),
    }
}

/// The items of a list. Any other value is `WrongType`.
pub fn list<'v>(alloc: Global, value: &'v Value) -> Result<&'v [Value], ReadError>
    ensures { Gives (λ items. items_view items.now) result (items_in (view value.now)) }
{
    match value.as_array() {
        None => Err(here(alloc, Fault::Refused(FileRule::WrongType))),
        Some(items) => Ok(items.as_slice()),
    }
}

/// The members of an object. Any other value is `WrongType`.
pub fn object<'v>(alloc: Global, value: &'v Value) -> Result<&'v Map<String, Value>, ReadError>
    ensures { Gives (λ members. members_view members.now.entries) result (object_of (view value.now)) }
{
    match value.as_object() {
        None => Err(here(alloc, Fault::Refused(FileRule::WrongType))),
        Some(members) => Ok(members),
    }
}

/// The member of this name, which is needed.
pub fn need<'v>(alloc: Global, name: &str, value: &'v Value) -> Result<&'v Value, ReadError>
    ensures { Gives (λ e. view e.now) result (member_of name.now (view value.now)) }
{
    match value.get(name) {
        None => {
            let path = longer(alloc, name.as_bytes(), b"")?;
            Err(ReadError::Fault(FaultAt {
                path,
                fault: Fault::Refused(FileRule::Missing),
            }))
        }
        Some(member) => Ok(member),
    }
}
