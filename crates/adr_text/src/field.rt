ghost use Rattle.std.specs.Prelude.{◌≡◌, option_map, map};
ghost use Rattle.std.specs.List.{list_all};
ghost use Rattle.serde_json.specs.View.{view};
ghost use Rattle.adr_text.specs.Fields.{whole_of, member_of, text_of, is_object, items_in, objects_in, value_in};
ghost use Rattle.adr_text.specs.Faults.{Finds};

use crate::fault::Fault;
use crate::number::Whole;
use serde_json::Value;
use std::alloc::Global;

/// What the value is as a whole number.
pub fn whole(value: &Value) -> Whole
    ensures { result ≡ whole_of (view value.now) }
{
    if let Some(n) = value.as_i64() {
        Whole::In(n)
    } else if value.is_u64() {
        Whole::Beyond
    } else if value.is_number() {
        Whole::Fraction
    } else {
        Whole::NoNumber
    }
}

/// A member of an object, unless it is null. Of members of one name the last counts.
pub fn member<'v>(value: &'v Value, name: &str) -> Option<&'v Value>
    ensures { option_map (λ v. view v.now) result ≡ member_of name.now (view value.now) }
{
    let found = value.get(name)?;
    if found.is_null() {
        return None;
    }
    Some(found)
}

/// The JSON value that the bytes are, or `BadShape`.
pub fn read_value(alloc: Global, bytes: &[u8]) -> Result<Value, Fault>
    ensures { Finds view result (value_in bytes.now) }
{
    match Value::from_slice(alloc, bytes) {
        Ok(value) => Ok(value),
        Err(e) => if e.is_memory() {
            Err(Fault::OutOfMemory)
        } else {
            Err(Fault::BadShape)
        },
    }
}

/// The text that a value is, or `BadShape`.
pub fn text(value: &Value) -> Result<&str, Fault>
    ensures { Finds (λ s. s.now) result (text_of (view value.now)) }
{
    value.as_str().ok_or(Fault::BadShape)
}

/// The items of an array, or `BadShape`.
pub fn list(value: &Value) -> Result<&[Value], Fault>
    ensures { Finds (λ vs. map view vs.now) result (items_in (view value.now)) }
{
    match value.as_array() {
        Some(values) => Ok(values.as_slice()),
        None => Err(Fault::BadShape),
    }
}

fn all_objects(values: &[Value]) -> bool
    ensures { result ≡ list_all (λ v. is_object (view v)) values.now }
{
    values.iter().all(|v| v.is_object())
}

/// A list of objects, or `BadShape`. All of it is looked at before the first of them is read.
#[tactic(auto, using(crate::proofs::FieldLemmas::rules_of_objects), unfolding(crate::specs::Fields::objects_in))]
pub fn objects(value: &Value) -> Result<&[Value], Fault>
    ensures { Finds (λ vs. map view vs.now) result (objects_in (view value.now)) }
{
    let values = list(value)?;
    if !all_objects(values) {
        return Err(Fault::BadShape);
    }
    Ok(values)
}
