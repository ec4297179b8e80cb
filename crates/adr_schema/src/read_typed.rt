//! Lists of objects that have a type each, as payloads and targets are.
ghost use Rattle.std.specs.Prelude.{◌≡◌, Ok, filter, map, option_map};
ghost use Rattle.serde_json.specs.View.{view};
ghost use Rattle.adr_text.specs.Faults.{Finds};
ghost use Rattle.adr_schema.specs.Events.{is_of_type, only_one, text_at, typed_as, typed_in, values_in, one_of, value_of, only_value};

use adr_text::{Fault, list, member, objects, text};
use serde_json::Value;

/// A member that is a text.
pub fn text_at<'v>(value: &'v Value, name: &str) -> Result<&'v str, Fault>
    ensures { Finds (λ t. t.now) result (text_at name.now (view value.now)) }
{
    match member(value, name) {
        Some(found) => text(found),
        None => Err(Fault::BadShape),
    }
}

// The same values, where each has a type.
fn with_types(values: &[Value]) -> Result<&[Value], Fault>
    ensures { Finds (λ vs. map view vs.now) result
        (typed_as (map view values.now) (map view values.now)) }
{
    for v in values {
        text_at(v, "type")?;
    }
    Ok(values)
}

/// A list of objects with a type each.
#[tactic(auto, unfolding(crate::specs::Events::typed_in))]
pub fn typed(value: &Value) -> Result<&[Value], Fault>
    ensures { Finds (λ vs. map view vs.now) result (typed_in (view value.now)) }
{
    with_types(objects(value)?)
}

/// Whether the object's type is that text.
pub fn is_of_type(value: &Value, text: &str) -> bool
    ensures { result ≡ is_of_type text.now (view value.now) }
{
    match member(value, "type") {
        Some(found) => match found.as_str() {
            Some(t) => t == text,
            None => false,
        },
        None => false,
    }
}

/// The one value of that type, if there is one; `NotOne` where there are more.
pub fn only_of_type<'v>(values: &'v [Value], text: &str) -> Result<Option<&'v Value>, Fault>
    ensures { Finds (option_map (λ v. view v.now)) result
        (only_one (filter (is_of_type text.now) (map view values.now))) }
{
    let mut only = None;
    for v in values {
        if is_of_type(v, text) {
            if only.is_some() {
                return Err(Fault::NotOne);
            }
            only = Some(v);
        }
    }
    Ok(only)
}

/// The values of a payload or a target.
pub fn values_of(value: &Value) -> Result<&[Value], Fault>
    ensures { Finds (λ vs. map view vs.now) result (values_in (view value.now)) }
{
    match member(value, "values") {
        Some(found) => list(found),
        None => Err(Fault::BadShape),
    }
}

// Exactly one value.
pub(crate) fn one_of(values: &[Value]) -> Result<&Value, Fault>
    ensures { Finds (λ v. view v.now) result (one_of (map view values.now)) }
{
    match values {
        [value] => Ok(value),
        _ => Err(Fault::NotOne),
    }
}

/// The one value of a payload.
pub fn value_of(payload: &Value) -> Result<&Value, Fault>
    ensures { Finds (λ v. view v.now) result (value_of (view payload.now)) }
{
    one_of(values_of(payload)?)
}

// The one value of the only payload of that type, if there is one.
#[tactic(auto, unfolding(crate::specs::Events::only_value))]
pub(crate) fn only_value<'v>(payloads: &'v Value, kind: &str) -> Result<Option<&'v Value>, Fault>
    ensures { Finds (option_map (λ v. view v.now)) result (only_value kind.now (view payloads.now)) }
{
    match only_of_type(typed(payloads)?, kind)? {
        Some(payload) => Ok(Some(value_of(payload)?)),
        None => Ok(None),
    }
}
