//! Fields of what is kept, read from JSON.
ghost use Rattle.std.specs.Prelude.{◌≡◌, codes, map};
ghost use Rattle.serde_json.specs.View.{view};
ghost use Rattle.adr_text.specs.Faults.{Finds};
ghost use Rattle.adr_text.specs.Fields.{member_of, items_in, required};
ghost use Rattle.adr_shown.specs.ReadValues.{type_in, values_in, lone, value_in, amount_in};

use adr_text::{Fault, list, member, text, whole};
use serde_json::Value;

// The word that a payload or a target has as its type.
fn type_of(value: &Value) -> Result<&str, Fault>
    ensures { Finds (λ word. word.now) result (type_in (view value.now)) }
{
    match member(value, "type") {
        Some(found) => text(found),
        None => Err(Fault::BadShape),
    }
}

// The values of a payload or a target, whatever its type.
fn any_values(value: &Value) -> Result<&[Value], Fault>
    ensures { Finds (λ vs. map view vs.now) result
        (required (member_of (codes "values") (view value.now)) items_in) }
{
    match member(value, "values") {
        Some(found) => list(found),
        None => Err(Fault::BadShape),
    }
}

// The values of a payload or a target of that type.
#[tactic(auto, unfolding(crate::specs::ReadValues::values_in))]
pub(crate) fn values<'v>(value: &'v Value, kind: &str) -> Result<&'v [Value], Fault>
    ensures { Finds (λ vs. map view vs.now) result (values_in kind.now (view value.now)) }
{
    if type_of(value)? != kind {
        return Err(Fault::BadShape);
    }
    any_values(value)
}

// The one item of a list.
pub(crate) fn lone(values: &[Value]) -> Result<&Value, Fault>
    ensures { Finds (λ v. view v.now) result (lone (map view values.now)) }
{
    match values {
        [value] => Ok(value),
        _ => Err(Fault::BadShape),
    }
}

// The one value of a payload or a target of that type.
#[tactic(auto, unfolding(crate::specs::ReadValues::value_in))]
pub(crate) fn only_value<'v>(value: &'v Value, kind: &str) -> Result<&'v Value, Fault>
    ensures { Finds (λ v. view v.now) result (value_in kind.now (view value.now)) }
{
    lone(values(value, kind)?)
}

// The whole number that is the one value of a payload of that type.
#[tactic(auto, unfolding(crate::specs::ReadValues::amount_in))]
pub(crate) fn amount(value: &Value, kind: &str) -> Result<i64, Fault>
    ensures { Finds (λ z. z) result (amount_in kind.now (view value.now)) }
{
    whole(only_value(value, kind)?).to_i64()
}
