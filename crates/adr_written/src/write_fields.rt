//! Fields of written objects.
ghost use Rattle.std.specs.Prelude.{◌≡◌, [], ◌∷◌, map, option_map, IfOk, OnOk, string_bytes, false};
ghost use Rattle.serde_json.specs.Written.{has_float, compact_text};
ghost use Rattle.serde_json.specs.Data.{Data, string, put as with_member};
ghost use Rattle.serde_json.specs.View.{view, members_view};
ghost use Rattle.adr_text.specs.Objects.{object_of, array_of, whole_data};
ghost use Rattle.adr_written.specs.Objects.{values_fields, values_data, payloads_data};

use serde_json::{Map, Value};
use std::alloc::{AllocError, Global};

/// Sets a member to a text.
pub fn put_text(
    members: &mut Map<String, Value>,
    alloc: Global,
    name: &str,
    text: &str,
) -> Result<(), AllocError>
    ensures { OnOk result (members_view members.new.entries
        ≡ with_member name.now (string text.now) (members_view members.old.entries)) }
{
    serde_json::put(members, alloc, name, Value::try_from_str(alloc, text)?)
}

// The text of a value with no float.
pub(crate) fn compact(alloc: Global, value: Value) -> Result<String, AllocError>
    requires { has_float (view value) ≡ false }
    ensures { IfOk result (λ s. string_bytes s ≡ compact_text (view value)) }
{
    value.to_string(alloc)
}

/// A payload or a target: its type and its values.
pub fn with_values(alloc: Global, kind: &str, values: Value) -> Result<Value, AllocError>
    ensures { IfOk result (λ v. view v ≡ object_of (values_fields kind.now (view values))) }
{
    let mut members = Map::new(alloc);
    put_text(&mut members, alloc, "type", kind)?;
    serde_json::put(&mut members, alloc, "values", values)?;
    Ok(Value::Object(members))
}

/// A payload or a target of one value.
#[tactic(auto, unfolding(crate::specs::Objects::values_data))]
pub fn valued(alloc: Global, kind: &str, value: Value) -> Result<Value, AllocError>
    ensures { IfOk result (λ v. view v ≡ values_data kind.now (view value ∷ [])) }
{
    with_values(alloc, kind, Value::Array(vec![in alloc; value]?))
}

/// A list of one payload.
pub fn one_payload(alloc: Global, kind: &str, value: Value) -> Result<Value, AllocError>
    ensures { IfOk result (λ v. view v
        ≡ array_of (values_data kind.now (view value ∷ []) ∷ [])) }
{
    let payload = valued(alloc, kind, value)?;
    Ok(Value::Array(vec![in alloc; payload]?))
}

// The payloads of an interval: one where there is a number for it, else none.
pub(crate) fn payloads(alloc: Global, kind: &str, number: Option<i64>) -> Result<Value, AllocError>
    ensures { IfOk result (λ v. view v
        ≡ payloads_data kind.now (option_map whole_data number)) }
{
    match number {
        Some(number) => one_payload(alloc, kind, Value::from(number)),
        None => Ok(Value::Array(Vec::new(alloc))),
    }
}

/// What is written as one JSON value of a list.
pub(crate) trait Written {
    /// The value as JSON.
    ghost json: { Self → Data };

    fn written(&self, alloc: Global) -> Result<Value, AllocError>
        ensures { IfOk result (λ v. view v ≡ json self.now) };
}

// An array of them.
pub(crate) fn list_of<T: Written>(alloc: Global, items: &[T]) -> Result<Value, AllocError>
    ensures { IfOk result (λ v. view v ≡ array_of (map T.json items.now)) }
{
    let mut values = Vec::new(alloc);
    for item in items {
        values.push(item.written(alloc)?)?;
    }
    Ok(Value::Array(values))
}
