ghost use Rattle.std.specs.Prelude.{◌≡◌, Result, IfOk, map, length};
ghost use Rattle.serde_json.specs.Data.{Data};
ghost use Rattle.serde_json.specs.View.{view};
ghost use Rattle.adr_text.specs.Fields.{member_of, required, optional, each, id_in, name_in, moment_in, i32_in, u32_in};
ghost use Rattle.adr_text.specs.Faults.{Finds};
ghost use Rattle.adr_text.specs.declared.fault.Fault.{Fault as Faulty};

use crate::fault::Fault;
use crate::field::{member, text, whole};
use crate::id::{ObjectId, is_id};
use crate::moment::Moment;
use crate::name::{Name, is_name};
use serde_json::Value;
use std::alloc::Global;

/// A type whose values are read from JSON.
pub trait FromJson: Drop {
    /// What a JSON value is as one of this type, or the first fault.
    ghost of: { Data → Result Self Faulty };

    fn from_json(alloc: Global, value: &Value) -> Result<Self, Fault>
        ensures { Finds (λ x. x) result (of (view value.now)) };
}

/// A member that has to be there; absent or null is `BadShape`.
pub fn needed<T: FromJson>(alloc: Global, value: &Value, name: &str) -> Result<T, Fault>
    ensures { Finds (λ x. x) result (required (member_of name.now (view value.now)) T.of) }
{
    match member(value, name) {
        Some(found) => T::from_json(alloc, found),
        None => Err(Fault::BadShape),
    }
}

/// A member that may be absent or null.
pub fn maybe<T: FromJson>(alloc: Global, value: &Value, name: &str) -> Result<Option<T>, Fault>
    ensures { Finds (λ x. x) result (optional (member_of name.now (view value.now)) T.of) }
{
    match member(value, name) {
        Some(found) => Ok(Some(T::from_json(alloc, found)?)),
        None => Ok(None),
    }
}

/// Each of a list's items, up to the first fault.
pub fn all<T: FromJson>(alloc: Global, values: &[Value]) -> Result<Vec<T>, Fault>
    ensures items { Finds (λ v. v.items) result (each T.of (map view values.now)) }
    ensures len { IfOk result (λ v. length v.items ≡ length values.now) }
{
    let mut items = Vec::new(alloc);
    for v in values {
        items.push(T::from_json(alloc, v)?)?;
    }
    Ok(items)
}

impl FromJson for ObjectId {
    ghost of = { id_in };

    #[tactic(auto, unfolding(crate::specs::Fields::id_in))]
    fn from_json(alloc: Global, value: &Value) -> Result<ObjectId, Fault> {
        let text = text(value)?;
        if !is_id(text) {
            return Err(Fault::BadShape);
        }
        Ok(ObjectId::of(alloc, text)?)
    }
}

impl FromJson for Name {
    ghost of = { name_in };

    #[tactic(auto, unfolding(crate::specs::Fields::name_in))]
    fn from_json(alloc: Global, value: &Value) -> Result<Name, Fault> {
        let text = text(value)?;
        if !is_name(text) {
            return Err(Fault::BadShape);
        }
        Ok(Name::of(alloc, text)?)
    }
}

impl FromJson for Moment {
    ghost of = { moment_in };

    #[tactic(auto, unfolding(crate::specs::Fields::moment_in))]
    fn from_json(_alloc: Global, value: &Value) -> Result<Moment, Fault> {
        match Moment::read(text(value)?) {
            Ok(moment) => Ok(moment),
            Err(_) => Err(Fault::BadShape),
        }
    }
}

impl FromJson for i32 {
    ghost of = { i32_in };

    #[tactic(auto, unfolding(crate::specs::Fields::i32_in))]
    fn from_json(_alloc: Global, value: &Value) -> Result<i32, Fault> {
        let n = whole(value).to_i64()?;
        i32::try_from(n).map_err(|_| Fault::OutOfRange)
    }
}

impl FromJson for u32 {
    ghost of = { u32_in };

    #[tactic(auto, unfolding(crate::specs::Fields::u32_in))]
    fn from_json(_alloc: Global, value: &Value) -> Result<u32, Fault> {
        let n = whole(value).to_i64()?;
        u32::try_from(n).map_err(|_| Fault::OutOfRange)
    }
}
