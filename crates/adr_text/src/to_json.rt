ghost use Rattle.std.specs.Prelude.{◌≡◌, ⊤, pos, IsTrue, IfOk, OnOk, IfSome, All, map, option_map};
ghost use Rattle.serde_json.specs.Data.{Data, string, put as with_member};
ghost use Rattle.serde_json.specs.View.{view, members_view};
ghost use Rattle.adr_text.specs.Fields.{is_i32, is_i64, is_u32};
ghost use Rattle.adr_text.specs.Ids.{is_id};
ghost use Rattle.adr_text.specs.Names.{is_name};
ghost use Rattle.adr_text.specs.Moments.{moment_text};
ghost use Rattle.adr_text.specs.Objects.{put_some, array_of, whole_data};

use crate::id::ObjectId;
use crate::moment::Moment;
use crate::name::Name;
use serde_json::{Map, Value};
use std::alloc::{AllocError, Global};

/// A type whose values are written as JSON.
pub trait ToJson {
    /// The value as JSON.
    ghost json: { Self → Data };

    /// What each value of the program keeps, so that it reads again.
    ghost keeps: { Self → Type 0 };

    fn to_json(&self, alloc: Global) -> Result<Value, AllocError>
        ensures value { IfOk result (λ v. view v ≡ json self.now) }
        ensures kept { OnOk result (keeps self.now) };
}

/// Sets a member.
pub fn put<T: ToJson>(
    members: &mut Map<String, Value>,
    alloc: Global,
    name: &str,
    value: &T,
) -> Result<(), AllocError>
    ensures member { OnOk result (members_view members.new.entries
        ≡ with_member name.now (T.json value.now) (members_view members.old.entries)) }
    ensures kept { OnOk result (T.keeps value.now) }
{
    serde_json::put(members, alloc, name, value.to_json(alloc)?)
}

/// Sets a member, where there is a value for it.
pub fn put_maybe<T: ToJson>(
    members: &mut Map<String, Value>,
    alloc: Global,
    name: &str,
    value: &Option<T>,
) -> Result<(), AllocError>
    ensures member { OnOk result (members_view members.new.entries
        ≡ put_some name.now (option_map T.json value.now) (members_view members.old.entries)) }
    ensures kept { OnOk result (IfSome value.now T.keeps) }
{
    match value {
        Some(value) => put(members, alloc, name, value),
        None => Ok(()),
    }
}

/// An array of the items.
pub fn array<T: ToJson>(alloc: Global, items: &[T]) -> Result<Value, AllocError>
    ensures value { IfOk result (λ v. view v ≡ array_of (map T.json items.now)) }
    ensures kept { OnOk result (All T.keeps items.now) }
{
    let mut values = Vec::new(alloc);
    for item in items {
        values.push(item.to_json(alloc)?)?;
    }
    Ok(Value::Array(values))
}

impl ToJson for ObjectId {
    ghost json = { string };

    ghost keeps = { λ text. IsTrue (is_id text) };

    fn to_json(&self, alloc: Global) -> Result<Value, AllocError> {
        Value::try_from_str(alloc, self.as_str())
    }
}

impl ToJson for Name {
    ghost json = { string };

    ghost keeps = { λ text. IsTrue (is_name text) };

    fn to_json(&self, alloc: Global) -> Result<Value, AllocError> {
        Value::try_from_str(alloc, self.as_str())
    }
}

impl ToJson for Moment {
    ghost json = { λ n. string (moment_text n) };

    ghost keeps = { λ _. ⊤ };

    fn to_json(&self, alloc: Global) -> Result<Value, AllocError> {
        Ok(Value::from(self.text(alloc)?))
    }
}

impl ToJson for i32 {
    ghost json = { whole_data };

    ghost keeps = { λ z. IsTrue (is_i32 z) };

    fn to_json(&self, _alloc: Global) -> Result<Value, AllocError> {
        let n = *self;
        Ok(Value::from(n))
    }
}

impl ToJson for i64 {
    ghost json = { whole_data };

    ghost keeps = { λ z. IsTrue (is_i64 z) };

    fn to_json(&self, _alloc: Global) -> Result<Value, AllocError> {
        let n = *self;
        Ok(Value::from(n))
    }
}

impl ToJson for u32 {
    ghost json = { λ n. whole_data (pos n) };

    ghost keeps = { λ n. IsTrue (is_u32 n) };

    fn to_json(&self, _alloc: Global) -> Result<Value, AllocError> {
        let n = *self;
        Ok(Value::from(n))
    }
}
