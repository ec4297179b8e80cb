//! Lists, as they are kept.
ghost use Rattle.std.specs.Prelude.{Result, codes, map};
ghost use Rattle.serde_json.specs.Data.{Data};
ghost use Rattle.serde_json.specs.View.{view};
ghost use Rattle.adr_text.specs.Fields.{member_of, required, each};
ghost use Rattle.adr_text.specs.Faults.{Finds};
ghost use Rattle.adr_text.specs.declared.fault.Fault.{Fault as Faulty};
ghost use Rattle.adr_shown.specs.ReadValues.{list_in};

use adr_text::{Fault, Rows, list, member};
use serde_json::Value;
use std::alloc::Global;

/// What is kept as one JSON value of a list.
pub(crate) trait Kept: Drop {
    /// What a JSON value is as one of this type, or the first fault.
    ghost of: { Data → Result Self Faulty };

    fn read(alloc: Global, value: &Value) -> Result<Self, Fault>
        ensures { Finds (λ x. x) result (of (view value.now)) };
}

// Each of the values, up to the first fault.
fn each<T: Kept>(alloc: Global, values: &[Value]) -> Result<Vec<T>, Fault>
    ensures { Finds (λ v. v.items) result (each T.of (map view values.now)) }
{
    let mut items = Vec::new(alloc);
    for v in values {
        items.push(T::read(alloc, v)?)?;
    }
    Ok(items)
}

// The intervals that an object has to list.
pub(crate) fn intervals_of<T: Kept>(alloc: Global, value: &Value) -> Result<Rows<T>, Fault>
    ensures { Finds (λ rows. rows) result
        (required (member_of (codes "intervals") (view value.now)) (list_in T.of)) }
{
    match member(value, "intervals") {
        Some(found) => Ok(Rows::from_vec(each(alloc, list(found)?)?)),
        None => Err(Fault::BadShape),
    }
}
