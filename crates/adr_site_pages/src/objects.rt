//! Vens, resources and subscriptions as they are told.
ghost use Rattle.std.specs.Prelude.{◌≡◌, ℕ, map, IfOk};
ghost use Rattle.adr_queries.specs.declared.answer.Object.{Object as ObjectOf};
ghost use Rattle.adr_site_pages.specs.Laws.{told_ven, told_resource, told_sub};

use adr_objects::{Number, VenObject};
use adr_queries::Object;
use adr_state::{Resource, Ven};
use adr_subscription::{Sub, SubObject};
use adr_text::Rows;
use adr_view::resource_object;
use std::alloc::{AllocError, Global};

/// What is told as an object, with its number.
pub trait Told: Drop {
    ghost object: { ℕ × Self → ObjectOf };

    fn told(number: Number, value: Self) -> Result<Object, AllocError>
        ensures { IfOk result (λ told. told ≡ object (number, value)) };
}

impl Told for Ven {
    ghost object = { told_ven };

    fn told(number: Number, ven: Ven) -> Result<Object, AllocError> {
        Ok(Object::Ven(VenObject {
            number,
            name: ven.name,
            stamps: ven.stamps,
        }))
    }
}

impl Told for Resource {
    ghost object = { told_resource };

    fn told(number: Number, resource: Resource) -> Result<Object, AllocError> {
        Ok(Object::Resource(resource_object(number, &resource)?))
    }
}

impl Told for Sub {
    ghost object = { told_sub };

    fn told(number: Number, sub: Sub) -> Result<Object, AllocError> {
        Ok(Object::Sub(SubObject {
            number,
            sub: sub.body,
            stamps: sub.stamps,
        }))
    }
}

/// Each as it is told.
pub fn objects_of<T: Told>(
    alloc: Global,
    rows: Rows<(Number, T)>,
) -> Result<Rows<Object>, AllocError>
    ensures { IfOk result (λ objects. objects ≡ map T.object rows) }
{
    let mut objects = Rows::new(alloc);
    'rows: for row in rows.into_vec() {
        objects.push(T::told(row.0, row.1)?)?;
    }
    Ok(objects)
}
