//! Vens and resources by their ids, and as they are shown.
ghost use Rattle.std.specs.Prelude.{◌≡◌, IfOk};
ghost use Rattle.adr_state.specs.Resources.{resource_at, is_under, resource_object};
ghost use Rattle.adr_state.specs.Vens.{ven_with_id, ven_at, ven_object};

use adr_objects::{Number, ResourceObject, VenObject};
use adr_state::{Portfolio, Resource, Ven, number_in};
use adr_text::ObjectId;
use std::alloc::AllocError;

/// The ven of that id, with its number.
pub fn ven_with_id(
    id: &ObjectId,
    portfolio: &Portfolio,
) -> Result<Option<(Number, Ven)>, AllocError>
    ensures { IfOk result (λ ven. ven ≡ ven_with_id id.now portfolio.now) }
{
    let Some(number) = number_in(b'v', id) else {
        return Ok(None);
    };
    match portfolio.vens.get(&number) {
        Some(ven) => Ok(Some((number, ven.clone()?))),
        None => Ok(None),
    }
}

/// The number of the ven of that id, where it is enrolled.
pub fn ven_at(id: &ObjectId, portfolio: &Portfolio) -> Option<Number>
    ensures { result ≡ ven_at id.now portfolio.now }
{
    let number = number_in(b'v', id)?;
    if portfolio.vens.get(&number).is_none() {
        return None;
    }
    Some(number)
}

/// A ven as it is shown.
pub fn ven_object(number: Number, ven: &Ven) -> Result<VenObject, AllocError>
    ensures { IfOk result (λ object. object ≡ ven_object (number, ven.now)) }
{
    Ok(VenObject {
        number,
        name: ven.name.clone()?,
        stamps: ven.stamps,
    })
}

/// The number of the resource of that id.
pub fn resource_at(id: &ObjectId, portfolio: &Portfolio) -> Option<Number>
    ensures { result ≡ resource_at id.now portfolio.now }
{
    let number = number_in(b'r', id)?;
    if portfolio.resources.get(number).is_none() {
        return None;
    }
    Some(number)
}

/// Whether the resource belongs to the ven of that id.
pub fn is_under(ven: &ObjectId, portfolio: &Portfolio, resource: &Resource) -> bool
    ensures { result ≡ is_under ven.now portfolio.now resource.now }
{
    match ven_at(ven, portfolio) {
        Some(number) => number == resource.ven,
        None => false,
    }
}

/// A resource as it is shown.
pub fn resource_object(number: Number, resource: &Resource) -> Result<ResourceObject, AllocError>
    ensures { IfOk result (λ object. object ≡ resource_object (number, resource.now)) }
{
    Ok(ResourceObject {
        number,
        ven: resource.ven,
        name: resource.name.as_name().clone()?,
        stamps: resource.stamps,
    })
}
