//! The ids of what resources are shown of upstream events.
ghost use Rattle.std.specs.Prelude.{◌≡◌, IfOk};
ghost use Rattle.std.specs.Option.{option_copied};
ghost use Rattle.adr_state.specs.Resources.{resource_with_id};
ghost use Rattle.adr_state.specs.ShownIds.{resource_part, event_part, id_in, resource_named};

use crate::digits::number_in;
use crate::portfolio::{Portfolio, Resource};
use adr_objects::Number;
use adr_text::{ObjectId, Refusal};
use std::alloc::{AllocError, Global};

/// The object id that the text is.
pub fn id_in(alloc: Global, text: &str) -> Result<Option<ObjectId>, AllocError>
    ensures { IfOk result (λ id. id ≡ id_in text.now) }
{
    match ObjectId::new(alloc, text) {
        Ok(id) => Ok(Some(id)),
        Err(Refusal::OutOfMemory) => Err(AllocError),
        Err(_) => Ok(None),
    }
}

/// The resource of that id, with its number.
pub fn resource_with_id(
    id: &ObjectId,
    portfolio: &Portfolio,
) -> Result<Option<(Number, Resource)>, AllocError>
    ensures { IfOk result (λ resource. resource ≡ resource_with_id id.now portfolio.now) }
{
    let Some(number) = number_in(b'r', id) else {
        return Ok(None);
    };
    match portfolio.resources.get(number) {
        Some(resource) => Ok(Some((number, resource.clone()?))),
        None => Ok(None),
    }
}

/// The resource whose id the text is, with its number.
pub fn resource_named(
    alloc: Global,
    portfolio: &Portfolio,
    text: &str,
) -> Result<Option<(Number, Resource)>, AllocError>
    ensures { IfOk result (λ resource. resource ≡ resource_named portfolio.now text.now) }
{
    match id_in(alloc, text)? {
        Some(id) => resource_with_id(&id, portfolio),
        None => Ok(None),
    }
}

/// The parts of the id of a shown event, before and behind its first `-`, where it has one.
pub fn id_parts(id: &ObjectId) -> (&str, Option<&str>)
    ensures front { result.0.now ≡ resource_part id.now }
    ensures back { option_copied result.1 ≡ event_part id.now }
{
    match id.as_str().split_once('-') {
        Some((resource, event)) => (resource, Some(event)),
        None => (id.as_str(), None),
    }
}
