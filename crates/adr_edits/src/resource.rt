//! Resources: added to a ven, renamed and removed.
ghost use Rattle.std.specs.Prelude.{◌≡◌, ◌≢◌, Ok, Err, IfOk, IfErr};
ghost use Rattle.adr_text.specs.declared.refusal.Refusal.TheVariants.{Store};
ghost use Rattle.adr_text.specs.Refusals.{IsRefusalOf};
ghost use Rattle.adr_state.specs.Portfolios.{carried_out};
ghost use Rattle.adr_state.specs.Resources.{resource_under, resource_add, resource_put, resource_remove};

use adr_objects::{Number, ResourceName, ResourceObject};
use adr_state::{
    Limits, Portfolio, Resource, check_free, check_new, fresh, is_taken, is_taken_by_another,
    modified_at, number_in, resource_with_id,
};
use adr_text::{Moment, ObjectId, Refusal};
use adr_view::{is_under, resource_object, ven_at};
use std::alloc::AllocError;

/// The resource of that id, where it belongs to the ven of the other id.
fn resource_under(
    ven: &ObjectId,
    id: &ObjectId,
    portfolio: &Portfolio,
) -> Result<Option<(Number, Resource)>, AllocError>
    ensures { IfOk result (λ resource. resource ≡ resource_under ven.now id.now portfolio.now) }
{
    let Some((number, resource)) = resource_with_id(id, portfolio)? else {
        return Ok(None);
    };
    if !is_under(ven, portfolio, &resource) {
        return Ok(None);
    }
    Ok(Some((number, resource)))
}

/// A new resource for the ven of that id, under the number that is handed in.
pub fn resource_add(
    limits: &Limits,
    now: Moment,
    number: Number,
    portfolio: &mut Portfolio,
    ven: &ObjectId,
    name: &ResourceName,
) -> Result<ResourceObject, Refusal>
    ensures ok { IfOk result (λ answer. carried_out portfolio.old (resource_add limits.now now number ven.now name.now portfolio.old) ≡ Ok (answer, portfolio.new)) }
    ensures refused { IfErr result (λ refusal. IsRefusalOf refusal (resource_add limits.now now number ven.now name.now portfolio.old)) }
    ensures no_store { result ≢ Err Store }
{
    let Some(ven) = ven_at(ven, portfolio) else {
        return Err(Refusal::NotFound);
    };
    let taken = is_taken(portfolio.resources.rows(), name.as_name());
    check_new(
        taken,
        limits.resources.get() <= portfolio.resources.len() as u64,
    )?;
    let resource = Resource {
        ven,
        name: name.clone()?,
        stamps: fresh(now),
    };
    let object = resource_object(number, &resource)?;
    portfolio.resources.put(number, resource)?;
    Ok(object)
}

/// The resource of that id has the name from now on.
pub fn resource_put(
    now: Moment,
    portfolio: &mut Portfolio,
    ven: &ObjectId,
    id: &ObjectId,
    name: &ResourceName,
) -> Result<ResourceObject, Refusal>
    ensures ok { IfOk result (λ answer. carried_out portfolio.old (resource_put now ven.now id.now name.now portfolio.old) ≡ Ok (answer, portfolio.new)) }
    ensures refused { IfErr result (λ refusal. IsRefusalOf refusal (resource_put now ven.now id.now name.now portfolio.old)) }
    ensures no_store { result ≢ Err Store }
{
    let Some(number) = number_in(b'r', id) else {
        return Err(Refusal::NotFound);
    };
    let Some(old) = portfolio.resources.get(number) else {
        return Err(Refusal::NotFound);
    };
    if !is_under(ven, portfolio, old) {
        return Err(Refusal::NotFound);
    }
    check_free(is_taken_by_another(portfolio.resources.rows(), number, name.as_name()))?;
    let resource = Resource {
        ven: old.ven,
        name: name.clone()?,
        stamps: modified_at(now, old.stamps),
    };
    let object = resource_object(number, &resource)?;
    portfolio.resources.replace(number, resource);
    Ok(object)
}

/// The resource of that id goes, and is answered.
pub fn resource_remove(
    portfolio: &mut Portfolio,
    ven: &ObjectId,
    id: &ObjectId,
) -> Result<ResourceObject, Refusal>
    ensures ok { IfOk result (λ answer. carried_out portfolio.old (resource_remove ven.now id.now portfolio.old) ≡ Ok (answer, portfolio.new)) }
    ensures refused { IfErr result (λ refusal. IsRefusalOf refusal (resource_remove ven.now id.now portfolio.old)) }
    ensures no_store { result ≢ Err Store }
{
    let Some((number, resource)) = resource_under(ven, id, portfolio)? else {
        return Err(Refusal::NotFound);
    };
    let object = resource_object(number, &resource)?;
    portfolio.remove_resource(number);
    Ok(object)
}
