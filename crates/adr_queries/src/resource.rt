//! Resources of a ven, as they are listed, and one of them.
ghost use Rattle.std.specs.Prelude.{◌≡◌, ◌≢◌, Ok, Err, IfOk, IfErr};
ghost use Rattle.adr_text.specs.declared.refusal.Refusal.TheVariants.{Store};
ghost use Rattle.adr_text.specs.Refusals.{IsRefusalOf};
ghost use Rattle.adr_queries.specs.Listings.{resources_of, resources_reply, resource_reply};

use crate::answer::{Answer, Object};
use crate::page::page_of;
use crate::query::Page;
use crate::role::Role;
use crate::sight::sight_of;
use adr_objects::Number;
use adr_state::{Base, resource_with_id};
use adr_text::{ObjectId, Refusal, Rows};
use adr_view::{is_under, resource_object, sees_ven, ven_at};
use std::alloc::{AllocError, Global};

/// The resources of a ven, by number.
fn resources_of(alloc: Global, base: &Base, ven: Number) -> Result<Vec<Object>, AllocError>
    ensures { IfOk result (λ all. all.items ≡ resources_of base.now ven) }
{
    let mut all = Vec::new(alloc);
    for (number, resource) in base.portfolio.resources.iter() {
        if resource.ven == ven {
            all.push(Object::Resource(resource_object(*number, resource)?))?;
        }
    }
    Ok(all)
}

/// The resources of the ven of an id; `NotFound` where the ven isn't there, `Forbidden` where it is out
/// of sight.
pub(crate) fn resources_reply(
    alloc: Global,
    base: &Base,
    role: &Role,
    ven: &ObjectId,
    page: Page,
) -> Result<Answer, Refusal>
    ensures ok { IfOk result (λ answer. resources_reply base.now role.now ven.now page ≡ Ok answer) }
    ensures refused { IfErr result (λ refusal. IsRefusalOf refusal (resources_reply base.now role.now ven.now page)) }
    ensures no_store { result ≢ Err Store }
{
    let sight = sight_of(base, role)?;
    let Some(ven) = ven_at(ven, &base.portfolio) else {
        return Err(Refusal::NotFound);
    };
    if !sees_ven(sight, ven) {
        return Err(Refusal::Forbidden);
    }
    let resources = resources_of(alloc, base, ven)?;
    Ok(Answer::List(Rows::from_vec(page_of(alloc, page, resources)?)))
}

/// The resource of an id under the ven of another; `Forbidden` where it is out of sight, whatever ven is
/// named, and `NotFound` where it isn't there or under another ven.
pub(crate) fn resource_reply(
    base: &Base,
    role: &Role,
    ven: &ObjectId,
    id: &ObjectId,
) -> Result<Answer, Refusal>
    ensures ok { IfOk result (λ answer. resource_reply base.now role.now ven.now id.now ≡ Ok answer) }
    ensures refused { IfErr result (λ refusal. IsRefusalOf refusal (resource_reply base.now role.now ven.now id.now)) }
    ensures no_store { result ≢ Err Store }
{
    let sight = sight_of(base, role)?;
    let Some((number, resource)) = resource_with_id(id, &base.portfolio)? else {
        return Err(Refusal::NotFound);
    };
    if !sees_ven(sight, resource.ven) {
        return Err(Refusal::Forbidden);
    }
    if !is_under(ven, &base.portfolio, &resource) {
        return Err(Refusal::NotFound);
    }
    Ok(Answer::Object(Object::Resource(resource_object(number, &resource)?)))
}
