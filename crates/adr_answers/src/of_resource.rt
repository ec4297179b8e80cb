//! A resource, by its own row and that of the ven that is named with it.
ghost use Rattle.std.specs.Prelude.{◌≡◌, ◌==◌, false, [], ◌∷◌, Ok, IfOk, IfErr};
ghost use Rattle.std.specs.Option.{option_map_or};
ghost use Rattle.adr_text.specs.Refusals.{IsRefusalOf};
ghost use Rattle.adr_text.specs.declared.refusal.Refusal.TheVariants.{Forbidden, NotFound};
ghost use Rattle.adr_state.specs.Resources.{resource_with_id};
ghost use Rattle.adr_queries.specs.Listings.{resource_told, resource_reply};
ghost use Rattle.adr_sql.specs.Calls.{LeavesLent};
ghost use Rattle.adr_db.specs.Calls.{IsOneOf};
ghost use Rattle.adr_db.specs.BaseCalls.{Refuses};
ghost use Rattle.adr_db.specs.Images.{image_kept};
ghost use Rattle.adr_answers.specs.Calls.{FindsOr};
ghost use Rattle.adr_answers.specs.Told.{resource_in_sight, resource_of, resource_under};

use crate::sight::sight_in;
use adr_db_portfolio::{resource_with_id, ven_at};
use adr_objects::Number;
use adr_queries::{Answer, Object, Role};
use adr_state::Resource;
use adr_text::{ObjectId, Refusal};
use adr_view::{Sight, resource_object, sees_ven};
use sqlite::{Alter, Transaction};
use std::alloc::Global;

// The resource that was found, where who sees this much sees it.
fn resource_in_sight(
    sight: Sight,
    found: Option<(Number, Resource)>,
) -> Result<(Number, Resource), Refusal>
    ensures gives { result ≡ resource_in_sight sight found }
    ensures listed { IfErr result (IsOneOf (Forbidden ∷ NotFound ∷ [])) }
{
    let Some((number, resource)) = found else {
        return Err(Refusal::NotFound);
    };
    if !sees_ven(sight, resource.ven) {
        return Err(Refusal::Forbidden);
    }
    Ok((number, resource))
}

// The resource of an id, where who sees this much sees it.
fn read_in_sight<S: Alter>(
    alloc: Global,
    tx: &mut Transaction<'_, S>,
    sight: Sight,
    id: &ObjectId,
) -> Result<(Number, Resource), Refusal>
    ensures lent { LeavesLent S.Store tx.old.conn tx.new.conn result }
    ensures finds { FindsOr S.Store tx.old.conn.now tx.new.conn.now (λ kept. resource_in_sight sight (resource_with_id id.now kept.portfolio)) result }
    ensures refuses { Refuses S.Store tx.old.conn.now tx.new.conn.now (λ kept. resource_in_sight sight (resource_with_id id.now kept.portfolio)) result }
    ensures listed { IfErr result (IsOneOf (Forbidden ∷ NotFound ∷ [])) }
{
    let found = resource_with_id(alloc, tx, id)?;
    resource_in_sight(sight, found)
}

// Whether a resource is of the ven of a number.
fn is_of(ven: Option<Number>, resource: &Resource) -> bool
    ensures { result ≡ option_map_or (λ n. n == resource.now.ven) ven false }
{
    match ven {
        Some(number) => number == resource.ven,
        None => false,
    }
}

// A resource, where it is of the ven of a number.
fn resource_of(ven: Option<Number>, number: Number, resource: &Resource) -> Result<Answer, Refusal>
    ensures ok { IfOk result (λ answer. resource_of ven (number, resource.now) ≡ Ok answer) }
    ensures refused { IfErr result (λ refusal. IsRefusalOf refusal (resource_of ven (number, resource.now))) }
    ensures listed { IfErr result (IsOneOf (Forbidden ∷ NotFound ∷ [])) }
{
    if !is_of(ven, resource) {
        return Err(Refusal::NotFound);
    }
    Ok(Answer::Object(Object::Resource(resource_object(number, resource)?)))
}

// A resource, where it is of the ven of an id.
fn resource_under<S: Alter>(
    alloc: Global,
    tx: &mut Transaction<'_, S>,
    ven: &ObjectId,
    number: Number,
    resource: &Resource,
) -> Result<Answer, Refusal>
    ensures lent { LeavesLent S.Store tx.old.conn tx.new.conn result }
    ensures finds { FindsOr S.Store tx.old.conn.now tx.new.conn.now (λ kept. resource_under ven.now kept.portfolio (number, resource.now)) result }
    ensures refuses { Refuses S.Store tx.old.conn.now tx.new.conn.now (λ kept. resource_under ven.now kept.portfolio (number, resource.now)) result }
    ensures listed { IfErr result (IsOneOf (Forbidden ∷ NotFound ∷ [])) }
{
    let ven = ven_at(alloc, tx, ven)?;
    resource_of(ven, number, resource)
}

// The resource of an id under the ven of another, by who sees this much.
fn resource_seen<S: Alter>(
    alloc: Global,
    tx: &mut Transaction<'_, S>,
    sight: Sight,
    ven: &ObjectId,
    id: &ObjectId,
) -> Result<Answer, Refusal>
    ensures lent { LeavesLent S.Store tx.old.conn tx.new.conn result }
    ensures finds { FindsOr S.Store tx.old.conn.now tx.new.conn.now (λ kept. resource_told (image_kept kept).base ven.now sight (resource_with_id id.now kept.portfolio)) result }
    ensures refuses { Refuses S.Store tx.old.conn.now tx.new.conn.now (λ kept. resource_told (image_kept kept).base ven.now sight (resource_with_id id.now kept.portfolio)) result }
    ensures listed { IfErr result (IsOneOf (Forbidden ∷ NotFound ∷ [])) }
{
    let row = read_in_sight(alloc, tx, sight, id)?;
    resource_under(alloc, tx, ven, row.0, &row.1)
}

/// The resource of an id under the ven of another; `Forbidden` where it is out of sight, whatever ven is named, and
/// `NotFound` where it isn't there or is under another ven. No ven is looked for unless the resource is in sight.
pub fn resource<S: Alter>(
    alloc: Global,
    tx: &mut Transaction<'_, S>,
    role: &Role,
    ven: &ObjectId,
    id: &ObjectId,
) -> Result<Answer, Refusal>
    ensures lent { LeavesLent S.Store tx.old.conn tx.new.conn result }
    ensures finds { FindsOr S.Store tx.old.conn.now tx.new.conn.now (λ kept. resource_reply (image_kept kept).base role.now ven.now id.now) result }
    ensures refuses { Refuses S.Store tx.old.conn.now tx.new.conn.now (λ kept. resource_reply (image_kept kept).base role.now ven.now id.now) result }
    ensures listed { IfErr result (IsOneOf (Forbidden ∷ NotFound ∷ [])) }
{
    let sight = sight_in(alloc, tx, role)?;
    resource_seen(alloc, tx, sight, ven, id)
}
