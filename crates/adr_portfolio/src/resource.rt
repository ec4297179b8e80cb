//! Resources are added to a ven, renamed and removed.
ghost use Rattle.std.specs.Prelude.{◌≡◌, Some, IfOk, IfErr, [], ◌∷◌, is_some};
ghost use Rattle.adr_text.specs.declared.refusal.Refusal.TheVariants.{NotFound, Conflict, LimitReached};
ghost use Rattle.adr_state.specs.Stamping.{modified_at};
ghost use Rattle.adr_state.specs.Resources.{resource_under, resource_object, resource_add, resource_put, resource_remove};
ghost use Rattle.adr_sql.specs.Calls.{LeavesLent};
ghost use Rattle.adr_db.specs.Calls.{Finds, IsOfStore, IsOneOf};
ghost use Rattle.adr_db.specs.BaseCalls.{Carries, RefusesOn};
ghost use Rattle.adr_portfolio.specs.Found.{found_under};

use crate::found::there;
use crate::names::is_another_there;
use adr_counted::{add_resource, put_resource, remove_resource};
use adr_db::Meta;
use adr_db_portfolio::{read_resource, read_resources_named, read_ven, ven_at};
use adr_objects::{Number, ResourceName, ResourceObject};
use adr_state::{Limits, Resource, check_free, check_new, fresh, modified_at, number_in};
use adr_text::{Moment, ObjectId, Refusal};
use sqlite::{Alter, Transaction};
use std::alloc::{AllocError, Global};

fn copy_of(name: &ResourceName) -> Result<ResourceName, AllocError>
    ensures { IfOk result (λ copy. copy ≡ name.now) }
{
    name.clone()
}

fn shown(alloc: Global, number: Number, resource: &Resource) -> Result<ResourceObject, AllocError>
    ensures { IfOk result (λ object. object ≡ resource_object (number, resource.now)) }
{
    Ok(ResourceObject {
        number,
        ven: resource.ven,
        name: resource.name.as_name().copy(alloc)?,
        stamps: resource.stamps,
    })
}

/// Adds a resource to the ven of an id, under the number that is handed in. The numbers of the node are handed in too,
/// and are left as the caller has to put them. Refused with `NotFound` where the ven isn't there, then with `Conflict`
/// where the name is taken, and with `LimitReached`.
pub fn resource_add<S: Alter>(
    alloc: Global,
    tx: &mut Transaction<'_, S>,
    limits: &Limits,
    meta: &mut Meta,
    now: Moment,
    number: Number,
    ven: &ObjectId,
    name: &ResourceName,
) -> Result<ResourceObject, Refusal>
    ensures lent { LeavesLent S.Store tx.old.conn tx.new.conn result }
    ensures carries { Carries S.Store tx.old.conn.now tx.new.conn.now (λ base. resource_add limits.now now number ven.now name.now base.portfolio) meta.old meta.new result }
    ensures refuses { RefusesOn S.Store tx.old.conn.now tx.new.conn.now (λ base. resource_add limits.now now number ven.now name.now base.portfolio) meta.old result }
    ensures refused { IfErr result (IsOneOf (NotFound ∷ Conflict ∷ LimitReached ∷ [])) }
{
    let found = ven_at(alloc, tx, ven)?;
    let ven = there(found)?;
    let named = read_resources_named(alloc, tx, name)?;
    check_new(!named.is_empty(), limits.resources.get() <= meta.resources)?;
    let resource = Resource {
        ven,
        name: copy_of(name)?,
        stamps: fresh(now),
    };
    add_resource(alloc, tx, meta, number, &resource)?;
    Ok(shown(alloc, number, &resource)?)
}

/// The resource of an id with its number, where it belongs to the ven of the other id.
fn read_under<S: Alter>(
    alloc: Global,
    tx: &mut Transaction<'_, S>,
    ven: &ObjectId,
    id: &ObjectId,
) -> Result<Option<(Number, Resource)>, Refusal>
    ensures lent { LeavesLent S.Store tx.old.conn tx.new.conn result }
    ensures finds { Finds S.Store tx.old.conn.now tx.new.conn.now (λ kept found. found ≡ resource_under ven.now id.now kept.portfolio) result }
    ensures refused { IfErr result IsOfStore }
{
    let Some(number) = number_in(b'r', id) else {
        return Ok(None);
    };
    let Some(owner) = number_in(b'v', ven) else {
        return Ok(None);
    };
    let found = read_ven(alloc, tx, owner)?;
    let resource = read_resource(alloc, tx, number)?;
    Ok(under(number, resource, owner, found.is_some()))
}

// The resource, where it belongs to that ven, which is there.
fn under(
    number: Number,
    resource: Option<Resource>,
    owner: Number,
    is_there: bool,
) -> Option<(Number, Resource)>
    ensures { result ≡ found_under number resource owner is_there }
{
    let found = resource?;
    if !is_there || owner != found.ven {
        return None;
    }
    Some((number, found))
}

fn renamed(now: Moment, name: &ResourceName, resource: &Resource) -> Result<Resource, AllocError>
    ensures { IfOk result (λ again. again ≡ record { ven = resource.now.ven; name = name.now; stamps = modified_at now resource.now.stamps }) }
{
    Ok(Resource {
        ven: resource.ven,
        name: name.clone()?,
        stamps: modified_at(now, resource.stamps),
    })
}

/// Gives a resource of a ven its name anew: it stays with its ven, keeps when it was created, and was
/// modified now. The numbers of the node are handed in, as to `resource_add`. Refused with `NotFound` where it isn't
/// there, or belongs to another ven, and with `Conflict` where another resource has the name.
pub fn resource_put<S: Alter>(
    alloc: Global,
    tx: &mut Transaction<'_, S>,
    meta: &mut Meta,
    now: Moment,
    ven: &ObjectId,
    id: &ObjectId,
    name: &ResourceName,
) -> Result<ResourceObject, Refusal>
    ensures lent { LeavesLent S.Store tx.old.conn tx.new.conn result }
    ensures carries { Carries S.Store tx.old.conn.now tx.new.conn.now (λ base. resource_put now ven.now id.now name.now base.portfolio) meta.old meta.new result }
    ensures refuses { RefusesOn S.Store tx.old.conn.now tx.new.conn.now (λ base. resource_put now ven.now id.now name.now base.portfolio) meta.old result }
    ensures refused { IfErr result (IsOneOf (NotFound ∷ Conflict ∷ [])) }
{
    let found = read_under(alloc, tx, ven, id)?;
    let row = there(found)?;
    let number = row.0;
    let named = read_resources_named(alloc, tx, name)?;
    check_free(is_another_there(number, named.as_slice()))?;
    let resource = renamed(now, name, &row.1)?;
    put_resource(tx, meta, number, &resource, true)?;
    Ok(shown(alloc, number, &resource)?)
}

/// Removes a resource of a ven with its shares, and answers the resource that went. The numbers of the node are handed
/// in, as to `resource_add`. Refused with `NotFound` where it isn't there, or belongs to another ven.
pub fn resource_remove<S: Alter>(
    alloc: Global,
    tx: &mut Transaction<'_, S>,
    meta: &mut Meta,
    ven: &ObjectId,
    id: &ObjectId,
) -> Result<ResourceObject, Refusal>
    ensures lent { LeavesLent S.Store tx.old.conn tx.new.conn result }
    ensures carries { Carries S.Store tx.old.conn.now tx.new.conn.now (λ base. resource_remove ven.now id.now base.portfolio) meta.old meta.new result }
    ensures refuses { RefusesOn S.Store tx.old.conn.now tx.new.conn.now (λ base. resource_remove ven.now id.now base.portfolio) meta.old result }
    ensures refused { IfErr result (IsOneOf (NotFound ∷ [])) }
{
    let found = read_under(alloc, tx, ven, id)?;
    let row = there(found)?;
    let number = row.0;
    remove_resource(alloc, tx, meta, number)?;
    Ok(shown(alloc, number, &row.1)?)
}
