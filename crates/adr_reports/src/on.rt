//! The shown event that a report is on, from the tables.
ghost use Rattle.std.specs.Prelude.{◌≡◌, is_some, IfOk, IfErr};
ghost use Rattle.adr_state.specs.Resources.{resource_with_id};
ghost use Rattle.adr_state.specs.ShownIds.{resource_named};
ghost use Rattle.adr_state.specs.Frozen.{frozen_key, frozen_weight};
ghost use Rattle.adr_state.specs.Participants.{weight_by_share, weight_in, participant_of};
ghost use Rattle.adr_view.specs.Reports.{is_shown_to, reported_of, reported_by, reported_in, reported};
ghost use Rattle.adr_sql.specs.Calls.{LeavesLent};
ghost use Rattle.adr_db.specs.Calls.{Finds, IsOfStore};

use crate::frozen_share::read_frozen_share;
use adr_db_mirror::read_known;
use adr_db_portfolio::{is_frozen, read_share, read_ven, resource_with_id};
use adr_objects::{EventBody, Number};
use adr_state::{FrozenKey, Resource, ShareKey, id_in, id_parts, is_for};
use adr_text::{ObjectId, Refusal};
use adr_view::{Reported, carries, event_body, event_key};
use sqlite::{Alter, Transaction};
use std::alloc::{AllocError, Global};

/// The resource whose id the text is, with its number.
pub fn resource_named<S: Alter>(
    alloc: Global,
    tx: &mut Transaction<'_, S>,
    text: &str,
) -> Result<Option<(Number, Resource)>, Refusal>
    ensures lent { LeavesLent S.Store tx.old.conn tx.new.conn result }
    ensures finds { Finds S.Store tx.old.conn.now tx.new.conn.now (λ kept found. found ≡ resource_named kept.portfolio text.now) result }
    ensures refused { IfErr result IsOfStore }
{
    match id_in(alloc, text)? {
        Some(id) => resource_with_id(alloc, tx, &id),
        None => Ok(None),
    }
}

fn key_of(program: &ObjectId, resource: Number) -> Result<ShareKey, AllocError>
    ensures { IfOk result (λ key. key ≡ record { program = program.now; resource = resource }) }
{
    Ok(ShareKey {
        program: program.clone()?,
        resource,
    })
}

fn frozen_key_of(event: &ObjectId, resource: Number) -> Result<FrozenKey, AllocError>
    ensures { IfOk result (λ key. key ≡ frozen_key event.now resource) }
{
    Ok(FrozenKey {
        event: event.clone()?,
        resource,
    })
}

// Whether a weight is kept for the resource in the event, of those that are frozen.
fn has_frozen<S: Alter>(
    tx: &mut Transaction<'_, S>,
    id: &ObjectId,
    number: Number,
) -> Result<bool, Refusal>
    ensures lent { LeavesLent S.Store tx.old.conn tx.new.conn result }
    ensures finds { Finds S.Store tx.old.conn.now tx.new.conn.now (λ kept yes. yes ≡ is_some (frozen_weight kept.portfolio id.now number)) result }
    ensures refused { IfErr result IsOfStore }
{
    let key = frozen_key_of(id, number)?;
    let weight = read_frozen_share(tx, &key)?;
    Ok(weight.is_some())
}

// Whether the resource has a share in the event's program, and the event is for a resource of its name.
fn has_share<S: Alter>(
    tx: &mut Transaction<'_, S>,
    event: &EventBody,
    number: Number,
    resource: &Resource,
) -> Result<bool, Refusal>
    ensures lent { LeavesLent S.Store tx.old.conn tx.new.conn result }
    ensures finds { Finds S.Store tx.old.conn.now tx.new.conn.now (λ kept yes. yes ≡ is_some (weight_by_share kept.portfolio event.now (number, resource.now))) result }
    ensures refused { IfErr result IsOfStore }
{
    if !is_for(&event.resource_names, resource.name.as_name()) {
        return Ok(false);
    }
    let key = key_of(&event.program, number)?;
    let share = read_share(tx, &key)?;
    Ok(share.is_some())
}

// Whether the resource has a weight in the event of the id.
fn has_weight<S: Alter>(
    alloc: Global,
    tx: &mut Transaction<'_, S>,
    id: &ObjectId,
    event: &EventBody,
    number: Number,
    resource: &Resource,
) -> Result<bool, Refusal>
    ensures lent { LeavesLent S.Store tx.old.conn tx.new.conn result }
    ensures finds { Finds S.Store tx.old.conn.now tx.new.conn.now (λ kept yes. yes ≡ is_some (weight_in kept.portfolio id.now event.now (number, resource.now))) result }
    ensures refused { IfErr result IsOfStore }
{
    if is_frozen(alloc, tx, id)? {
        return has_frozen(tx, id, number);
    }
    has_share(tx, event, number, resource)
}

// Whether the resource takes part in the event of the id.
fn takes_part<S: Alter>(
    alloc: Global,
    tx: &mut Transaction<'_, S>,
    id: &ObjectId,
    event: &EventBody,
    number: Number,
    resource: &Resource,
) -> Result<bool, Refusal>
    ensures lent { LeavesLent S.Store tx.old.conn tx.new.conn result }
    ensures finds { Finds S.Store tx.old.conn.now tx.new.conn.now (λ kept yes. yes ≡ is_some (participant_of kept.portfolio id.now event.now (number, resource.now))) result }
    ensures refused { IfErr result IsOfStore }
{
    let has = has_weight(alloc, tx, id, event, number, resource)?;
    if !has {
        return Ok(false);
    }
    let ven = read_ven(alloc, tx, resource.ven)?;
    Ok(ven.is_some())
}

// Whether the event of the id is shown to the resource.
fn is_shown_to<S: Alter>(
    alloc: Global,
    tx: &mut Transaction<'_, S>,
    id: &ObjectId,
    event: &EventBody,
    number: Number,
    resource: &Resource,
) -> Result<bool, Refusal>
    ensures lent { LeavesLent S.Store tx.old.conn tx.new.conn result }
    ensures finds { Finds S.Store tx.old.conn.now tx.new.conn.now (λ kept yes. yes ≡ is_shown_to kept.portfolio id.now event.now (number, resource.now)) result }
    ensures refused { IfErr result IsOfStore }
{
    if !carries(event) {
        return Ok(false);
    }
    takes_part(alloc, tx, id, event, number, resource)
}

fn on(
    id: &ObjectId,
    event: &EventBody,
    number: Number,
    resource: &Resource,
) -> Result<Reported, AllocError>
    ensures { IfOk result (λ on. on ≡ record { event = id.now; program = event.now.program; resource = number; resource_name = resource.now.name }) }
{
    Ok(Reported {
        event: id.clone()?,
        program: event.program.clone()?,
        resource: number,
        resource_name: resource.name.as_name().clone()?,
    })
}

// The event and the resource, where the event is shown to it.
fn reported_of<S: Alter>(
    alloc: Global,
    tx: &mut Transaction<'_, S>,
    id: &ObjectId,
    event: &EventBody,
    number: Number,
    resource: &Resource,
) -> Result<Option<Reported>, Refusal>
    ensures lent { LeavesLent S.Store tx.old.conn tx.new.conn result }
    ensures finds { Finds S.Store tx.old.conn.now tx.new.conn.now (λ kept found. found ≡ reported_of kept.portfolio (number, resource.now) id.now event.now) result }
    ensures refused { IfErr result IsOfStore }
{
    let shown = is_shown_to(alloc, tx, id, event, number, resource)?;
    if !shown {
        return Ok(None);
    }
    Ok(Some(on(id, event, number, resource)?))
}

// By the id of the upstream event.
fn reported_by<S: Alter>(
    alloc: Global,
    tx: &mut Transaction<'_, S>,
    id: &ObjectId,
    number: Number,
    resource: &Resource,
) -> Result<Option<Reported>, Refusal>
    ensures lent { LeavesLent S.Store tx.old.conn tx.new.conn result }
    ensures finds { Finds S.Store tx.old.conn.now tx.new.conn.now (λ kept found. found ≡ reported_by kept.mirror kept.portfolio id.now (number, resource.now)) result }
    ensures refused { IfErr result IsOfStore }
{
    let key = event_key(id)?;
    let known = read_known(alloc, tx, &key)?;
    match event_body(known.as_ref()) {
        Some(event) => reported_of(alloc, tx, id, event, number, resource),
        None => Ok(None),
    }
}

// By the two parts of the id of a shown event.
fn reported_in<S: Alter>(
    alloc: Global,
    tx: &mut Transaction<'_, S>,
    resource: &str,
    event: &str,
) -> Result<Option<Reported>, Refusal>
    ensures lent { LeavesLent S.Store tx.old.conn tx.new.conn result }
    ensures finds { Finds S.Store tx.old.conn.now tx.new.conn.now (λ kept found. found ≡ reported_in kept.mirror kept.portfolio resource.now event.now) result }
    ensures refused { IfErr result IsOfStore }
{
    let Some(row) = resource_named(alloc, tx, resource)? else {
        return Ok(None);
    };
    match id_in(alloc, event)? {
        Some(id) => reported_by(alloc, tx, &id, row.0, &row.1),
        None => Ok(None),
    }
}

/// The shown event of an id, where it is there.
pub(crate) fn reported<S: Alter>(
    alloc: Global,
    tx: &mut Transaction<'_, S>,
    id: &ObjectId,
) -> Result<Option<Reported>, Refusal>
    ensures lent { LeavesLent S.Store tx.old.conn tx.new.conn result }
    ensures finds { Finds S.Store tx.old.conn.now tx.new.conn.now (λ kept found. found ≡ reported kept.mirror kept.portfolio id.now) result }
    ensures refused { IfErr result IsOfStore }
{
    match id_parts(id) {
        (resource, Some(event)) => reported_in(alloc, tx, resource, event),
        (_, None) => Ok(None),
    }
}
