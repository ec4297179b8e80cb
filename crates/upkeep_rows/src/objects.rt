//! Programs and reports, refreshed by what stood there before.
use crate::held::Held;
use adr_kept_view::{ObjectChange, ObjectKey, OldObject};
use adr_objects::Number;
use adr_state::ViewKey;
use adr_text::{Moment, ObjectId, Refusal};
use adr_upkeep::refresh_object;
use adr_view::{Content, row_at};
use sqlite::{Alter, Transaction};
use std::alloc::{AllocError, Global};
use std::collections::BTreeSet;

/// What is told of programs or of reports, each at its key.
pub type ObjectsTold = Vec<(ViewKey, ObjectChange)>;

/// The key in the view.
fn view_key(alloc: Global, key: &ObjectKey) -> Result<ViewKey, AllocError> {
    match key {
        ObjectKey::Program(id) => Ok(ViewKey::Program(id.copy(alloc)?)),
        ObjectKey::Report(number) => Ok(ViewKey::Report(*number)),
    }
}

/// The ven that owns the resource of a report; a program is of none.
pub fn ven_of(held: &Held, content: &Content) -> Option<Number> {
    match content {
        Content::Report(body) => held.owner(body.head.resource),
        _ => None,
    }
}

// What stood at a key.
fn old_object(before: &Held, place: &ViewKey, key: ObjectKey) -> Result<OldObject, AllocError> {
    match row_at(&before.view, place) {
        Some(content) => Ok(OldObject {
            key,
            content: Some(content.clone()?),
            ven: ven_of(before, content),
        }),
        None => Ok(OldObject {
            key,
            content: None,
            ven: None,
        }),
    }
}

fn refresh_at<S: Alter>(
    alloc: Global,
    tx: &mut Transaction<'_, S>,
    before: &Held,
    told: &mut ObjectsTold,
    key: ObjectKey,
    now: Moment,
) -> Result<(), Refusal> {
    let place = view_key(alloc, &key)?;
    let old = old_object(before, &place, key)?;
    if let Some(change) = refresh_object(alloc, tx, &old, now)? {
        told.push((place, change))?;
    }
    Ok(())
}

/// Refreshes programs, in the order of their ids.
pub fn refresh_programs<S: Alter>(
    alloc: Global,
    tx: &mut Transaction<'_, S>,
    before: &Held,
    programs: &BTreeSet<ObjectId>,
    now: Moment,
) -> Result<ObjectsTold, Refusal> {
    let mut told = Vec::new(alloc);
    for id in programs {
        let key = ObjectKey::Program(id.copy(alloc)?);
        refresh_at(alloc, tx, before, &mut told, key, now)?;
    }
    Ok(told)
}

/// Refreshes reports, in the order of their numbers.
pub fn refresh_reports<S: Alter>(
    alloc: Global,
    tx: &mut Transaction<'_, S>,
    before: &Held,
    reports: &BTreeSet<Number>,
    now: Moment,
) -> Result<ObjectsTold, Refusal> {
    let mut told = Vec::new(alloc);
    for number in reports {
        refresh_at(
            alloc,
            tx,
            before,
            &mut told,
            ObjectKey::Report(*number),
            now,
        )?;
    }
    Ok(told)
}
