//! What was told and what is kept, compared with what whole views give.
use crate::held::Held;
use crate::objects::{ObjectsTold, ven_of};
use crate::refreshed::Told;
use adr_db::{RollupColumns, ShownColumns, ShownKey};
use adr_db_shown::{read_rollup, read_shown_of};
use adr_kept_view::{ObjectChange, RollupChange, ShownChange};
use adr_objects::{Number, Rollup, ShownEvent, Stamps};
use adr_shown::{write_rolled_up, write_shown};
use adr_state::ViewKey;
use adr_text::{ObjectId, Refusal, Table};
use adr_view::{Change, Content, Operation, View, changes_of, row_at};
use sqlite::{Alter, Transaction};
use std::alloc::{AllocError, Global};

/// What whole views give.
#[derive(Drop)]
pub struct Wanted {
    pub changes: Vec<Change>,
    pub stamps: Table<ViewKey, Stamps>,
}

/// Whether tables keep what is shown at a key.
pub fn is_kept(key: &ViewKey) -> bool {
    matches!(key, ViewKey::Event(_, _) | ViewKey::Rollup(_))
}

fn is_same_change(change: &Change, other: &Change) -> bool {
    change.key == other.key && change.operation == other.operation
}

// Whether the changes that are told are the wanted ones, in their order.
fn are_told(told: &[Change], wanted: &[Change]) -> bool {
    told.len() == wanted.len()
        && wanted
            .iter()
            .zip(told)
            .all(|(wanted, told)| is_same_change(wanted, told))
}

// What a resource is shown of an event.
fn shown_at<'v>(view: &'v View, key: &ViewKey) -> Option<&'v ShownEvent> {
    match row_at(view, key) {
        Some(Content::Event(shown)) => Some(shown),
        _ => None,
    }
}

fn rollup_at<'v>(view: &'v View, key: &ViewKey) -> Option<&'v Rollup> {
    match row_at(view, key) {
        Some(Content::Rollup(rollup)) => Some(rollup),
        _ => None,
    }
}

// Two shown events have one text only where they are the same.
fn is_same_shown(
    alloc: Global,
    shown: &ShownEvent,
    other: Option<&ShownEvent>,
) -> Result<bool, AllocError> {
    let Some(other) = other else {
        return Ok(false);
    };
    let text = write_shown(alloc, shown)?;
    Ok(text.as_str() == write_shown(alloc, other)?.as_str())
}

// The ven that owns a resource, or did.
fn owner(before: &Held, after: &Held, resource: Number) -> Option<Number> {
    match after.owner(resource) {
        Some(ven) => Some(ven),
        None => before.owner(resource),
    }
}

// The side of a step from which a change is told.
fn side<'h>(before: &'h Held, after: &'h Held, operation: Operation) -> &'h Held {
    match operation {
        Operation::Delete => before,
        _ => after,
    }
}

fn is_right_shown(
    alloc: Global,
    before: &Held,
    after: &Held,
    event: &ObjectId,
    change: &ShownChange,
) -> Result<bool, AllocError> {
    let key = ViewKey::Event(event.copy(alloc)?, change.resource);
    let side = side(before, after, change.operation);
    let is_shown = is_same_shown(alloc, &change.shown, shown_at(&side.view, &key))?;
    let is_stamped = row_at(&side.stamps, &key) == Some(&change.stamps);
    let is_owned = owner(before, after, change.resource) == Some(change.ven);
    Ok(is_shown && is_stamped && is_owned)
}

fn is_right_rollup(
    alloc: Global,
    after: &Held,
    event: &ObjectId,
    change: &RollupChange,
) -> Result<bool, AllocError> {
    let key = ViewKey::Rollup(event.copy(alloc)?);
    let Some(rollup) = rollup_at(&after.view, &key) else {
        return Ok(false);
    };
    let text = write_rolled_up(alloc, event, rollup)?;
    Ok(text.as_str() == write_rolled_up(alloc, event, &change.rollup)?.as_str())
}

// A view with one row.
fn view_at(alloc: Global, key: &ViewKey, content: &Content) -> Result<View, AllocError> {
    let mut view = Table::new(alloc);
    view.put(key.clone()?, content.clone()?)?;
    Ok(view)
}

// Whether there is no change from one content to the other.
fn is_same_content(
    alloc: Global,
    key: &ViewKey,
    content: &Content,
    other: Option<&Content>,
) -> Result<bool, AllocError> {
    let Some(other) = other else {
        return Ok(false);
    };
    let one = view_at(alloc, key, content)?;
    let two = view_at(alloc, key, other)?;
    Ok(changes_of(alloc, &one, &two)?.is_empty())
}

fn is_right_object(
    alloc: Global,
    before: &Held,
    after: &Held,
    key: &ViewKey,
    change: &ObjectChange,
) -> Result<bool, AllocError> {
    let side = side(before, after, change.operation);
    let is_there = is_same_content(alloc, key, &change.content, row_at(&side.view, key))?;
    let is_stamped = row_at(&side.stamps, key) == Some(&change.stamps);
    Ok(is_there && is_stamped && ven_of(side, &change.content) == change.ven)
}

fn are_right_objects(
    alloc: Global,
    before: &Held,
    after: &Held,
    told: &ObjectsTold,
) -> Result<bool, AllocError> {
    for (key, change) in told {
        if !is_right_object(alloc, before, after, key, change)? {
            return Ok(false);
        }
    }
    Ok(true)
}

// Whether what is told of each change is what the view and the stamps have there.
fn are_right(alloc: Global, before: &Held, after: &Held, told: &Told) -> Result<bool, AllocError> {
    if !are_right_objects(alloc, before, after, &told.programs)?
        || !are_right_objects(alloc, before, after, &told.reports)?
    {
        return Ok(false);
    }
    for (event, change) in &told.shown {
        if !is_right_shown(alloc, before, after, event, change)? {
            return Ok(false);
        }
    }
    for (event, change) in &told.rollups {
        if !is_right_rollup(alloc, after, event, change)? {
            return Ok(false);
        }
    }
    Ok(true)
}

fn is_of(key: &ViewKey, event: &ObjectId) -> bool {
    match key {
        ViewKey::Event(id, _) => id == event,
        _ => false,
    }
}

// To how many resources the view shows an event.
fn count_of(view: &View, event: &ObjectId) -> usize {
    view.iter().filter(|(key, _)| is_of(key, event)).count()
}

fn is_named(columns: &ShownColumns, shown: &ShownEvent) -> bool {
    columns.program == shown.program
        && columns.ven_name == shown.ven_name
        && columns.resource_name == shown.resource_name
}

// Whether a row of the table is what the view shows to its resource.
fn is_row_of(
    alloc: Global,
    held: &Held,
    event: &ObjectId,
    row: &(ShownKey, ShownColumns),
) -> Result<bool, AllocError> {
    let (key, columns) = row;
    let place = ViewKey::Event(event.copy(alloc)?, key.resource);
    let Some(shown) = shown_at(&held.view, &place) else {
        return Ok(false);
    };
    let text = write_shown(alloc, shown)?;
    Ok(
        key.event == *event
            && is_named(columns, shown)
            && held.owner(key.resource) == Some(columns.ven)
            && columns.body.as_str() == text.as_str(),
    )
}

// Whether the rows of the table, of which no two are of one resource, are what the view has of an event.
fn are_rows_of(
    alloc: Global,
    held: &Held,
    event: &ObjectId,
    rows: &[(ShownKey, ShownColumns)],
) -> Result<bool, AllocError> {
    for row in rows {
        if !is_row_of(alloc, held, event, row)? {
            return Ok(false);
        }
    }
    Ok(rows.len() == count_of(&held.view, event))
}

// Whether the table `shown` has of an event what the view has.
fn is_shown_kept<S: Alter>(
    alloc: Global,
    tx: &mut Transaction<'_, S>,
    held: &Held,
    event: &ObjectId,
) -> Result<bool, Refusal> {
    let rows = read_shown_of(alloc, tx, event)?;
    Ok(are_rows_of(alloc, held, event, rows.as_slice())?)
}

fn is_rollup_of(
    alloc: Global,
    event: &ObjectId,
    columns: Option<&RollupColumns>,
    rollup: Option<&Rollup>,
) -> Result<bool, AllocError> {
    match (columns, rollup) {
        (None, None) => Ok(true),
        (Some(columns), Some(rollup)) => {
            let text = write_rolled_up(alloc, event, rollup)?;
            Ok(columns.program == rollup.program && columns.body.as_str() == text.as_str())
        }
        _ => Ok(false),
    }
}

// Whether the table `rollup` has of an event what the view has.
fn is_rollup_kept<S: Alter>(
    alloc: Global,
    tx: &mut Transaction<'_, S>,
    held: &Held,
    event: &ObjectId,
) -> Result<bool, Refusal> {
    let columns = read_rollup(alloc, tx, event)?;
    let key = ViewKey::Rollup(event.copy(alloc)?);
    let rollup = rollup_at(&held.view, &key);
    Ok(is_rollup_of(alloc, event, columns.as_ref(), rollup)?)
}

fn are_same_stamps(stamps: &Table<ViewKey, Stamps>, others: &Table<ViewKey, Stamps>) -> bool {
    stamps.len() == others.len()
        && stamps
            .iter()
            .all(|(key, stamps)| row_at(others, key) == Some(stamps))
}

/// A step: what the tables held before it and hold behind it, and what was told.
#[derive(Clone, Copy)]
pub struct Step<'s> {
    pub before: &'s Held,
    pub after: &'s Held,
    pub told: &'s Told,
}

/// What differs in all that was told, in words.
pub fn differs_told(
    alloc: Global,
    step: &Step<'_>,
    wanted: &Wanted,
) -> Result<Option<&'static str>, Refusal> {
    let changes = step.told.changes(alloc)?;
    if !are_told(&changes, &wanted.changes) {
        return Ok(Some("the changes that are told"));
    }
    if !are_right(alloc, step.before, step.after, step.told)? {
        return Ok(Some("what is told of a change"));
    }
    if !are_same_stamps(&step.after.stamps, &wanted.stamps) {
        return Ok(Some("the stamps"));
    }
    Ok(None)
}

/// What differs in what is kept of an event, in words.
pub fn differs_kept<S: Alter>(
    alloc: Global,
    tx: &mut Transaction<'_, S>,
    held: &Held,
    event: &ObjectId,
) -> Result<Option<&'static str>, Refusal> {
    if !is_shown_kept(alloc, tx, held, event)? {
        return Ok(Some("what is kept of an event"));
    }
    if !is_rollup_kept(alloc, tx, held, event)? {
        return Ok(Some("what is kept of a roll-up"));
    }
    Ok(None)
}
