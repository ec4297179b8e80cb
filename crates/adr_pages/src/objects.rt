//! What is kept of shown events, as objects.
ghost use Rattle.std.specs.Prelude.{◌≡◌, map, option_map, Some, IfOk, IfErr};
ghost use Rattle.adr_sql.specs.Calls.{LeavesLent};
ghost use Rattle.adr_db.specs.Calls.{Finds, IsOfStore};
ghost use Rattle.adr_pages.specs.Objects.{event_key, object_with, object_kept, shown_kept};

use crate::stamps::stamps_of;
use adr_db::{ShownColumns, ShownKey};
use adr_db_shown::read_shown_at;
use adr_db_state::read_stamps_of;
use adr_event_text::KeptEvent;
use adr_objects::Stamps;
use adr_queries::Object;
use adr_state::ViewKey;
use adr_text::{Refusal, Rows, Table};
use sqlite::{Alter, Transaction};
use std::alloc::{AllocError, Global};

// The key in the view.
fn event_key(alloc: Global, key: &ShownKey) -> Result<ViewKey, AllocError>
    ensures { IfOk result (λ k. k ≡ event_key key.now) }
{
    Ok(ViewKey::Event(key.event.copy(alloc)?, key.resource))
}

// What is kept in a row, as an object. Where it has no stamps, the store refuses.
fn object_of(
    key: ShownKey,
    columns: ShownColumns,
    stamps: Option<Stamps>,
) -> Result<Object, Refusal>
    ensures object { IfOk result (λ object. option_map (object_with key columns) stamps ≡ Some object) }
    ensures refused { IfErr result IsOfStore }
{
    let Some(stamps) = stamps else {
        return Err(Refusal::Store);
    };
    let ShownKey { event, resource } = key;
    let ShownColumns {
        program,
        ven: _,
        ven_name,
        resource_name,
        body,
    } = columns;
    Ok(Object::Event(KeptEvent {
        resource,
        event,
        program,
        ven_name,
        resource_name,
        stamps,
        body,
    }))
}

// The same with the stamps of its key.
fn told<S: Alter>(
    alloc: Global,
    tx: &mut Transaction<'_, S>,
    key: ShownKey,
    columns: ShownColumns,
) -> Result<Object, Refusal>
    ensures lent { LeavesLent S.Store tx.old.conn tx.new.conn result }
    ensures finds { Finds S.Store tx.old.conn.now tx.new.conn.now (λ kept object. object_kept kept.stamps (key, columns) ≡ Some object) result }
    ensures refused { IfErr result IsOfStore }
{
    let stamps = read_stamps_of(tx, &event_key(alloc, &key)?)?;
    object_of(key, columns, stamps)
}

// Each row as an object, with what these stamps have at its key.
fn all_told(
    alloc: Global,
    rows: Rows<(ShownKey, ShownColumns)>,
    stamps: &Table<ViewKey, Stamps>,
) -> Result<Rows<Object>, Refusal>
    ensures objects { IfOk result (λ objects. map Some objects ≡ map (object_kept stamps.now) rows) }
    ensures refused { IfErr result IsOfStore }
{
    let mut objects = Rows::new(alloc);
    'rows: for (key, columns) in rows.into_vec() {
        let place = event_key(alloc, &key)?;
        let object = object_of(key, columns, stamps.get(&place).copied())?;
        objects.push(object)?;
    }
    Ok(objects)
}

/// What is kept in rows of shown events, as objects, each with its stamps. These are read by their keys, those of rows near
/// each other at once; no text is read. A row without stamps is the store's refusal.
pub fn objects_of<S: Alter>(
    alloc: Global,
    tx: &mut Transaction<'_, S>,
    rows: Rows<(ShownKey, ShownColumns)>,
) -> Result<Rows<Object>, Refusal>
    ensures lent { LeavesLent S.Store tx.old.conn tx.new.conn result }
    ensures finds { Finds S.Store tx.old.conn.now tx.new.conn.now (λ kept objects. map Some objects ≡ map (object_kept kept.stamps) rows) result }
    ensures refused { IfErr result IsOfStore }
{
    let stamps = stamps_of(alloc, tx, rows.as_slice())?;
    all_told(alloc, rows, &stamps)
}

/// What a resource is shown of an event, by its row, with its stamps, where it is shown.
pub(crate) fn event_at<S: Alter>(
    alloc: Global,
    tx: &mut Transaction<'_, S>,
    key: ShownKey,
) -> Result<Option<Object>, Refusal>
    ensures lent { LeavesLent S.Store tx.old.conn tx.new.conn result }
    ensures finds { Finds S.Store tx.old.conn.now tx.new.conn.now (λ kept found. found ≡ shown_kept kept key) result }
    ensures refused { IfErr result IsOfStore }
{
    match read_shown_at(alloc, tx, &key)? {
        Some(columns) => Ok(Some(told(alloc, tx, key, columns)?)),
        None => Ok(None),
    }
}
