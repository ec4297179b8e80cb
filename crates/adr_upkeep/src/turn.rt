//! What becomes of what one resource is shown of an event: it appears, differs, goes or stays, and what is kept of it and
//! its stamps with it.
ghost use Rattle.std.specs.Prelude.{◌≡◌, Ok, None, Some, IfOk, IfErr, IfSome, OnOk};
ghost use Rattle.std.specs.Option.{option_copied};
ghost use Rattle.adr_state.specs.declared.keys.ViewKey.TheVariants as key;
ghost use Rattle.adr_sql.specs.Calls.{LeavesLent};
ghost use Rattle.adr_db.specs.Kept.{with_shown, with_stamps};
ghost use Rattle.adr_db.specs.Calls.{Turns, IsOfStore};
ghost use Rattle.adr_shown.specs.ShownTexts.{shown_text};
ghost use Rattle.adr_shown.specs.ReadShown.{shown_of};
ghost use Rattle.adr_kept_view.specs.Columns.{columns_of};
ghost use Rattle.adr_kept_view.specs.Changes.{owner_in, change_at, kept_with};

use crate::columns::shown_columns;
use crate::owner::owner;
use crate::stamps::stamps_put;
use adr_db::{ShownColumns, ShownKey};
use adr_db_shown::{put_shown, remove_shown};
use adr_db_state::{put_stamps, remove_stamps};
use adr_kept_view::ShownChange;
use adr_objects::{Number, ShownEvent, Stamps};
use adr_shown::{read_shown, write_shown};
use adr_state::{ViewKey, fresh};
use adr_text::{Moment, ObjectId, Refusal};
use adr_view::Operation;
use sqlite::{Alter, Transaction};
use std::alloc::{AllocError, Global};

// The key of what a resource is shown of an event, in the table `shown`.
fn shown_key(alloc: Global, event: &ObjectId, resource: Number) -> Result<ShownKey, AllocError>
    ensures { IfOk result (λ k. k ≡ record { event = event.now; resource = resource }) }
{
    Ok(ShownKey {
        event: event.copy(alloc)?,
        resource,
    })
}

// The same in the view.
fn view_key(alloc: Global, event: &ObjectId, resource: Number) -> Result<ViewKey, AllocError>
    ensures { IfOk result (λ k. k ≡ key.Event event.now resource) }
{
    Ok(ViewKey::Event(event.copy(alloc)?, resource))
}

// Puts what a resource is shown of an event, whose text this is, with its stamps, and answers the ven that owns the
// resource.
fn put<S: Alter>(
    alloc: Global,
    tx: &mut Transaction<'_, S>,
    event: &ObjectId,
    resource: Number,
    shown: &ShownEvent,
    text: &str,
    stamps: Stamps,
) -> Result<Number, Refusal>
    requires { text.now ≡ shown_text shown.now }
    ensures lent { LeavesLent S.Store tx.old.conn tx.new.conn result }
    ensures turns { Turns S.Store tx.old.conn.now tx.new.conn.now (λ kept. with_stamps (key.Event event.now resource) stamps (with_shown (record { event = event.now; resource = resource }) (columns_of (owner_in kept.portfolio resource) shown.now) kept)) (λ kept ven. ven ≡ owner_in kept.portfolio resource) result }
    ensures refused { IfErr result IsOfStore }
{
    let ven = owner(alloc, tx, resource)?;
    let columns = shown_columns(alloc, ven, shown, text)?;
    put_shown(tx, &shown_key(alloc, event, resource)?, &columns)?;
    put_stamps(tx, &view_key(alloc, event, resource)?, stamps)?;
    Ok(ven)
}

// What a resource is shown of an event appears, with both stamps now.
fn appear<S: Alter>(
    alloc: Global,
    tx: &mut Transaction<'_, S>,
    event: &ObjectId,
    now: Moment,
    resource: Number,
    shown: &ShownEvent,
) -> Result<ShownChange, Refusal>
    ensures lent { LeavesLent S.Store tx.old.conn tx.new.conn result }
    ensures turns { Turns S.Store tx.old.conn.now tx.new.conn.now (λ kept. kept_with event.now (change_at kept.portfolio now resource None None (Some shown.now)) kept) (λ kept change. change_at kept.portfolio now resource None None (Some shown.now) ≡ Some change) result }
    ensures reads { OnOk result (shown_of (shown_text shown.now) ≡ Ok shown.now) }
    ensures refused { IfErr result IsOfStore }
{
    let text = write_shown(alloc, shown)?;
    let stamps = fresh(now);
    let ven = put(alloc, tx, event, resource, shown, text.as_str(), stamps)?;
    Ok(ShownChange {
        resource,
        operation: Operation::Post,
        shown: shown.clone()?,
        stamps,
        ven,
    })
}

// What a resource is shown of an event differs from what is kept, or stays.
fn differ<S: Alter>(
    alloc: Global,
    tx: &mut Transaction<'_, S>,
    event: &ObjectId,
    now: Moment,
    resource: Number,
    columns: &ShownColumns,
    stamps: Option<&Stamps>,
    shown: &ShownEvent,
) -> Result<Option<ShownChange>, Refusal>
    ensures lent { LeavesLent S.Store tx.old.conn tx.new.conn result }
    ensures turns { Turns S.Store tx.old.conn.now tx.new.conn.now (λ kept. kept_with event.now (change_at kept.portfolio now resource (Some columns.now) (option_copied stamps.entry) (Some shown.now)) kept) (λ kept change. change ≡ change_at kept.portfolio now resource (Some columns.now) (option_copied stamps.entry) (Some shown.now)) result }
    ensures reads { OnOk result (shown_of (shown_text shown.now) ≡ Ok shown.now) }
    ensures refused { IfErr result IsOfStore }
{
    let text = write_shown(alloc, shown)?;
    if columns.body.as_str() == text.as_str() {
        return Ok(None);
    }
    let stamps = stamps_put(now, stamps);
    let ven = put(alloc, tx, event, resource, shown, text.as_str(), stamps)?;
    Ok(Some(ShownChange {
        resource,
        operation: Operation::Put,
        shown: shown.clone()?,
        stamps,
        ven,
    }))
}

// What was shown, by what is kept of it. A text that no call wrote is the store's refusal.
fn was_shown(alloc: Global, columns: &ShownColumns) -> Result<ShownEvent, Refusal>
    ensures shown { IfOk result (λ e. shown_of columns.now.body ≡ Ok e) }
    ensures refused { IfErr result IsOfStore }
{
    match read_shown(alloc, columns.body.as_str()) {
        Ok(shown) => Ok(shown),
        Err(Refusal::OutOfMemory) => Err(Refusal::OutOfMemory),
        Err(_) => Err(Refusal::Store),
    }
}

// The stamps of what is kept. Where it has none, the store refuses.
fn its_stamps(stamps: Option<&Stamps>) -> Result<Stamps, Refusal>
    ensures stamps { IfOk result (λ its. option_copied stamps.entry ≡ Some its) }
    ensures refused { IfErr result IsOfStore }
{
    match stamps {
        Some(stamps) => Ok(*stamps),
        None => Err(Refusal::Store),
    }
}

// What a resource was shown of an event goes, and its stamps with it.
fn go<S: Alter>(
    alloc: Global,
    tx: &mut Transaction<'_, S>,
    event: &ObjectId,
    now: Moment,
    resource: Number,
    columns: &ShownColumns,
    stamps: Option<&Stamps>,
) -> Result<ShownChange, Refusal>
    ensures lent { LeavesLent S.Store tx.old.conn tx.new.conn result }
    ensures turns { Turns S.Store tx.old.conn.now tx.new.conn.now (λ kept. kept_with event.now (change_at kept.portfolio now resource (Some columns.now) (option_copied stamps.entry) None) kept) (λ kept change. change_at kept.portfolio now resource (Some columns.now) (option_copied stamps.entry) None ≡ Some change) result }
    ensures refused { IfErr result IsOfStore }
{
    let shown = was_shown(alloc, columns)?;
    let stamps = its_stamps(stamps)?;
    remove_shown(tx, &shown_key(alloc, event, resource)?)?;
    remove_stamps(tx, &view_key(alloc, event, resource)?)?;
    Ok(ShownChange {
        resource,
        operation: Operation::Delete,
        shown,
        stamps,
        ven: columns.ven,
    })
}

/// What becomes of what a resource is shown of an event, by what is kept of it, its stamps, and what it is shown now: that
/// is written, and the change, if there is one, answered.
pub(crate) fn turn_one<S: Alter>(
    alloc: Global,
    tx: &mut Transaction<'_, S>,
    event: &ObjectId,
    now: Moment,
    resource: Number,
    old: Option<&ShownColumns>,
    stamps: Option<&Stamps>,
    new: Option<&ShownEvent>,
) -> Result<Option<ShownChange>, Refusal>
    ensures lent { LeavesLent S.Store tx.old.conn tx.new.conn result }
    ensures turns { Turns S.Store tx.old.conn.now tx.new.conn.now (λ kept. kept_with event.now (change_at kept.portfolio now resource (option_copied old.entry) (option_copied stamps.entry) (option_copied new.entry)) kept) (λ kept change. change ≡ change_at kept.portfolio now resource (option_copied old.entry) (option_copied stamps.entry) (option_copied new.entry)) result }
    ensures reads { OnOk result (IfSome (option_copied new.entry) (λ e. shown_of (shown_text e) ≡ Ok e)) }
    ensures refused { IfErr result IsOfStore }
{
    match (old, new) {
        (None, None) => Ok(None),
        (None, Some(shown)) => Ok(Some(appear(alloc, tx, event, now, resource, shown)?)),
        (Some(columns), None) => Ok(Some(go(alloc, tx, event, now, resource, columns, stamps)?)),
        (Some(columns), Some(shown)) => {
            differ(alloc, tx, event, now, resource, columns, stamps, shown)
        }
    }
}
