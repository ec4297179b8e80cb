//! What tables keep of an event, its stamps, and what is shown of it now.
ghost use Rattle.std.specs.Prelude.{◌≡◌, map, IfOk, IfErr};
ghost use Rattle.std.specs.List.{filter_map};
ghost use Rattle.adr_sql.specs.Calls.{LeavesLent};
ghost use Rattle.adr_db.specs.Calls.{IsOfStore};
ghost use Rattle.adr_upkeep.specs.Calls.{FindsEvent};
ghost use Rattle.adr_kept_view.specs.Changes.{kept_row, stamps_row, event_row};

use crate::shown_rows::shown_by;
use adr_db::reading::table_of;
use adr_db::{ShownColumns, ShownKey};
use adr_db_portfolio::Sharers;
use adr_db_shown::{read_event_stamps, read_shown_of};
use adr_kept_view::Found;
use adr_objects::{Number, ShownEvent, Stamps};
use adr_state::{ViewKey, push_some};
use adr_text::{ObjectId, Refusal, Rows};
use adr_view::Content;
use sqlite::{Alter, Transaction};
use std::alloc::{AllocError, Global};

// What is kept, behind the numbers of the resources.
fn kept_rows(
    alloc: Global,
    rows: Rows<(ShownKey, ShownColumns)>,
) -> Result<Rows<(Number, ShownColumns)>, AllocError>
    ensures { IfOk result (λ kept. kept ≡ map kept_row rows) }
{
    let mut kept = Rows::new(alloc);
    'rows: for row in rows.into_vec() {
        let (key, columns) = row;
        kept.push((key.resource, columns))?;
    }
    Ok(kept)
}

// Stamps of what a resource is shown, behind its number.
fn stamps_row(row: &(ViewKey, Stamps)) -> Option<(Number, Stamps)>
    ensures { result ≡ stamps_row row.now }
{
    match &row.0 {
        ViewKey::Event(_, resource) => Some((*resource, row.1)),
        _ => None,
    }
}

// The stamps, behind the numbers of the resources.
fn stamps_rows(
    alloc: Global,
    rows: &[(ViewKey, Stamps)],
) -> Result<Rows<(Number, Stamps)>, AllocError>
    ensures { IfOk result (λ stamps. stamps ≡ filter_map stamps_row rows.now) }
{
    let mut stamps = Vec::new(alloc);
    for row in rows {
        push_some(&mut stamps, stamps_row(row))?;
    }
    Ok(Rows::from_vec(stamps))
}

// What a resource is shown, behind its number.
fn event_row(row: &(ViewKey, Content)) -> Result<Option<(Number, ShownEvent)>, AllocError>
    ensures { IfOk result (λ event. event ≡ event_row row.now) }
{
    match (&row.0, &row.1) {
        (ViewKey::Event(_, resource), Content::Event(event)) => {
            Ok(Some((*resource, event.clone()?)))
        }
        _ => Ok(None),
    }
}

// What is shown, behind the numbers of the resources.
fn event_rows(
    alloc: Global,
    rows: &[(ViewKey, Content)],
) -> Result<Rows<(Number, ShownEvent)>, AllocError>
    ensures { IfOk result (λ events. events ≡ filter_map event_row rows.now) }
{
    let mut events = Vec::new(alloc);
    for row in rows {
        push_some(&mut events, event_row(row)?)?;
    }
    Ok(Rows::from_vec(events))
}

/// What tables keep of an event, its stamps, and what is shown of it now, by the numbers of the resources.
pub(crate) fn find<S: Alter>(
    alloc: Global,
    tx: &mut Transaction<'_, S>,
    sharers: &mut Sharers,
    event: &ObjectId,
) -> Result<Found, Refusal>
    ensures lent { LeavesLent S.Store tx.old.conn tx.new.conn result }
    ensures finds { FindsEvent S.Store tx.old.conn.now tx.new.conn.now event.now sharers.old sharers.new result }
    ensures refused { IfErr result IsOfStore }
{
    let rows = read_shown_of(alloc, tx, event)?;
    let kept = table_of(alloc, kept_rows(alloc, rows)?)?;
    let rows = read_event_stamps(alloc, tx, event)?;
    let stamps = table_of(alloc, stamps_rows(alloc, rows.as_slice())?)?;
    let rows = shown_by(alloc, tx, sharers, event)?;
    let shown = table_of(alloc, event_rows(alloc, rows.as_slice())?)?;
    Ok(Found {
        kept,
        stamps,
        shown,
    })
}
