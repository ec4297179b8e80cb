//! The stamps of rows that are kept of shown events, of those that stand near each other at once.
ghost use Rattle.std.specs.Prelude.{◌≡◌, true, IfErr};
ghost use Rattle.adr_sql.specs.Calls.{LeavesLent};
ghost use Rattle.adr_db.specs.Calls.{Finds, IsOfStore};
ghost use Rattle.adr_db_shown.specs.Entries.{is_key_between};
ghost use Rattle.adr_pages.specs.Stamps.{AreFound, AreJoined, GoesOn};

use adr_db::reading::put_all;
use adr_db::{ShownColumns, ShownKey};
use adr_db_shown::read_stamps_between;
use adr_objects::{Number, Stamps};
use adr_state::ViewKey;
use adr_text::{ObjectId, Refusal, Table};
use sqlite::{Alter, Transaction};
use std::alloc::Global;

// How far behind a row's resource the next row's may stand for both to be near: a statement more may take as long as some
// eight rows that nobody asked for, which is an estimate.
const NEAR: u64 = 8;

// Whether the stamps of one row are read together with those of the row before it. A row is near itself.
fn is_near(before: &ShownKey, key: &ShownKey) -> bool
    ensures { result ≡ true → GoesOn before.now key.now }
{
    before.event == key.event
        && before.resource.get() <= key.resource.get()
        && key.resource.get() - before.resource.get() <= NEAR
}

// Puts the stamps of what the resources from one number to another are shown of an event among others.
fn put_run<S: Alter>(
    alloc: Global,
    tx: &mut Transaction<'_, S>,
    stamps: &mut Table<ViewKey, Stamps>,
    event: &ObjectId,
    first: Number,
    last: Number,
) -> Result<(), Refusal>
    ensures lent { LeavesLent S.Store tx.old.conn tx.new.conn result }
    ensures puts { Finds S.Store tx.old.conn.now tx.new.conn.now (λ kept done. AreJoined kept.stamps stamps.old stamps.new (is_key_between event.now first last)) result }
    ensures refused { IfErr result IsOfStore }
{
    let more = read_stamps_between(alloc, tx, event, first, last)?;
    Ok(put_all(stamps, more)?)
}

/// The stamps of the keys of rows, and of few others.
pub(crate) fn stamps_of<S: Alter>(
    alloc: Global,
    tx: &mut Transaction<'_, S>,
    rows: &[(ShownKey, ShownColumns)],
) -> Result<Table<ViewKey, Stamps>, Refusal>
    ensures lent { LeavesLent S.Store tx.old.conn tx.new.conn result }
    ensures finds { Finds S.Store tx.old.conn.now tx.new.conn.now (λ kept stamps. AreFound kept.stamps stamps rows.now) result }
    ensures refused { IfErr result IsOfStore }
{
    let mut stamps = Table::new(alloc);
    let Some(begin) = rows.first() else {
        return Ok(stamps);
    };
    let mut first = begin.0.resource;
    let mut last = &begin.0;
    'rows: for row in rows {
        let key = &row.0;
        if !is_near(last, key) {
            put_run(alloc, tx, &mut stamps, &last.event, first, last.resource)?;
            first = key.resource;
        }
        last = key;
    }
    put_run(alloc, tx, &mut stamps, &last.event, first, last.resource)?;
    Ok(stamps)
}
