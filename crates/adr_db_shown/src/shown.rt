//! The table `shown`: what is kept of what the resources are shown of upstream events.
ghost use Rattle.std.specs.Prelude.{◌≡◌, filter, IfErr};
ghost use Rattle.std.specs.Ordering.{is_eq};
ghost use Rattle.adr_state.specs.Keys.{id_cmp, at};
ghost use Rattle.adr_sql.specs.Calls.{LeavesLent};
ghost use Rattle.adr_db.specs.Kept.{with_shown, without_shown};
ghost use Rattle.adr_db.specs.ShownKeys.{shown_cmp};
ghost use Rattle.adr_db.specs.Rows.{event_key_row, shown_key_row, shown_row};
ghost use Rattle.adr_db.specs.Refusals.{RefusesToPut, RefusesToShow, CannotReadAll, CannotReadFirst};
ghost use Rattle.adr_db.specs.Admitted.{AreShownColumns, ReadsShownColumns};
ghost use Rattle.adr_db.specs.Calls.{LeavesKept, Finds, IsOfStore};
ghost use Rattle.adr_db_shown.specs.Entries.{IsShownEntry, ReadsShownEntry};

use adr_db::cells::number;
use adr_db::reading::{all_of, first_of};
use adr_db::statement::run;
use adr_db::{ShownColumns, ShownKey};
use adr_text::{ObjectId, Refusal, Rows};
use sqlite::types::ToSql;
use sqlite::{Alter, Transaction};
use std::alloc::Global;

const PUT: &str =
    "INSERT INTO shown (event, resource, program, ven, ven_name, resource_name, body) VALUES (?1, ?2, ?3, ?4, ?5, ?6, ?7) ON CONFLICT (event, resource) DO UPDATE SET event = excluded.event, resource = excluded.resource, program = excluded.program, ven = excluded.ven, ven_name = excluded.ven_name, resource_name = excluded.resource_name, body = excluded.body";

const REMOVE: &str = "DELETE FROM shown WHERE event = ?1 AND resource = ?2";

const READ_ONE: &str =
    "SELECT event, resource, program, ven, ven_name, resource_name, body FROM shown WHERE event = ?1 AND resource = ?2 ORDER BY event, resource";

const READ_OF: &str =
    "SELECT event, resource, program, ven, ven_name, resource_name, body FROM shown WHERE event = ?1 ORDER BY event, resource";

/// Puts what is kept of a shown event, new or in the place of what was kept of it.
pub fn put_shown<S: Alter>(
    tx: &mut Transaction<'_, S>,
    key: &ShownKey,
    columns: &ShownColumns,
) -> Result<(), Refusal>
    ensures lent { LeavesLent S.Store tx.old.conn tx.new.conn result }
    ensures leaves { LeavesKept S.Store tx.old.conn.now tx.new.conn.now (with_shown key.now columns.now) result }
    ensures refused { IfErr result IsOfStore }
    ensures fails { RefusesToPut S.Store tx.old.conn.now tx.new.conn.now PUT.now (shown_row (key.now, columns.now)) result }
{
    run(
        tx,
        PUT,
        &[
            key.event.as_str().to_sql(),
            number(key.resource.get())?,
            columns.program.as_str().to_sql(),
            number(columns.ven.get())?,
            columns.ven_name.as_str().to_sql(),
            columns.resource_name.as_str().to_sql(),
            columns.body.as_str().to_sql(),
        ],
    )
}

/// What is kept of a shown event goes.
pub fn remove_shown<S: Alter>(tx: &mut Transaction<'_, S>, key: &ShownKey) -> Result<(), Refusal>
    ensures lent { LeavesLent S.Store tx.old.conn tx.new.conn result }
    ensures leaves { LeavesKept S.Store tx.old.conn.now tx.new.conn.now (without_shown key.now) result }
    ensures refused { IfErr result IsOfStore }
    ensures fails { RefusesToPut S.Store tx.old.conn.now tx.new.conn.now REMOVE.now (shown_key_row key.now) result }
{
    let n = number(key.resource.get())?;
    run(tx, REMOVE, &[key.event.as_str().to_sql(), n])
}

/// What is kept of a shown event, where something is.
pub fn read_shown_at<S: Alter>(
    alloc: Global,
    tx: &mut Transaction<'_, S>,
    key: &ShownKey,
) -> Result<Option<ShownColumns>, Refusal>
    ensures lent { LeavesLent S.Store tx.old.conn tx.new.conn result }
    ensures finds { Finds S.Store tx.old.conn.now tx.new.conn.now (λ kept found. found ≡ at shown_cmp key.now kept.shown) result }
    ensures refused { IfErr result IsOfStore }
    ensures fails { RefusesToShow S.Store tx.old.conn.now tx.new.conn.now READ_ONE.now (shown_key_row key.now) (CannotReadFirst AreShownColumns ReadsShownColumns) result }
{
    let n = number(key.resource.get())?;
    first_of(alloc, tx, READ_ONE, &[key.event.as_str().to_sql(), n])
}

/// What is kept of what the resources are shown of one upstream event, by their numbers. No row of another event is read.
pub fn read_shown_of<S: Alter>(
    alloc: Global,
    tx: &mut Transaction<'_, S>,
    event: &ObjectId,
) -> Result<Rows<(ShownKey, ShownColumns)>, Refusal>
    ensures lent { LeavesLent S.Store tx.old.conn tx.new.conn result }
    ensures finds { Finds S.Store tx.old.conn.now tx.new.conn.now (λ kept rows. rows ≡ filter (λ e. is_eq (id_cmp event.now e.0.event)) kept.shown) result }
    ensures refused { IfErr result IsOfStore }
    ensures fails { RefusesToShow S.Store tx.old.conn.now tx.new.conn.now READ_OF.now (event_key_row event.now) (CannotReadAll IsShownEntry ReadsShownEntry) result }
{
    all_of(alloc, tx, READ_OF, &[event.as_str().to_sql()])
}
