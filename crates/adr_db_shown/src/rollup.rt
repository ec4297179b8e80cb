//! The table `rollup`: what is kept of the roll-ups of upstream events.
ghost use Rattle.std.specs.Prelude.{◌≡◌, IfErr};
ghost use Rattle.adr_state.specs.Keys.{id_cmp, at};
ghost use Rattle.adr_sql.specs.Calls.{LeavesLent};
ghost use Rattle.adr_db.specs.Kept.{with_rollup, without_rollup};
ghost use Rattle.adr_db.specs.Rows.{event_key_row, rollup_row};
ghost use Rattle.adr_db.specs.Refusals.{RefusesToPut, RefusesToShow, CannotReadFirst};
ghost use Rattle.adr_db.specs.Admitted.{AreRollupColumns, ReadsRollupColumns};
ghost use Rattle.adr_db.specs.Calls.{LeavesKept, Finds, IsOfStore};

use adr_db::RollupColumns;
use adr_db::reading::first_of;
use adr_db::statement::run;
use adr_text::{ObjectId, Refusal};
use sqlite::types::ToSql;
use sqlite::{Alter, Transaction};
use std::alloc::Global;

const PUT: &str =
    "INSERT INTO rollup (event, program, body) VALUES (?1, ?2, ?3) ON CONFLICT (event) DO UPDATE SET event = excluded.event, program = excluded.program, body = excluded.body";

const REMOVE: &str = "DELETE FROM rollup WHERE event = ?1";

const READ_ONE: &str = "SELECT event, program, body FROM rollup WHERE event = ?1 ORDER BY event";

/// Puts what is kept of the roll-up of an upstream event, new or in the place of what was kept of it.
pub fn put_rollup<S: Alter>(
    tx: &mut Transaction<'_, S>,
    event: &ObjectId,
    columns: &RollupColumns,
) -> Result<(), Refusal>
    ensures lent { LeavesLent S.Store tx.old.conn tx.new.conn result }
    ensures leaves { LeavesKept S.Store tx.old.conn.now tx.new.conn.now (with_rollup event.now columns.now) result }
    ensures refused { IfErr result IsOfStore }
    ensures fails { RefusesToPut S.Store tx.old.conn.now tx.new.conn.now PUT.now (rollup_row (event.now, columns.now)) result }
{
    run(
        tx,
        PUT,
        &[
            event.as_str().to_sql(),
            columns.program.as_str().to_sql(),
            columns.body.as_str().to_sql(),
        ],
    )
}

/// What is kept of the roll-up of an upstream event goes.
pub fn remove_rollup<S: Alter>(tx: &mut Transaction<'_, S>, event: &ObjectId) -> Result<(), Refusal>
    ensures lent { LeavesLent S.Store tx.old.conn tx.new.conn result }
    ensures leaves { LeavesKept S.Store tx.old.conn.now tx.new.conn.now (without_rollup event.now) result }
    ensures refused { IfErr result IsOfStore }
    ensures fails { RefusesToPut S.Store tx.old.conn.now tx.new.conn.now REMOVE.now (event_key_row event.now) result }
{
    run(tx, REMOVE, &[event.as_str().to_sql()])
}

/// What is kept of the roll-up of an upstream event, where something is.
pub fn read_rollup<S: Alter>(
    alloc: Global,
    tx: &mut Transaction<'_, S>,
    event: &ObjectId,
) -> Result<Option<RollupColumns>, Refusal>
    ensures lent { LeavesLent S.Store tx.old.conn tx.new.conn result }
    ensures finds { Finds S.Store tx.old.conn.now tx.new.conn.now (λ kept found. found ≡ at id_cmp event.now kept.rollups) result }
    ensures refused { IfErr result IsOfStore }
    ensures fails { RefusesToShow S.Store tx.old.conn.now tx.new.conn.now READ_ONE.now (event_key_row event.now) (CannotReadFirst AreRollupColumns ReadsRollupColumns) result }
{
    first_of(alloc, tx, READ_ONE, &[event.as_str().to_sql()])
}
