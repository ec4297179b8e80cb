//! The table `frozen`: the events whose shares are frozen.
ghost use Rattle.std.specs.Prelude.{◌≡◌, IfErr};
ghost use Rattle.adr_sql.specs.Calls.{LeavesLent};
ghost use Rattle.adr_state.specs.Frozen.{is_frozen};
ghost use Rattle.adr_db.specs.Kept.{with_portfolio};
ghost use Rattle.adr_db.specs.Rows.{event_key_row};
ghost use Rattle.adr_db.specs.Admitted.{IsIdText, ReadsId};
ghost use Rattle.adr_db.specs.Refusals.{CannotReadFirst, RefusesToPut, RefusesToShow};
ghost use Rattle.adr_db.specs.Calls.{LeavesKept, Finds, IsOfStore};
ghost use Rattle.adr_db_portfolio.specs.Frozen.{with_frozen_event};

use adr_db::reading::first_of;
use adr_db::statement::run;
use adr_text::{ObjectId, Refusal};
use sqlite::types::ToSql;
use sqlite::{Alter, Transaction};
use std::alloc::Global;

const PUT: &str =
    "INSERT INTO frozen (event) VALUES (?1) ON CONFLICT (event) DO UPDATE SET event = excluded.event";

const READ_ONE: &str = "SELECT event FROM frozen WHERE event = ?1 ORDER BY event";

/// An event is one of those that are frozen from now on.
pub fn put_frozen<S: Alter>(tx: &mut Transaction<'_, S>, event: &ObjectId) -> Result<(), Refusal>
    ensures lent { LeavesLent S.Store tx.old.conn tx.new.conn result }
    ensures leaves { LeavesKept S.Store tx.old.conn.now tx.new.conn.now (with_portfolio (with_frozen_event event.now)) result }
    ensures refused { IfErr result IsOfStore }
    ensures fails { RefusesToPut S.Store tx.old.conn.now tx.new.conn.now PUT.now (event_key_row event.now) result }
{
    run(tx, PUT, &[event.as_str().to_sql()])
}

/// Whether an event is frozen.
pub fn is_frozen<S: Alter>(
    alloc: Global,
    tx: &mut Transaction<'_, S>,
    event: &ObjectId,
) -> Result<bool, Refusal>
    ensures lent { LeavesLent S.Store tx.old.conn tx.new.conn result }
    ensures finds { Finds S.Store tx.old.conn.now tx.new.conn.now (λ kept frozen. frozen ≡ is_frozen kept.portfolio event.now) result }
    ensures refused { IfErr result IsOfStore }
    ensures fails { RefusesToShow S.Store tx.old.conn.now tx.new.conn.now READ_ONE.now (event_key_row event.now) (CannotReadFirst IsIdText ReadsId) result }
{
    let found: Option<ObjectId> = first_of(alloc, tx, READ_ONE, &[event.as_str().to_sql()])?;
    Ok(found.is_some())
}
