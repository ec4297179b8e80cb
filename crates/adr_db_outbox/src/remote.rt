//! The table `remote`: the utility's ids of the reports that it was sent.
ghost use Rattle.std.specs.Prelude.{◌≡◌, IfErr, option_map};
ghost use Rattle.adr_state.specs.Keys.{id_cmp, at};
ghost use Rattle.adr_sql.specs.Calls.{LeavesLent};
ghost use Rattle.adr_db.specs.Kept.{with_remote_id, without_remote_id};
ghost use Rattle.adr_db.specs.Rows.{event_key_row, remote_row};
ghost use Rattle.adr_db.specs.Refusals.{RefusesToPut, RefusesToShow, CannotReadFirst};
ghost use Rattle.adr_db.specs.Admitted.{IsRemote, ReadsRemote};
ghost use Rattle.adr_db.specs.Calls.{LeavesKept, Finds, IsOfStore};

use adr_db::RemoteRow;
use adr_db::reading::first_of;
use adr_db::statement::run;
use adr_text::{ObjectId, Refusal};
use sqlite::types::ToSql;
use sqlite::{Alter, Transaction};
use std::alloc::Global;

const PUT: &str =
    "INSERT INTO remote (event, id) VALUES (?1, ?2) ON CONFLICT (event) DO UPDATE SET event = excluded.event, id = excluded.id";

const REMOVE: &str = "DELETE FROM remote WHERE event = ?1";

const READ_ONE: &str = "SELECT event, id FROM remote WHERE event = ?1 ORDER BY event";

/// Puts the utility's id of the report on an upstream event, new or in the place of the one that is known.
pub fn put_remote<S: Alter>(
    tx: &mut Transaction<'_, S>,
    event: &ObjectId,
    id: &ObjectId,
) -> Result<(), Refusal>
    ensures lent { LeavesLent S.Store tx.old.conn tx.new.conn result }
    ensures leaves { LeavesKept S.Store tx.old.conn.now tx.new.conn.now (with_remote_id event.now id.now) result }
    ensures refused { IfErr result IsOfStore }
    ensures fails { RefusesToPut S.Store tx.old.conn.now tx.new.conn.now PUT.now (remote_row (event.now, id.now)) result }
{
    run(tx, PUT, &[event.as_str().to_sql(), id.as_str().to_sql()])
}

/// The utility's id of the report on an upstream event is forgotten.
pub fn remove_remote<S: Alter>(tx: &mut Transaction<'_, S>, event: &ObjectId) -> Result<(), Refusal>
    ensures lent { LeavesLent S.Store tx.old.conn tx.new.conn result }
    ensures leaves { LeavesKept S.Store tx.old.conn.now tx.new.conn.now (without_remote_id event.now) result }
    ensures refused { IfErr result IsOfStore }
    ensures fails { RefusesToPut S.Store tx.old.conn.now tx.new.conn.now REMOVE.now (event_key_row event.now) result }
{
    run(tx, REMOVE, &[event.as_str().to_sql()])
}

// The id of a row, where there is a row.
fn id_of(row: Option<RemoteRow>) -> Option<ObjectId>
    ensures { result ≡ option_map (λ row. row.id) row }
{
    Some(row?.into_parts().1)
}

/// The utility's id of the report on an upstream event, where it is known.
pub fn read_remote<S: Alter>(
    alloc: Global,
    tx: &mut Transaction<'_, S>,
    event: &ObjectId,
) -> Result<Option<ObjectId>, Refusal>
    ensures lent { LeavesLent S.Store tx.old.conn tx.new.conn result }
    ensures finds { Finds S.Store tx.old.conn.now tx.new.conn.now (λ kept found. found ≡ at id_cmp event.now kept.remotes) result }
    ensures refused { IfErr result IsOfStore }
    ensures fails { RefusesToShow S.Store tx.old.conn.now tx.new.conn.now READ_ONE.now (event_key_row event.now) (CannotReadFirst IsRemote ReadsRemote) result }
{
    let row = first_of(alloc, tx, READ_ONE, &[event.as_str().to_sql()])?;
    Ok(id_of(row))
}
