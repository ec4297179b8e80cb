//! The table `polled`: the keys that were polled since the scan began.
ghost use Rattle.std.specs.Prelude.{[], IfErr};
ghost use Rattle.adr_sql.specs.Calls.{LeavesLent};
ghost use Rattle.adr_db.specs.Kept.{with_polled, with_none_polled};
ghost use Rattle.adr_db.specs.Calls.{LeavesKept, IsOfStore};
ghost use Rattle.adr_db.specs.Rows.{key_row};
ghost use Rattle.adr_db.specs.Refusals.{RefusesToRun};

use adr_db::cells::kind_number;
use adr_db::statement::run;
use adr_state::MirrorKey;
use adr_text::Refusal;
use sqlite::types::ToSql;
use sqlite::{Alter, Transaction};

const PUT: &str =
    "INSERT INTO polled (kind, id) VALUES (?1, ?2) ON CONFLICT (kind, id) DO UPDATE SET kind = excluded.kind, id = excluded.id";

const CLEAR: &str = "DELETE FROM polled";

/// The key joins the polled ones.
pub fn put_polled<S: Alter>(tx: &mut Transaction<'_, S>, key: &MirrorKey) -> Result<(), Refusal>
    ensures lent { LeavesLent S.Store tx.old.conn tx.new.conn result }
    ensures leaves { LeavesKept S.Store tx.old.conn.now tx.new.conn.now (with_polled key.now) result }
    ensures refused { IfErr result IsOfStore }
    ensures fails { RefusesToRun S.Store tx.old.conn.now tx.new.conn.now PUT.now (key_row key.now) result }
{
    run(
        tx,
        PUT,
        &[kind_number(key.kind).to_sql(), key.id.as_str().to_sql()],
    )
}

/// No key is polled any more.
pub fn clear_polled<S: Alter>(tx: &mut Transaction<'_, S>) -> Result<(), Refusal>
    ensures lent { LeavesLent S.Store tx.old.conn tx.new.conn result }
    ensures leaves { LeavesKept S.Store tx.old.conn.now tx.new.conn.now with_none_polled result }
    ensures refused { IfErr result IsOfStore }
    ensures fails { RefusesToRun S.Store tx.old.conn.now tx.new.conn.now CLEAR.now [] result }
{
    run(tx, CLEAR, &[])
}
