//! One statement on a lent transaction.
ghost use Rattle.sqlite.specs.Values.{bound};
ghost use Rattle.adr_sql.specs.Calls.{LeavesLent, Runs, Answers, FailsToRun, FailsToAnswer};

use sqlite::types::ValueRef;
use sqlite::{Alter, Error, Row, Transaction};

/// Runs one statement that writes.
pub fn run<S: Alter>(
    tx: &mut Transaction<'_, S>,
    sql: &str,
    params: &[ValueRef<'_>],
) -> Result<(), Error>
    ensures lent { LeavesLent S.Store tx.old.conn tx.new.conn result }
    ensures runs { Runs S.Store tx.old.conn.now tx.new.conn.now sql.now (bound params.now) result }
    ensures fails { FailsToRun S.Store tx.old.conn.now tx.new.conn.now sql.now (bound params.now) result }
{
    tx.execute(sql, params)?;
    Ok(())
}

/// The rows that one query shows, all at once.
pub fn rows_of<S: Alter>(
    tx: &mut Transaction<'_, S>,
    sql: &str,
    params: &[ValueRef<'_>],
) -> Result<Vec<Row>, Error>
    ensures lent { LeavesLent S.Store tx.old.conn tx.new.conn result }
    ensures answers { Answers S.Store tx.old.conn.now tx.new.conn.now sql.now (bound params.now) (λ rows. rows.items) result }
    ensures fails { FailsToAnswer S.Store tx.old.conn.now tx.new.conn.now sql.now (bound params.now) result }
{
    tx.query_all(sql, params)
}
