//! One statement, with the errors of the store as refusals.
ghost use Rattle.std.specs.Prelude.{◌≡◌, IfErr};
ghost use Rattle.sqlite.specs.Values.{bound};
ghost use Rattle.adr_sql.specs.Calls.{LeavesLent, Runs, Answers};
ghost use Rattle.adr_db.specs.Calls.{IsOfStore, refusal_of};
ghost use Rattle.adr_db.specs.Refusals.{RefusesToRun, RefusesToAnswer};

use adr_text::Refusal;
use sqlite::types::ValueRef;
use sqlite::{Alter, Error, ErrorCode, Row, Transaction};

/// An error of the store as a refusal: want of memory, or else the store's.
pub fn refusal_of(error: Error) -> Refusal
    ensures gives { result ≡ refusal_of error }
    ensures refused { IsOfStore result }
{
    match error {
        Error::SqliteFailure(ErrorCode::OutOfMemory) => Refusal::OutOfMemory,
        _ => Refusal::Store,
    }
}

/// Runs one statement that writes.
pub fn run<S: Alter>(
    tx: &mut Transaction<'_, S>,
    sql: &str,
    params: &[ValueRef<'_>],
) -> Result<(), Refusal>
    ensures lent { LeavesLent S.Store tx.old.conn tx.new.conn result }
    ensures runs { Runs S.Store tx.old.conn.now tx.new.conn.now sql.now (bound params.now) result }
    ensures refused { IfErr result IsOfStore }
    ensures fails { RefusesToRun S.Store tx.old.conn.now tx.new.conn.now sql.now (bound params.now) result }
{
    adr_sql::run(tx, sql, params).map_err(refusal_of)
}

/// The rows that one query shows.
pub fn rows_of<S: Alter>(
    tx: &mut Transaction<'_, S>,
    sql: &str,
    params: &[ValueRef<'_>],
) -> Result<Vec<Row>, Refusal>
    ensures lent { LeavesLent S.Store tx.old.conn tx.new.conn result }
    ensures answers { Answers S.Store tx.old.conn.now tx.new.conn.now sql.now (bound params.now) (λ rows. rows.items) result }
    ensures refused { IfErr result IsOfStore }
    ensures fails { RefusesToAnswer S.Store tx.old.conn.now tx.new.conn.now sql.now (bound params.now) result }
{
    adr_sql::rows_of(tx, sql, params).map_err(refusal_of)
}
