//! A query whose rows are lent one at a time, while the connection is borrowed.
ghost use Rattle.std.specs.Prelude.{◌≡◌, IfOk, IfErr};
ghost use Rattle.std.specs.Borrow.{sem, RestsIfErr};
ghost use Rattle.sqlite.specs.contracts.connection.Connection.{the_row};
ghost use Rattle.sqlite.specs.Values.{bound};
ghost use Rattle.sqlite.specs.Held.{state};
ghost use Rattle.sqlite.specs.State.{HasCleanDisk};
ghost use Rattle.adr_db.specs.Calls.{IsOfStore};
ghost use Rattle.adr_lent.specs.Texts.{IsQueryText};
ghost use Rattle.adr_lent.specs.Lent.{Begins, Lends, FailsToLend, Stands};

use adr_db::reading::FromRow;
use adr_db::statement::refusal_of;
use adr_text::Refusal;
use sqlite::types::ValueRef;
use sqlite::{Alter, Connection, Error, Rows};
use std::alloc::Global;

/// Begins a query. `next_of` lends its rows, and it ends where they are dropped.
pub fn lend<'conn, S: Alter>(
    conn: &'conn mut Connection<S>,
    sql: &str,
    params: &[ValueRef<'_>],
) -> Result<Rows<'conn, S>, Error>
    requires { IsQueryText sql.now }
    ensures* refused { sem 𝓛 (RestsIfErr (the_row S.row S.Store) conn.entry (λ rows. rows.conn.ghost_name) result (Stands S.Store conn.old)) }
    ensures same_reference { IfOk result (λ rows. rows.conn.ghost_name ≡ conn.entry.ghost_name) }
    ensures begun { IfOk result (λ rows. Begins S.Store sql.now (bound params.now) conn.old rows.conn.now) }
{
    conn.query(sql, params)
}

/// The next row, read, or None where those that were lent are the whole answer. A row that does not read is the store's
/// refusal.
pub fn next_of<T: FromRow, S: Alter>(
    alloc: Global,
    rows: &mut Rows<'_, S>,
) -> Result<Option<T>, Refusal>
    ensures same_reference { rows.new.conn.ghost_name ≡ rows.old.conn.ghost_name }
    ensures lends { HasCleanDisk (state S.Store rows.new.conn.now) → IfOk result (Lends S.Store T.reads rows.old.conn.now rows.new.conn.now) }
    ensures stands { Stands S.Store rows.old.conn.now rows.new.conn.now }
    ensures refused { IfErr result IsOfStore }
    ensures fails { HasCleanDisk (state S.Store rows.new.conn.now) → IfErr result (FailsToLend S.Store T.admits T.reads rows.old.conn.now rows.new.conn.now) }
{
    match rows.next() {
        Ok(Some(row)) => Ok(Some(T::from_row(alloc, row)?)),
        Ok(None) => Ok(None),
        Err(error) => Err(refusal_of(error)),
    }
}
