//! Values that are read from the rows of a query.
ghost use Rattle.std.specs.Prelude.{◌≡◌, take, option_to_list, IfOk, OnOk, IfErr};
ghost use Rattle.std.specs.List.{AllZip};
ghost use Rattle.sqlite.specs.Values.{bound};
ghost use Rattle.adr_sql.specs.Calls.{LeavesLent};
ghost use Rattle.adr_state.specs.Keys.{map_of, with_rows};
ghost use Rattle.adr_db.specs.Calls.{Shows, IsOfStore};
ghost use Rattle.adr_db.specs.Admitted.{IsNumber, ReadsNumber};
ghost use Rattle.adr_db.specs.Refusals.{CannotRead, CannotReadAll, CannotReadFirst, RefusesToShow};
ghost use Rattle.adr_text.specs.declared.refusal.Refusal.TheVariants.{OutOfMemory};

use crate::cells::number_in;
use crate::statement::rows_of;
use adr_objects::Number;
use adr_text::{Refusal, Rows, Table};
use sqlite::types::ValueRef;
use sqlite::{Alter, Row, Transaction};
use std::alloc::{AllocError, Global};

/// A value that stands in columns of its own in a row. What no call on the tables wrote is the store's
/// refusal.
pub trait FromRow: Drop {
    ghost use Rattle.sqlite.specs.Order.{Row as SqlRow};

    ghost reads: { SqlRow → Self → Type 0 };

    // what its type admits
    ghost admits: { Self → Type 0 };

    fn from_row(alloc: Global, row: &Row) -> Result<Self, Refusal>
        ensures reads { IfOk result (reads row.now) }
        ensures refused { IfErr result (CannotRead admits reads row.now) };
}

/// A key with its value.
impl<K: FromRow, V: FromRow> FromRow for (K, V) {
    ghost reads = { λ row e. K.reads row e.0 × V.reads row e.1 };

    ghost admits = { λ e. K.admits e.0 × V.admits e.1 };

    fn from_row(alloc: Global, row: &Row) -> Result<(K, V), Refusal> {
        let key = K::from_row(alloc, row)?;
        let value = V::from_row(alloc, row)?;
        Ok((key, value))
    }
}

fn all_in<T: FromRow>(alloc: Global, rows: &[Row]) -> Result<Rows<T>, Refusal>
    ensures read { IfOk result (AllZip T.reads rows.now) }
    ensures refused { IfErr result (CannotReadAll T.admits T.reads rows.now) }
{
    let mut all = Rows::new(alloc);
    'rows: for row in rows {
        all.push(T::from_row(alloc, row)?)?;
    }
    Ok(all)
}

/// Each row that the query shows, read.
pub fn all_of<T: FromRow, S: Alter>(
    alloc: Global,
    tx: &mut Transaction<'_, S>,
    sql: &str,
    params: &[ValueRef<'_>],
) -> Result<Rows<T>, Refusal>
    ensures lent { LeavesLent S.Store tx.old.conn tx.new.conn result }
    ensures shows { Shows S.Store tx.old.conn.now tx.new.conn.now sql.now (bound params.now) (AllZip T.reads) result }
    ensures refused { IfErr result IsOfStore }
    ensures fails { RefusesToShow S.Store tx.old.conn.now tx.new.conn.now sql.now (bound params.now) (CannotReadAll T.admits T.reads) result }
{
    let rows = rows_of(tx, sql, params)?;
    all_in(alloc, &rows)
}

/// The first row, read, where there is one.
pub fn first_in<T: FromRow>(alloc: Global, rows: &[Row]) -> Result<Option<T>, Refusal>
    ensures read { IfOk result (λ found. AllZip T.reads (take 1 rows.now) (option_to_list found)) }
    ensures refused { IfErr result (CannotReadFirst T.admits T.reads rows.now) }
{
    match rows.first() {
        Some(row) => Ok(Some(T::from_row(alloc, row)?)),
        None => Ok(None),
    }
}

/// The first row that the query shows, read, where it shows one.
pub fn first_of<T: FromRow, S: Alter>(
    alloc: Global,
    tx: &mut Transaction<'_, S>,
    sql: &str,
    params: &[ValueRef<'_>],
) -> Result<Option<T>, Refusal>
    ensures lent { LeavesLent S.Store tx.old.conn tx.new.conn result }
    ensures shows { Shows S.Store tx.old.conn.now tx.new.conn.now sql.now (bound params.now) (λ rows found. AllZip T.reads (take 1 rows) (option_to_list found)) result }
    ensures refused { IfErr result IsOfStore }
    ensures fails { RefusesToShow S.Store tx.old.conn.now tx.new.conn.now sql.now (bound params.now) (CannotReadFirst T.admits T.reads) result }
{
    let rows = rows_of(tx, sql, params)?;
    first_in(alloc, &rows)
}

// The number in the first column of the first of these rows, where there is one.
fn first_number_in(rows: &[Row]) -> Result<Option<Number>, Refusal>
    ensures read { IfOk result (λ found. AllZip ReadsNumber (take 1 rows.now) (option_to_list found)) }
    ensures refused { IfErr result (CannotReadFirst IsNumber ReadsNumber rows.now) }
{
    match rows.first() {
        Some(row) => Ok(Some(number_in(row)?)),
        None => Ok(None),
    }
}

/// The number in the first column of the first row that the query shows, where it shows one. It is read without memory.
pub fn first_number<S: Alter>(
    tx: &mut Transaction<'_, S>,
    sql: &str,
    params: &[ValueRef<'_>],
) -> Result<Option<Number>, Refusal>
    ensures lent { LeavesLent S.Store tx.old.conn tx.new.conn result }
    ensures shows { Shows S.Store tx.old.conn.now tx.new.conn.now sql.now (bound params.now) (λ rows found. AllZip ReadsNumber (take 1 rows) (option_to_list found)) result }
    ensures refused { IfErr result IsOfStore }
    ensures fails { RefusesToShow S.Store tx.old.conn.now tx.new.conn.now sql.now (bound params.now) (CannotReadFirst IsNumber ReadsNumber) result }
{
    let rows = rows_of(tx, sql, params)?;
    first_number_in(&rows)
}

/// Puts entries into a map, one after another.
pub fn put_all<K: Ord + Drop, V: Drop>(
    table: &mut Table<K, V>,
    rows: Rows<(K, V)>,
) -> Result<(), AllocError>
    ensures { OnOk result (table.new ≡ with_rows K.cmp table.old rows) }
{
    'rows: for row in rows.into_vec() {
        table.put(row.0, row.1)?;
    }
    Ok(())
}

/// The map that entries make, put one after another.
pub fn table_of<K: Ord + Drop, V: Drop>(
    alloc: Global,
    rows: Rows<(K, V)>,
) -> Result<Table<K, V>, Refusal>
    ensures map { IfOk result (λ table. table ≡ map_of K.cmp rows) }
    ensures refused { IfErr result (λ refusal. refusal ≡ OutOfMemory) }
{
    let mut table = Table::new(alloc);
    put_all(&mut table, rows)?;
    Ok(table)
}
