//! The entries that wait, and the utility's ids of the reports that it was sent, as their rows are lent.
ghost use Rattle.std.specs.Prelude.{IsTrue, ◌≡◌, [], IfOk, OnOk, IfErr};
ghost use Rattle.std.specs.Borrow.{sem, RestsIfErr};
ghost use Rattle.sqlite.specs.contracts.connection.Connection.{the_row};
ghost use Rattle.sqlite.specs.Held.{state};
ghost use Rattle.sqlite.specs.State.{HasCleanDisk};
ghost use Rattle.adr_db.specs.Calls.{Finds, IsOfStore};
ghost use Rattle.adr_lent.specs.Lent.{Begins, Stands};
ghost use Rattle.adr_lent.specs.Selections.{Selects};
ghost use Rattle.adr_lent_image.specs.Gathered.{with_remote};
ghost use Rattle.adr_lent_image.specs.Selected.{rows_of_entries, rows_of_remotes};

use crate::gathering::{Gathering, gather_all, lent_table};
use adr_db::RemoteRow;
use adr_db::statement::refusal_of;
use adr_delivery::Entry;
use adr_lent::lend;
use adr_objects::Number;
use adr_text::{ObjectId, Refusal, Table};
use sqlite::{Alter, Connection, Error, Rows as LentRows};
use std::alloc::Global;

const READ_ENTRIES: &str =
    "SELECT id, dest, event, operation, url, token, body, failed, leases, leased, until, due FROM outbox ORDER BY id";

const READ_REMOTES: &str = "SELECT event, id FROM remote ORDER BY event";

/// Each row as an upstream event with the utility's id.
impl Gathering<RemoteRow> for Table<ObjectId, ObjectId> {
    ghost after = { with_remote };

    fn gather(&mut self, _: Global, row: RemoteRow) -> Result<(), Refusal> {
        let (event, id) = row.into_parts();
        Ok(self.put(event, id)?)
    }
}

/// The entries that wait, by number.
pub fn lend_entries<'conn, S: Alter>(
    conn: &'conn mut Connection<S>,
) -> Result<LentRows<'conn, S>, Error>
    ensures* refused { sem 𝓛 (RestsIfErr (the_row S.row S.Store) conn.entry (λ rows. rows.conn.ghost_name) result (Stands S.Store conn.old)) }
    ensures same_reference { IfOk result (λ rows. rows.conn.ghost_name ≡ conn.entry.ghost_name) }
    ensures begun { IfOk result (λ rows. Begins S.Store READ_ENTRIES.now [] conn.old rows.conn.now) }
    ensures selects { Selects S.Store READ_ENTRIES.now [] rows_of_entries conn.old }
{
    lend(conn, READ_ENTRIES, &[])
}

/// The entries that wait, by their numbers.
pub fn lent_entries<S: Alter>(
    alloc: Global,
    conn: &mut Connection<S>,
) -> Result<Table<Number, Entry>, Refusal>
    ensures finds { Finds S.Store conn.old conn.new (λ kept entries. entries ≡ kept.entries) result }
    ensures was_open { HasCleanDisk (state S.Store conn.new) → OnOk result (IsTrue (state S.Store conn.old).is_open) }
    ensures stands { Stands S.Store conn.old conn.new }
    ensures refused { IfErr result IsOfStore }
{
    let mut rows = match lend_entries(conn) {
        Ok(rows) => rows,
        Err(error) => return Err(refusal_of(error)),
    };
    lent_table::<Number, Entry, S>(alloc, &mut rows)
}

/// The utility's ids of reports, by the bytes of the ids of their upstream events.
pub fn lend_remotes<'conn, S: Alter>(
    conn: &'conn mut Connection<S>,
) -> Result<LentRows<'conn, S>, Error>
    ensures* refused { sem 𝓛 (RestsIfErr (the_row S.row S.Store) conn.entry (λ rows. rows.conn.ghost_name) result (Stands S.Store conn.old)) }
    ensures same_reference { IfOk result (λ rows. rows.conn.ghost_name ≡ conn.entry.ghost_name) }
    ensures begun { IfOk result (λ rows. Begins S.Store READ_REMOTES.now [] conn.old rows.conn.now) }
    ensures selects { Selects S.Store READ_REMOTES.now [] rows_of_remotes conn.old }
{
    lend(conn, READ_REMOTES, &[])
}

/// The utility's ids of reports, by their upstream events.
pub fn lent_remotes<S: Alter>(
    alloc: Global,
    conn: &mut Connection<S>,
) -> Result<Table<ObjectId, ObjectId>, Refusal>
    ensures finds { Finds S.Store conn.old conn.new (λ kept remotes. remotes ≡ kept.remotes) result }
    ensures was_open { HasCleanDisk (state S.Store conn.new) → OnOk result (IsTrue (state S.Store conn.old).is_open) }
    ensures stands { Stands S.Store conn.old conn.new }
    ensures refused { IfErr result IsOfStore }
{
    let mut rows = match lend_remotes(conn) {
        Ok(rows) => rows,
        Err(error) => return Err(refusal_of(error)),
    };
    gather_all::<RemoteRow, Table<ObjectId, ObjectId>, S>(alloc, &mut rows, Table::new(alloc))
}
