//! All vens, all subscriptions and all reports, as their rows are lent: to listings, and to whoever reads the whole state.
ghost use Rattle.std.specs.Prelude.{◌≡◌, [], IfOk};
ghost use Rattle.std.specs.Borrow.{sem, RestsIfErr};
ghost use Rattle.sqlite.specs.contracts.connection.Connection.{the_row};
ghost use Rattle.adr_lent.specs.Lent.{Begins, Stands};
ghost use Rattle.adr_lent.specs.Selections.{Selects};
ghost use Rattle.adr_lent.specs.Whole.{rows_of_vens, rows_of_subs, rows_of_reports};

use crate::stream::lend;
use sqlite::{Alter, Connection, Error, Rows};

const READ_VENS: &str = "SELECT id, name, created, modified FROM ven ORDER BY id";

const READ_SUBS: &str = "SELECT id, ven, body, created, modified FROM sub ORDER BY id";

const READ_REPORTS: &str =
    "SELECT id, event, resource, program, client, name, resource_name, revision FROM report ORDER BY id";

/// The vens, by number.
pub fn lend_vens<'conn, S: Alter>(conn: &'conn mut Connection<S>) -> Result<Rows<'conn, S>, Error>
    ensures* refused { sem 𝓛 (RestsIfErr (the_row S.row S.Store) conn.entry (λ rows. rows.conn.ghost_name) result (Stands S.Store conn.old)) }
    ensures same_reference { IfOk result (λ rows. rows.conn.ghost_name ≡ conn.entry.ghost_name) }
    ensures begun { IfOk result (λ rows. Begins S.Store READ_VENS.now [] conn.old rows.conn.now) }
    ensures selects { Selects S.Store READ_VENS.now [] rows_of_vens conn.old }
{
    lend(conn, READ_VENS, &[])
}

/// The subscriptions, by number.
pub fn lend_subs<'conn, S: Alter>(conn: &'conn mut Connection<S>) -> Result<Rows<'conn, S>, Error>
    ensures* refused { sem 𝓛 (RestsIfErr (the_row S.row S.Store) conn.entry (λ rows. rows.conn.ghost_name) result (Stands S.Store conn.old)) }
    ensures same_reference { IfOk result (λ rows. rows.conn.ghost_name ≡ conn.entry.ghost_name) }
    ensures begun { IfOk result (λ rows. Begins S.Store READ_SUBS.now [] conn.old rows.conn.now) }
    ensures selects { Selects S.Store READ_SUBS.now [] rows_of_subs conn.old }
{
    lend(conn, READ_SUBS, &[])
}

/// The reports, by number. Their intervals are not read.
pub fn lend_reports<'conn, S: Alter>(
    conn: &'conn mut Connection<S>,
) -> Result<Rows<'conn, S>, Error>
    ensures* refused { sem 𝓛 (RestsIfErr (the_row S.row S.Store) conn.entry (λ rows. rows.conn.ghost_name) result (Stands S.Store conn.old)) }
    ensures same_reference { IfOk result (λ rows. rows.conn.ghost_name ≡ conn.entry.ghost_name) }
    ensures begun { IfOk result (λ rows. Begins S.Store READ_REPORTS.now [] conn.old rows.conn.now) }
    ensures selects { Selects S.Store READ_REPORTS.now [] rows_of_reports conn.old }
{
    lend(conn, READ_REPORTS, &[])
}
