//! The stamps of what is shown, as their rows are lent.
ghost use Rattle.std.specs.Prelude.{IsTrue, ◌≡◌, [], IfOk, OnOk, IfErr};
ghost use Rattle.std.specs.Borrow.{sem, RestsIfErr};
ghost use Rattle.sqlite.specs.contracts.connection.Connection.{the_row};
ghost use Rattle.sqlite.specs.Held.{state};
ghost use Rattle.sqlite.specs.State.{HasCleanDisk};
ghost use Rattle.adr_db.specs.Calls.{Finds, IsOfStore};
ghost use Rattle.adr_lent.specs.Lent.{Begins, Stands};
ghost use Rattle.adr_lent.specs.Selections.{Selects};
ghost use Rattle.adr_lent_image.specs.Selected.{rows_of_stamps};

use crate::gathering::lent_table;
use adr_db::statement::refusal_of;
use adr_lent::lend;
use adr_objects::Stamps;
use adr_state::ViewKey;
use adr_text::{Refusal, Table};
use sqlite::{Alter, Connection, Error, Rows as LentRows};
use std::alloc::Global;

const READ_STAMPS: &str = "SELECT kind, a, b, created, modified FROM stamp ORDER BY kind, a, b";

/// The stamps of all that is shown: of programs, of events, of reports, and last of roll-ups.
pub fn lend_stamps<'conn, S: Alter>(
    conn: &'conn mut Connection<S>,
) -> Result<LentRows<'conn, S>, Error>
    ensures* refused { sem 𝓛 (RestsIfErr (the_row S.row S.Store) conn.entry (λ rows. rows.conn.ghost_name) result (Stands S.Store conn.old)) }
    ensures same_reference { IfOk result (λ rows. rows.conn.ghost_name ≡ conn.entry.ghost_name) }
    ensures begun { IfOk result (λ rows. Begins S.Store READ_STAMPS.now [] conn.old rows.conn.now) }
    ensures selects { Selects S.Store READ_STAMPS.now [] rows_of_stamps conn.old }
{
    lend(conn, READ_STAMPS, &[])
}

/// The stamps of all that is shown, by its keys.
pub fn lent_stamps<S: Alter>(
    alloc: Global,
    conn: &mut Connection<S>,
) -> Result<Table<ViewKey, Stamps>, Refusal>
    ensures finds { Finds S.Store conn.old conn.new (λ kept stamps. stamps ≡ kept.stamps) result }
    ensures was_open { HasCleanDisk (state S.Store conn.new) → OnOk result (IsTrue (state S.Store conn.old).is_open) }
    ensures stands { Stands S.Store conn.old conn.new }
    ensures refused { IfErr result IsOfStore }
{
    let mut rows = match lend_stamps(conn) {
        Ok(rows) => rows,
        Err(error) => return Err(refusal_of(error)),
    };
    lent_table::<ViewKey, Stamps, S>(alloc, &mut rows)
}
