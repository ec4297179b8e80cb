//! What is known of the upstream keys, and which of them were polled, as their rows are lent.
ghost use Rattle.std.specs.Prelude.{IsTrue, ◌≡◌, [], IfOk, OnOk, IfErr};
ghost use Rattle.std.specs.Borrow.{sem, RestsIfErr};
ghost use Rattle.sqlite.specs.contracts.connection.Connection.{the_row};
ghost use Rattle.sqlite.specs.Held.{state};
ghost use Rattle.sqlite.specs.State.{HasCleanDisk};
ghost use Rattle.adr_db.specs.Calls.{Finds, IsOfStore};
ghost use Rattle.adr_lent.specs.Lent.{Begins, Stands};
ghost use Rattle.adr_lent.specs.Selections.{Selects};
ghost use Rattle.std.specs.BTreeSet.{insert_key};
ghost use Rattle.adr_state.specs.Keys.{mirror_cmp};
ghost use Rattle.adr_lent_image.specs.Selected.{rows_of_marks, rows_of_polled};

use crate::gathering::{Gathering, gather_all, lent_table};
use adr_db::statement::refusal_of;
use adr_lent::lend;
use adr_state::{Mark, MirrorKey, Polled};
use adr_text::{Refusal, Table};
use sqlite::{Alter, Connection, Error, Rows as LentRows};
use std::alloc::Global;

const READ_MARKS: &str =
    "SELECT kind, id, state, moment, body, program FROM mirror ORDER BY kind, id";

const READ_POLLED: &str = "SELECT kind, id FROM polled ORDER BY kind, id";

/// Each key as one of a set.
impl Gathering<MirrorKey> for Polled {
    ghost after = { insert_key mirror_cmp };

    fn gather(&mut self, _: Global, key: MirrorKey) -> Result<(), Refusal> {
        Ok(self.insert(key)?)
    }
}

/// What is known of upstream keys: of programs before events, each by the bytes of its id.
pub fn lend_marks<'conn, S: Alter>(
    conn: &'conn mut Connection<S>,
) -> Result<LentRows<'conn, S>, Error>
    ensures* refused { sem 𝓛 (RestsIfErr (the_row S.row S.Store) conn.entry (λ rows. rows.conn.ghost_name) result (Stands S.Store conn.old)) }
    ensures same_reference { IfOk result (λ rows. rows.conn.ghost_name ≡ conn.entry.ghost_name) }
    ensures begun { IfOk result (λ rows. Begins S.Store READ_MARKS.now [] conn.old rows.conn.now) }
    ensures selects { Selects S.Store READ_MARKS.now [] rows_of_marks conn.old }
{
    lend(conn, READ_MARKS, &[])
}

/// The whole mirror, as the map that it is.
pub fn lent_marks<S: Alter>(
    alloc: Global,
    conn: &mut Connection<S>,
) -> Result<Table<MirrorKey, Mark>, Refusal>
    ensures finds { Finds S.Store conn.old conn.new (λ kept marks. marks ≡ kept.mirror) result }
    ensures was_open { HasCleanDisk (state S.Store conn.new) → OnOk result (IsTrue (state S.Store conn.old).is_open) }
    ensures stands { Stands S.Store conn.old conn.new }
    ensures refused { IfErr result IsOfStore }
{
    let mut rows = match lend_marks(conn) {
        Ok(rows) => rows,
        Err(error) => return Err(refusal_of(error)),
    };
    lent_table::<MirrorKey, Mark, S>(alloc, &mut rows)
}

/// The keys that were polled: programs before events, each by the bytes of its id.
pub fn lend_polled<'conn, S: Alter>(
    conn: &'conn mut Connection<S>,
) -> Result<LentRows<'conn, S>, Error>
    ensures* refused { sem 𝓛 (RestsIfErr (the_row S.row S.Store) conn.entry (λ rows. rows.conn.ghost_name) result (Stands S.Store conn.old)) }
    ensures same_reference { IfOk result (λ rows. rows.conn.ghost_name ≡ conn.entry.ghost_name) }
    ensures begun { IfOk result (λ rows. Begins S.Store READ_POLLED.now [] conn.old rows.conn.now) }
    ensures selects { Selects S.Store READ_POLLED.now [] rows_of_polled conn.old }
{
    lend(conn, READ_POLLED, &[])
}

/// The keys that were polled, as the set of a scan.
pub fn lent_polled<S: Alter>(alloc: Global, conn: &mut Connection<S>) -> Result<Polled, Refusal>
    ensures finds { Finds S.Store conn.old conn.new (λ kept polled. polled ≡ kept.polled) result }
    ensures was_open { HasCleanDisk (state S.Store conn.new) → OnOk result (IsTrue (state S.Store conn.old).is_open) }
    ensures stands { Stands S.Store conn.old conn.new }
    ensures refused { IfErr result IsOfStore }
{
    let mut rows = match lend_polled(conn) {
        Ok(rows) => rows,
        Err(error) => return Err(refusal_of(error)),
    };
    gather_all::<MirrorKey, Polled, S>(alloc, &mut rows, Polled::new(alloc))
}
