//! The events whose shares are frozen, and the shares that are kept for them, as their rows are lent.
ghost use Rattle.std.specs.Prelude.{IsTrue, ◌≡◌, [], IfOk, OnOk, IfErr};
ghost use Rattle.std.specs.Borrow.{sem, RestsIfErr};
ghost use Rattle.sqlite.specs.contracts.connection.Connection.{the_row};
ghost use Rattle.sqlite.specs.Held.{state};
ghost use Rattle.sqlite.specs.State.{HasCleanDisk};
ghost use Rattle.adr_db.specs.Calls.{Finds, IsOfStore};
ghost use Rattle.adr_lent.specs.Lent.{Begins, Stands};
ghost use Rattle.adr_lent.specs.Selections.{Selects};
ghost use Rattle.std.specs.BTreeMap.{insert_entry};
ghost use Rattle.adr_state.specs.Keys.{id_cmp};
ghost use Rattle.adr_lent_image.specs.Selected.{rows_of_frozen, rows_of_frozen_shares};

use crate::gathering::{Gathering, gather_all, lent_table};
use adr_db::statement::refusal_of;
use adr_lent::lend;
use adr_state::{FrozenKey, Weight};
use adr_text::{ObjectId, Refusal, Table};
use sqlite::{Alter, Connection, Error, Rows as LentRows};
use std::alloc::Global;

const READ_FROZEN: &str = "SELECT event FROM frozen ORDER BY event";

const READ_FROZEN_SHARES: &str =
    "SELECT event, resource, weight FROM frozen_share ORDER BY event, resource";

/// Each event as one of a set.
impl Gathering<ObjectId> for Table<ObjectId, ()> {
    ghost after = { λ events id. insert_entry id_cmp events id tt };

    fn gather(&mut self, _: Global, id: ObjectId) -> Result<(), Refusal> {
        Ok(self.put(id, ())?)
    }
}

/// The events that are frozen, by the bytes of their ids.
pub fn lend_frozen<'conn, S: Alter>(
    conn: &'conn mut Connection<S>,
) -> Result<LentRows<'conn, S>, Error>
    ensures* refused { sem 𝓛 (RestsIfErr (the_row S.row S.Store) conn.entry (λ rows. rows.conn.ghost_name) result (Stands S.Store conn.old)) }
    ensures same_reference { IfOk result (λ rows. rows.conn.ghost_name ≡ conn.entry.ghost_name) }
    ensures begun { IfOk result (λ rows. Begins S.Store READ_FROZEN.now [] conn.old rows.conn.now) }
    ensures selects { Selects S.Store READ_FROZEN.now [] rows_of_frozen conn.old }
{
    lend(conn, READ_FROZEN, &[])
}

/// The events that are frozen, as the set that they are.
pub fn lent_frozen<S: Alter>(
    alloc: Global,
    conn: &mut Connection<S>,
) -> Result<Table<ObjectId, ()>, Refusal>
    ensures finds { Finds S.Store conn.old conn.new (λ kept events. events ≡ kept.portfolio.frozen) result }
    ensures was_open { HasCleanDisk (state S.Store conn.new) → OnOk result (IsTrue (state S.Store conn.old).is_open) }
    ensures stands { Stands S.Store conn.old conn.new }
    ensures refused { IfErr result IsOfStore }
{
    let mut rows = match lend_frozen(conn) {
        Ok(rows) => rows,
        Err(error) => return Err(refusal_of(error)),
    };
    gather_all::<ObjectId, Table<ObjectId, ()>, S>(alloc, &mut rows, Table::new(alloc))
}

/// The shares that are kept for frozen events, by the bytes of the ids of their events and then by the numbers of their resources.
pub fn lend_frozen_shares<'conn, S: Alter>(
    conn: &'conn mut Connection<S>,
) -> Result<LentRows<'conn, S>, Error>
    ensures* refused { sem 𝓛 (RestsIfErr (the_row S.row S.Store) conn.entry (λ rows. rows.conn.ghost_name) result (Stands S.Store conn.old)) }
    ensures same_reference { IfOk result (λ rows. rows.conn.ghost_name ≡ conn.entry.ghost_name) }
    ensures begun { IfOk result (λ rows. Begins S.Store READ_FROZEN_SHARES.now [] conn.old rows.conn.now) }
    ensures selects { Selects S.Store READ_FROZEN_SHARES.now [] rows_of_frozen_shares conn.old }
{
    lend(conn, READ_FROZEN_SHARES, &[])
}

/// The weights that are kept for frozen events, by the events and the resources.
pub fn lent_frozen_shares<S: Alter>(
    alloc: Global,
    conn: &mut Connection<S>,
) -> Result<Table<FrozenKey, Weight>, Refusal>
    ensures finds { Finds S.Store conn.old conn.new (λ kept shares. shares ≡ kept.portfolio.frozen_shares) result }
    ensures was_open { HasCleanDisk (state S.Store conn.new) → OnOk result (IsTrue (state S.Store conn.old).is_open) }
    ensures stands { Stands S.Store conn.old conn.new }
    ensures refused { IfErr result IsOfStore }
{
    let mut rows = match lend_frozen_shares(conn) {
        Ok(rows) => rows,
        Err(error) => return Err(refusal_of(error)),
    };
    lent_table::<FrozenKey, Weight, S>(alloc, &mut rows)
}
