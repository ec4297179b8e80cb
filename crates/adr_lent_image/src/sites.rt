//! Vens, resources and shares, as their rows are lent.
ghost use Rattle.std.specs.Prelude.{IsTrue, ◌≡◌, [], IfOk, OnOk, IfErr};
ghost use Rattle.std.specs.Borrow.{sem, RestsIfErr};
ghost use Rattle.sqlite.specs.contracts.connection.Connection.{the_row};
ghost use Rattle.sqlite.specs.Held.{state};
ghost use Rattle.sqlite.specs.State.{HasCleanDisk};
ghost use Rattle.adr_db.specs.Calls.{Finds, IsOfStore};
ghost use Rattle.adr_lent.specs.Lent.{Begins, Stands};
ghost use Rattle.adr_lent.specs.Selections.{Selects};
ghost use Rattle.std.specs.BTreeMap.{insert_entry};
ghost use Rattle.std.specs.Ordering.{nat_cmp};
ghost use Rattle.adr_lent_image.specs.Selected.{rows_of_resources, rows_of_shares};

use crate::gathering::{Gathering, gather_all, lent_table};
use adr_db::statement::refusal_of;
use adr_lent::{lend, lend_vens};
use adr_objects::Number;
use adr_state::{Resource, Resources, ShareKey, Ven, Weight};
use adr_text::{Refusal, Table};
use sqlite::{Alter, Connection, Error, Rows as LentRows};
use std::alloc::Global;

const READ_RESOURCES: &str = "SELECT id, ven, name, created, modified FROM resource ORDER BY id";

const READ_SHARES: &str = "SELECT program, resource, weight FROM share ORDER BY program, resource";

/// Each resource behind its number. More than a node has is the store's refusal.
impl Gathering<(Number, Resource)> for Resources {
    ghost after = { λ resources e. insert_entry nat_cmp resources e.0 e.1 };

    fn gather(&mut self, _: Global, value: (Number, Resource)) -> Result<(), Refusal> {
        if self.len() >= 10_000 {
            return Err(Refusal::Store);
        }
        Ok(self.put(value.0, value.1)?)
    }
}

/// The vens, by their numbers.
pub fn lent_vens<S: Alter>(
    alloc: Global,
    conn: &mut Connection<S>,
) -> Result<Table<Number, Ven>, Refusal>
    ensures finds { Finds S.Store conn.old conn.new (λ kept vens. vens ≡ kept.portfolio.vens) result }
    ensures was_open { HasCleanDisk (state S.Store conn.new) → OnOk result (IsTrue (state S.Store conn.old).is_open) }
    ensures stands { Stands S.Store conn.old conn.new }
    ensures refused { IfErr result IsOfStore }
{
    let mut rows = match lend_vens(conn) {
        Ok(rows) => rows,
        Err(error) => return Err(refusal_of(error)),
    };
    lent_table::<Number, Ven, S>(alloc, &mut rows)
}

/// The resources, by number.
pub fn lend_resources<'conn, S: Alter>(
    conn: &'conn mut Connection<S>,
) -> Result<LentRows<'conn, S>, Error>
    ensures* refused { sem 𝓛 (RestsIfErr (the_row S.row S.Store) conn.entry (λ rows. rows.conn.ghost_name) result (Stands S.Store conn.old)) }
    ensures same_reference { IfOk result (λ rows. rows.conn.ghost_name ≡ conn.entry.ghost_name) }
    ensures begun { IfOk result (λ rows. Begins S.Store READ_RESOURCES.now [] conn.old rows.conn.now) }
    ensures selects { Selects S.Store READ_RESOURCES.now [] rows_of_resources conn.old }
{
    lend(conn, READ_RESOURCES, &[])
}

/// The resources, by their numbers. More than a node has is the store's refusal.
pub fn lent_resources<S: Alter>(
    alloc: Global,
    conn: &mut Connection<S>,
) -> Result<Resources, Refusal>
    ensures finds { Finds S.Store conn.old conn.new (λ kept resources. resources ≡ kept.portfolio.resources) result }
    ensures was_open { HasCleanDisk (state S.Store conn.new) → OnOk result (IsTrue (state S.Store conn.old).is_open) }
    ensures stands { Stands S.Store conn.old conn.new }
    ensures refused { IfErr result IsOfStore }
{
    let mut rows = match lend_resources(conn) {
        Ok(rows) => rows,
        Err(error) => return Err(refusal_of(error)),
    };
    gather_all::<(Number, Resource), Resources, S>(alloc, &mut rows, Resources::new(alloc))
}

/// The shares, by the bytes of the ids of their programs and then by the numbers of their resources.
pub fn lend_shares<'conn, S: Alter>(
    conn: &'conn mut Connection<S>,
) -> Result<LentRows<'conn, S>, Error>
    ensures* refused { sem 𝓛 (RestsIfErr (the_row S.row S.Store) conn.entry (λ rows. rows.conn.ghost_name) result (Stands S.Store conn.old)) }
    ensures same_reference { IfOk result (λ rows. rows.conn.ghost_name ≡ conn.entry.ghost_name) }
    ensures begun { IfOk result (λ rows. Begins S.Store READ_SHARES.now [] conn.old rows.conn.now) }
    ensures selects { Selects S.Store READ_SHARES.now [] rows_of_shares conn.old }
{
    lend(conn, READ_SHARES, &[])
}

/// The weights of the shares, by the programs and the resources.
pub fn lent_shares<S: Alter>(
    alloc: Global,
    conn: &mut Connection<S>,
) -> Result<Table<ShareKey, Weight>, Refusal>
    ensures finds { Finds S.Store conn.old conn.new (λ kept shares. shares ≡ kept.portfolio.shares) result }
    ensures was_open { HasCleanDisk (state S.Store conn.new) → OnOk result (IsTrue (state S.Store conn.old).is_open) }
    ensures stands { Stands S.Store conn.old conn.new }
    ensures refused { IfErr result IsOfStore }
{
    let mut rows = match lend_shares(conn) {
        Ok(rows) => rows,
        Err(error) => return Err(refusal_of(error)),
    };
    lent_table::<ShareKey, Weight, S>(alloc, &mut rows)
}
