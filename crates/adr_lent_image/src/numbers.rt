//! The numbers of the node, as their row is lent.
ghost use Rattle.std.specs.Prelude.{IsTrue, ◌≡◌, [], IfOk, OnOk, IfErr};
ghost use Rattle.std.specs.Borrow.{sem, RestsIfErr};
ghost use Rattle.sqlite.specs.contracts.connection.Connection.{the_row};
ghost use Rattle.sqlite.specs.Held.{state};
ghost use Rattle.sqlite.specs.State.{HasCleanDisk};
ghost use Rattle.adr_db.specs.Calls.{Finds, IsOfStore};
ghost use Rattle.adr_lent.specs.Lent.{Begins, Stands};
ghost use Rattle.adr_lent.specs.Selections.{Selects};
ghost use Rattle.adr_lent_image.specs.Selected.{rows_of_meta};

use adr_db::Meta;
use adr_db::statement::refusal_of;
use adr_lent::{lend, next_of};
use adr_text::Refusal;
use sqlite::{Alter, Connection, Error, Rows as LentRows};
use std::alloc::Global;

const READ_META: &str =
    "SELECT k, version, serial, scan, made, sent, given_up, dropped, pending, keys, vens, resources, shares, reports, subs, frozen FROM meta ORDER BY k";

/// The one row of the numbers of the node.
pub fn lend_meta<'conn, S: Alter>(
    conn: &'conn mut Connection<S>,
) -> Result<LentRows<'conn, S>, Error>
    ensures* refused { sem 𝓛 (RestsIfErr (the_row S.row S.Store) conn.entry (λ rows. rows.conn.ghost_name) result (Stands S.Store conn.old)) }
    ensures same_reference { IfOk result (λ rows. rows.conn.ghost_name ≡ conn.entry.ghost_name) }
    ensures begun { IfOk result (λ rows. Begins S.Store READ_META.now [] conn.old rows.conn.now) }
    ensures selects { Selects S.Store READ_META.now [] rows_of_meta conn.old }
{
    lend(conn, READ_META, &[])
}

/// The numbers of the node.
pub fn lent_meta<S: Alter>(alloc: Global, conn: &mut Connection<S>) -> Result<Meta, Refusal>
    ensures finds { Finds S.Store conn.old conn.new (λ kept meta. meta ≡ kept.meta) result }
    ensures was_open { HasCleanDisk (state S.Store conn.new) → OnOk result (IsTrue (state S.Store conn.old).is_open) }
    ensures stands { Stands S.Store conn.old conn.new }
    ensures refused { IfErr result IsOfStore }
{
    let mut rows = match lend_meta(conn) {
        Ok(rows) => rows,
        Err(error) => return Err(refusal_of(error)),
    };
    match next_of::<Meta, S>(alloc, &mut rows)? {
        Some(meta) => Ok(meta),
        None => Err(Refusal::Store),
    }
}
