//! Subscriptions, as their rows are lent.
ghost use Rattle.std.specs.Prelude.{IsTrue, ◌≡◌, OnOk, IfErr};
ghost use Rattle.sqlite.specs.Held.{state};
ghost use Rattle.sqlite.specs.State.{HasCleanDisk};
ghost use Rattle.adr_db.specs.Calls.{Finds, IsOfStore};
ghost use Rattle.adr_lent.specs.Lent.{Stands};

use crate::gathering::lent_table;
use adr_db::statement::refusal_of;
use adr_lent::lend_subs;
use adr_objects::Number;
use adr_subscription::Sub;
use adr_text::{Refusal, Table};
use sqlite::{Alter, Connection, Error};
use std::alloc::Global;

/// The subscriptions, by their numbers.
pub fn lent_subs<S: Alter>(
    alloc: Global,
    conn: &mut Connection<S>,
) -> Result<Table<Number, Sub>, Refusal>
    ensures finds { Finds S.Store conn.old conn.new (λ kept subs. subs ≡ kept.portfolio.subs) result }
    ensures was_open { HasCleanDisk (state S.Store conn.new) → OnOk result (IsTrue (state S.Store conn.old).is_open) }
    ensures stands { Stands S.Store conn.old conn.new }
    ensures refused { IfErr result IsOfStore }
{
    let mut rows = match lend_subs(conn) {
        Ok(rows) => rows,
        Err(error) => return Err(refusal_of(error)),
    };
    lent_table::<Number, Sub, S>(alloc, &mut rows)
}
