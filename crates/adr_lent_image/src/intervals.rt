//! The intervals of all reports, as their rows are lent.
ghost use Rattle.std.specs.Prelude.{IsTrue, ◌≡◌, [], IfOk, OnOk, IfErr};
ghost use Rattle.std.specs.Borrow.{sem, RestsIfErr};
ghost use Rattle.sqlite.specs.contracts.connection.Connection.{the_row};
ghost use Rattle.sqlite.specs.Held.{state};
ghost use Rattle.sqlite.specs.State.{HasCleanDisk};
ghost use Rattle.adr_db.specs.Calls.{Finds, IsOfStore};
ghost use Rattle.adr_lent.specs.Lent.{Begins, Stands};
ghost use Rattle.adr_lent.specs.Selections.{Selects};
ghost use Rattle.adr_lent_image.specs.Merged.{groups_of};
ghost use Rattle.adr_lent_image.specs.Selected.{rows_of_intervals};

use crate::gathering::gather_all;
use crate::groups::Waiting;
use adr_db::statement::refusal_of;
use adr_lent::lend;
use adr_objects::{Number, UsageInterval};
use adr_text::Refusal;
use sqlite::{Alter, Connection, Error, Rows as LentRows};
use std::alloc::Global;

const READ_INTERVALS: &str =
    "SELECT report, pos, interval, value FROM report_value ORDER BY report, pos";

/// The intervals of all reports, by the numbers of the reports and then in their order.
pub fn lend_intervals<'conn, S: Alter>(
    conn: &'conn mut Connection<S>,
) -> Result<LentRows<'conn, S>, Error>
    ensures* refused { sem 𝓛 (RestsIfErr (the_row S.row S.Store) conn.entry (λ rows. rows.conn.ghost_name) result (Stands S.Store conn.old)) }
    ensures same_reference { IfOk result (λ rows. rows.conn.ghost_name ≡ conn.entry.ghost_name) }
    ensures begun { IfOk result (λ rows. Begins S.Store READ_INTERVALS.now [] conn.old rows.conn.now) }
    ensures selects { Selects S.Store READ_INTERVALS.now [] rows_of_intervals conn.old }
{
    lend(conn, READ_INTERVALS, &[])
}

/// The intervals of all reports, those of each behind its number.
pub fn lent_intervals<S: Alter>(
    alloc: Global,
    conn: &mut Connection<S>,
) -> Result<Waiting<UsageInterval>, Refusal>
    ensures finds { Finds S.Store conn.old conn.new (λ kept waiting. waiting ≡ groups_of kept.portfolio.reports) result }
    ensures was_open { HasCleanDisk (state S.Store conn.new) → OnOk result (IsTrue (state S.Store conn.old).is_open) }
    ensures stands { Stands S.Store conn.old conn.new }
    ensures refused { IfErr result IsOfStore }
{
    let mut rows = match lend_intervals(conn) {
        Ok(rows) => rows,
        Err(error) => return Err(refusal_of(error)),
    };
    gather_all::<(Number, UsageInterval), Waiting<UsageInterval>, S>(
        alloc,
        &mut rows,
        Waiting::new(alloc),
    )
}
