//! The table `sub`: the subscriptions of the operator, and those of a ven.
ghost use Rattle.std.specs.Prelude.{◌≡◌, [], filter, IfErr};
ghost use Rattle.adr_state.specs.Portfolios.{is_sub_of};
ghost use Rattle.adr_sql.specs.Calls.{LeavesLent};
ghost use Rattle.adr_db.specs.Rows.{number_row};
ghost use Rattle.adr_db.specs.Refusals.{RefusesToShow, CannotReadAll};
ghost use Rattle.adr_db.specs.Admitted.{IsSubEntry, ReadsSubEntry};
ghost use Rattle.adr_db.specs.Calls.{Finds, IsOfStore};
ghost use Rattle.adr_listeners.specs.Hearers.{is_operators};

use adr_db::cells::number;
use adr_db::reading::all_of;
use adr_objects::Number;
use adr_subscription::Sub;
use adr_text::{Refusal, Rows};
use sqlite::{Alter, Transaction};
use std::alloc::Global;

const READ_OF_OPERATOR: &str =
    "SELECT id, ven, body, created, modified FROM sub WHERE ven IS NULL ORDER BY id";

const READ_OF_VEN: &str =
    "SELECT id, ven, body, created, modified FROM sub WHERE ven = ?1 ORDER BY id";

/// The subscriptions of the operator, by their numbers. Of those of vens no text is read.
pub(crate) fn read_operators<S: Alter>(
    alloc: Global,
    tx: &mut Transaction<'_, S>,
) -> Result<Rows<(Number, Sub)>, Refusal>
    ensures lent { LeavesLent S.Store tx.old.conn tx.new.conn result }
    ensures finds { Finds S.Store tx.old.conn.now tx.new.conn.now (λ kept rows. rows ≡ filter (λ s. is_operators s.1) kept.portfolio.subs) result }
    ensures refused { IfErr result IsOfStore }
    ensures fails { RefusesToShow S.Store tx.old.conn.now tx.new.conn.now READ_OF_OPERATOR.now [] (CannotReadAll IsSubEntry ReadsSubEntry) result }
{
    all_of(alloc, tx, READ_OF_OPERATOR, &[])
}

/// The subscriptions of a ven, by their numbers. None of another is read.
pub(crate) fn read_of_ven<S: Alter>(
    alloc: Global,
    tx: &mut Transaction<'_, S>,
    ven: Number,
) -> Result<Rows<(Number, Sub)>, Refusal>
    ensures lent { LeavesLent S.Store tx.old.conn tx.new.conn result }
    ensures finds { Finds S.Store tx.old.conn.now tx.new.conn.now (λ kept rows. rows ≡ filter (λ s. is_sub_of ven s.1) kept.portfolio.subs) result }
    ensures refused { IfErr result IsOfStore }
    ensures fails { RefusesToShow S.Store tx.old.conn.now tx.new.conn.now READ_OF_VEN.now (number_row ven) (CannotReadAll IsSubEntry ReadsSubEntry) result }
{
    all_of(alloc, tx, READ_OF_VEN, &[number(ven.get())?])
}
