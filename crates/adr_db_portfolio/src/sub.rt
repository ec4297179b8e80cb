//! The table `sub`: the subscriptions.
ghost use Rattle.std.specs.Prelude.{◌≡◌, [], map, filter, string_bytes, IfOk, IfErr};
ghost use Rattle.std.specs.Ordering.{nat_cmp};
ghost use Rattle.sqlite.specs.Values.{bound_value};
ghost use Rattle.sqlite_value.specs.Value.{owned};
ghost use Rattle.adr_text.specs.declared.refusal.Refusal.TheVariants.{Store};
ghost use Rattle.adr_subscription.specs.Types.{IsSub};
ghost use Rattle.adr_subscription.specs.Kept.{kept_text};
ghost use Rattle.adr_state.specs.Keys.{at};
ghost use Rattle.adr_state.specs.Portfolios.{is_sub_of, with_sub, without_sub};
ghost use Rattle.adr_sql.specs.Calls.{LeavesLent};
ghost use Rattle.adr_db.specs.Kept.{with_portfolio};
ghost use Rattle.adr_db.specs.Rows.{owner_cell, number_row, sub_row};
ghost use Rattle.adr_db.specs.Refusals.{IsBeyond, RefusesToPut, RefusesToPutText, RefusesToShow, CannotReadAll, CannotReadFirst};
ghost use Rattle.adr_db.specs.Admitted.{IsNumber, IsKeptSub, IsSubEntry, ReadsNumber, ReadsSub, ReadsSubEntry};
ghost use Rattle.adr_db.specs.Calls.{LeavesKept, Finds, IsOfStore};

use adr_db::cells::number;
use adr_db::reading::{all_of, first_of, table_of};
use adr_db::statement::run;
use adr_objects::Number;
use adr_subscription::{Sub, kept_text};
use adr_text::{Refusal, Rows, Table};
use sqlite::types::{ToSql, ValueRef};
use sqlite::{Alter, Transaction};
use std::alloc::Global;

const PUT: &str =
    "INSERT INTO sub (id, ven, body, created, modified) VALUES (?1, ?2, ?3, ?4, ?5) ON CONFLICT (id) DO UPDATE SET id = excluded.id, ven = excluded.ven, body = excluded.body, created = excluded.created, modified = excluded.modified";

const REMOVE: &str = "DELETE FROM sub WHERE id = ?1";

const READ_ONE: &str = "SELECT id, ven, body, created, modified FROM sub WHERE id = ?1 ORDER BY id";

const READ_ALL: &str = "SELECT id, ven, body, created, modified FROM sub ORDER BY id";

const READ_OF: &str = "SELECT id FROM sub WHERE ven = ?1 ORDER BY id";

// The ven that one is of, where it is of one.
fn owner_cell(owner: Option<Number>) -> Result<ValueRef<'static>, Refusal>
    ensures value { IfOk result (λ value. bound_value (owned value) ≡ owner_cell owner) }
    ensures refused { IfErr result (λ refusal. (refusal ≡ Store) × IsBeyond (owner_cell owner)) }
{
    match owner {
        Some(ven) => number(ven.get()),
        None => Ok(ValueRef::Null),
    }
}

// Puts a subscription with the text that is kept of its body.
fn put_text<S: Alter>(
    tx: &mut Transaction<'_, S>,
    id: Number,
    sub: &Sub,
    text: &String,
) -> Result<(), Refusal>
    requires same { string_bytes text.now ≡ kept_text sub.now.body }
    requires valid { IsSub sub.now.body }
    ensures lent { LeavesLent S.Store tx.old.conn tx.new.conn result }
    ensures leaves { LeavesKept S.Store tx.old.conn.now tx.new.conn.now (with_portfolio (with_sub id sub.now)) result }
    ensures refused { IfErr result IsOfStore }
    ensures fails { RefusesToPut S.Store tx.old.conn.now tx.new.conn.now PUT.now (sub_row (id, sub.now)) result }
{
    run(
        tx,
        PUT,
        &[
            number(id.get())?,
            owner_cell(sub.owner)?,
            text.to_sql(),
            number(sub.stamps.created.nanos())?,
            number(sub.stamps.modified.nanos())?,
        ],
    )
}

/// Puts the subscription of a number, new or in the place of the one that has it.
pub fn put_sub<S: Alter>(
    alloc: Global,
    tx: &mut Transaction<'_, S>,
    id: Number,
    sub: &Sub,
) -> Result<(), Refusal>
    ensures lent { LeavesLent S.Store tx.old.conn tx.new.conn result }
    ensures leaves { LeavesKept S.Store tx.old.conn.now tx.new.conn.now (with_portfolio (with_sub id sub.now)) result }
    ensures refused { IfErr result IsOfStore }
    ensures fails { RefusesToPutText S.Store tx.old.conn.now tx.new.conn.now PUT.now (sub_row (id, sub.now)) result }
{
    let text = kept_text(alloc, &sub.body)?;
    put_text(tx, id, sub, &text)
}

/// The subscription of a number goes.
pub fn remove_sub<S: Alter>(tx: &mut Transaction<'_, S>, id: Number) -> Result<(), Refusal>
    ensures lent { LeavesLent S.Store tx.old.conn tx.new.conn result }
    ensures leaves { LeavesKept S.Store tx.old.conn.now tx.new.conn.now (with_portfolio (without_sub id)) result }
    ensures refused { IfErr result IsOfStore }
    ensures fails { RefusesToPut S.Store tx.old.conn.now tx.new.conn.now REMOVE.now (number_row id) result }
{
    run(tx, REMOVE, &[number(id.get())?])
}

/// The subscription of a number, where there is one.
pub fn read_sub<S: Alter>(
    alloc: Global,
    tx: &mut Transaction<'_, S>,
    id: Number,
) -> Result<Option<Sub>, Refusal>
    ensures lent { LeavesLent S.Store tx.old.conn tx.new.conn result }
    ensures finds { Finds S.Store tx.old.conn.now tx.new.conn.now (λ kept found. found ≡ at nat_cmp id kept.portfolio.subs) result }
    ensures refused { IfErr result IsOfStore }
    ensures fails { RefusesToShow S.Store tx.old.conn.now tx.new.conn.now READ_ONE.now (number_row id) (CannotReadFirst IsKeptSub ReadsSub) result }
{
    first_of(alloc, tx, READ_ONE, &[number(id.get())?])
}

/// The subscriptions, by their numbers.
pub fn read_subs<S: Alter>(
    alloc: Global,
    tx: &mut Transaction<'_, S>,
) -> Result<Table<Number, Sub>, Refusal>
    ensures lent { LeavesLent S.Store tx.old.conn tx.new.conn result }
    ensures finds { Finds S.Store tx.old.conn.now tx.new.conn.now (λ kept subs. subs ≡ kept.portfolio.subs) result }
    ensures refused { IfErr result IsOfStore }
    ensures fails { RefusesToShow S.Store tx.old.conn.now tx.new.conn.now READ_ALL.now [] (CannotReadAll IsSubEntry ReadsSubEntry) result }
{
    let entries = all_of(alloc, tx, READ_ALL, &[])?;
    table_of(alloc, entries)
}

/// The numbers of the subscriptions of a ven, in their order. None of another ven is read, and none of the operator.
pub fn read_subs_of<S: Alter>(
    alloc: Global,
    tx: &mut Transaction<'_, S>,
    ven: Number,
) -> Result<Rows<Number>, Refusal>
    ensures lent { LeavesLent S.Store tx.old.conn tx.new.conn result }
    ensures finds { Finds S.Store tx.old.conn.now tx.new.conn.now (λ kept numbers. numbers ≡ map (λ s. s.0) (filter (λ s. is_sub_of ven s.1) kept.portfolio.subs)) result }
    ensures refused { IfErr result IsOfStore }
    ensures fails { RefusesToShow S.Store tx.old.conn.now tx.new.conn.now READ_OF.now (number_row ven) (CannotReadAll IsNumber ReadsNumber) result }
{
    all_of(alloc, tx, READ_OF, &[number(ven.get())?])
}
