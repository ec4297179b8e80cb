//! The table `report_value`: the intervals of reports.
ghost use Rattle.std.specs.Prelude.{◌≡◌, IfErr};
ghost use Rattle.sqlite.specs.Values.{bound_value};
ghost use Rattle.sqlite.specs.declared.types.Value.TheVariants.{Int};
ghost use Rattle.sqlite_value.specs.Value.{owned};
ghost use Rattle.adr_sql.specs.Keys.{with_row, rows_without};
ghost use Rattle.adr_sql.specs.Calls.{LeavesLent};
ghost use Rattle.adr_db.specs.Kept.{intervals_of, with_value_rows};
ghost use Rattle.adr_db.specs.Rows.{usage_cell, number_row, value_row, value_rows_from};
ghost use Rattle.adr_db.specs.Refusals.{CannotReadAll, RefusesToPut, RefusesToShow};
ghost use Rattle.adr_db.specs.Admitted.{IsUsageInterval, ReadsUsageInterval};
ghost use Rattle.adr_db.specs.Calls.{ChangesValues, Finds, IsOfStore};

use adr_db::cells::number;
use adr_db::reading::all_of;
use adr_db::statement::run;
use adr_objects::{Number, Usage, UsageInterval};
use adr_text::{Refusal, Rows};
use sqlite::types::ValueRef;
use sqlite::{Alter, Transaction};
use std::alloc::Global;

const PUT: &str =
    "INSERT INTO report_value (report, pos, interval, value) VALUES (?1, ?2, ?3, ?4) ON CONFLICT (report, pos) DO UPDATE SET report = excluded.report, pos = excluded.pos, interval = excluded.interval, value = excluded.value";

const CLEAR: &str = "DELETE FROM report_value WHERE report = ?1";

const READ: &str =
    "SELECT report, pos, interval, value FROM report_value WHERE report = ?1 ORDER BY report, pos";

// The id of an interval.
fn id_cell(interval: &UsageInterval) -> ValueRef<'static>
    ensures { owned result ≡ Int interval.now.id }
{
    ValueRef::Int(i64::from(interval.id))
}

// A usage, where there is one.
fn usage_cell(usage: Option<Usage>) -> ValueRef<'static>
    ensures { bound_value (owned result) ≡ usage_cell usage }
{
    match usage {
        Some(usage) => ValueRef::Int(usage.get()),
        None => ValueRef::Null,
    }
}

// Puts the interval at a place of the report of a number.
fn put_value<S: Alter>(
    tx: &mut Transaction<'_, S>,
    report: Number,
    place: u64,
    interval: &UsageInterval,
) -> Result<(), Refusal>
    ensures lent { LeavesLent S.Store tx.old.conn tx.new.conn result }
    ensures changes { ChangesValues S.Store tx.old.conn.now tx.new.conn.now (with_row 2 (value_row report place interval.now)) result }
    ensures refused { IfErr result IsOfStore }
    ensures fails { RefusesToPut S.Store tx.old.conn.now tx.new.conn.now PUT.now (value_row report place interval.now) result }
{
    run(
        tx,
        PUT,
        &[
            number(report.get())?,
            number(place)?,
            id_cell(interval),
            usage_cell(interval.usage),
        ],
    )
}

/// Puts the intervals of the report of a number, each at its place.
pub(crate) fn put_values<S: Alter>(
    tx: &mut Transaction<'_, S>,
    report: Number,
    intervals: &[UsageInterval],
) -> Result<(), Refusal>
    ensures lent { LeavesLent S.Store tx.old.conn tx.new.conn result }
    ensures changes { ChangesValues S.Store tx.old.conn.now tx.new.conn.now (with_value_rows (value_rows_from report 0 intervals.now)) result }
    ensures refused { IfErr result IsOfStore }
{
    'intervals: for (place, interval) in intervals.iter().enumerate() {
        put_value(tx, report, place as u64, interval)?;
    }
    Ok(())
}

/// The intervals of the report of a number go.
pub(crate) fn clear_values<S: Alter>(
    tx: &mut Transaction<'_, S>,
    report: Number,
) -> Result<(), Refusal>
    ensures lent { LeavesLent S.Store tx.old.conn tx.new.conn result }
    ensures changes { ChangesValues S.Store tx.old.conn.now tx.new.conn.now (rows_without 1 (number_row report)) result }
    ensures refused { IfErr result IsOfStore }
    ensures fails { RefusesToPut S.Store tx.old.conn.now tx.new.conn.now CLEAR.now (number_row report) result }
{
    run(tx, CLEAR, &[number(report.get())?])
}

/// The intervals of the report of a number, in their order; none where there is no such report.
pub fn read_values<S: Alter>(
    alloc: Global,
    tx: &mut Transaction<'_, S>,
    report: Number,
) -> Result<Rows<UsageInterval>, Refusal>
    ensures lent { LeavesLent S.Store tx.old.conn tx.new.conn result }
    ensures finds { Finds S.Store tx.old.conn.now tx.new.conn.now (λ kept intervals. intervals ≡ intervals_of report kept) result }
    ensures refused { IfErr result IsOfStore }
    ensures fails { RefusesToShow S.Store tx.old.conn.now tx.new.conn.now READ.now (number_row report) (CannotReadAll IsUsageInterval ReadsUsageInterval) result }
{
    all_of(alloc, tx, READ, &[number(report.get())?])
}
