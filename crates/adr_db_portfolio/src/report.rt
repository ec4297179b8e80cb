//! The table `report`: the reports on resources. Their intervals stand in `report_value`.
ghost use Rattle.std.specs.Prelude.{◌≡◌, ◌==◌, bytes_eq, map, filter, IfErr};
ghost use Rattle.std.specs.Ordering.{nat_cmp};
ghost use Rattle.sqlite.specs.Values.{bound_value};
ghost use Rattle.sqlite_value.specs.Value.{owned};
ghost use Rattle.adr_sql.specs.Keys.{with_row};
ghost use Rattle.adr_sql.specs.Contents.{rows_of_table, with_table};
ghost use Rattle.adr_sql.specs.Calls.{LeavesLent, Changes};
ghost use Rattle.adr_state.specs.Keys.{at};
ghost use Rattle.adr_state.specs.Portfolios.{reported_on, with_report, without_report};
ghost use Rattle.adr_db.specs.Tables.{schema};
ghost use Rattle.adr_db.specs.Kept.{whole_report, report_of, with_portfolio};
ghost use Rattle.adr_db.specs.Rows.{name_cell, number_row, report_row};
ghost use Rattle.adr_db.specs.Refusals.{RefusesToPut, RefusesToShow, CannotReadAll, CannotReadFirst};
ghost use Rattle.adr_db.specs.Admitted.{IsNumber, AreReportColumns, ReadsNumber, ReadsReportColumns};
ghost use Rattle.adr_db.specs.Calls.{LeavesKept, Finds, IsOfStore};
ghost use Rattle.adr_db_portfolio.specs.Columns.{columns_at};

use crate::report_value::{clear_values, put_values, read_values};
use adr_db::ReportColumns;
use adr_db::cells::number;
use adr_db::reading::{all_of, first_of};
use adr_db::statement::run;
use adr_objects::{Number, ReportBody, ReportName, UsageInterval};
use adr_state::Report;
use adr_text::{ObjectId, Refusal, Rows};
use sqlite::types::{ToSql, ValueRef};
use sqlite::{Alter, Transaction};
use std::alloc::Global;

const PUT: &str =
    "INSERT INTO report (id, event, resource, program, client, name, resource_name, revision) VALUES (?1, ?2, ?3, ?4, ?5, ?6, ?7, ?8) ON CONFLICT (id) DO UPDATE SET id = excluded.id, event = excluded.event, resource = excluded.resource, program = excluded.program, client = excluded.client, name = excluded.name, resource_name = excluded.resource_name, revision = excluded.revision";

const REMOVE: &str = "DELETE FROM report WHERE id = ?1";

const READ_ONE: &str =
    "SELECT id, event, resource, program, client, name, resource_name, revision FROM report WHERE id = ?1 ORDER BY id";

const READ_OF: &str =
    "SELECT id, event, resource, program, client, name, resource_name, revision FROM report WHERE event = ?1 ORDER BY id";

const READ_ON: &str = "SELECT id FROM report WHERE resource = ?1 ORDER BY id";

// A name, where there is one.
fn name_cell(name: &Option<ReportName>) -> ValueRef<'_>
    ensures { bound_value (owned result) ≡ name_cell name.now }
{
    match name {
        Some(name) => name.as_str().to_sql(),
        None => ValueRef::Null,
    }
}

// Puts the row of a report, without its intervals.
fn put_row<S: Alter>(
    tx: &mut Transaction<'_, S>,
    id: Number,
    report: &Report,
) -> Result<(), Refusal>
    ensures lent { LeavesLent S.Store tx.old.conn tx.new.conn result }
    ensures changes { Changes S.Store tx.old.conn.now tx.new.conn.now schema (λ all. with_table all 7 (with_row 1 (report_row (id, report.now)) (rows_of_table all 7))) result }
    ensures refused { IfErr result IsOfStore }
    ensures fails { RefusesToPut S.Store tx.old.conn.now tx.new.conn.now PUT.now (report_row (id, report.now)) result }
{
    let head = &report.body.head;
    run(
        tx,
        PUT,
        &[
            number(id.get())?,
            head.event.as_str().to_sql(),
            number(head.resource.get())?,
            head.program.as_str().to_sql(),
            head.client.as_str().to_sql(),
            name_cell(&head.name),
            head.resource_name.as_str().to_sql(),
            number(report.revision.get())?,
        ],
    )
}

/// Puts the report of a number, new or in the place of the one that has it.
pub fn put_report<S: Alter>(
    tx: &mut Transaction<'_, S>,
    id: Number,
    report: &Report,
) -> Result<(), Refusal>
    ensures lent { LeavesLent S.Store tx.old.conn tx.new.conn result }
    ensures leaves { LeavesKept S.Store tx.old.conn.now tx.new.conn.now (with_portfolio (with_report id report.now)) result }
    ensures refused { IfErr result IsOfStore }
{
    put_row(tx, id, report)?;
    clear_values(tx, id)?;
    put_values(tx, id, report.body.intervals.as_slice())
}

/// The report of a number goes, and with it its intervals.
pub fn remove_report<S: Alter>(tx: &mut Transaction<'_, S>, id: Number) -> Result<(), Refusal>
    ensures lent { LeavesLent S.Store tx.old.conn tx.new.conn result }
    ensures leaves { LeavesKept S.Store tx.old.conn.now tx.new.conn.now (with_portfolio (without_report id)) result }
    ensures refused { IfErr result IsOfStore }
    ensures fails { RefusesToPut S.Store tx.old.conn.now tx.new.conn.now REMOVE.now (number_row id) result }
{
    run(tx, REMOVE, &[number(id.get())?])
}

// A report of its columns and its intervals.
fn whole_report(columns: ReportColumns, intervals: Rows<UsageInterval>) -> Report
    ensures { result ≡ whole_report columns intervals }
{
    Report {
        revision: columns.revision,
        body: ReportBody {
            head: columns.head,
            intervals,
        },
    }
}

/// The columns of the report of a number, where there is one. Its intervals are not read.
pub fn read_columns<S: Alter>(
    alloc: Global,
    tx: &mut Transaction<'_, S>,
    id: Number,
) -> Result<Option<ReportColumns>, Refusal>
    ensures lent { LeavesLent S.Store tx.old.conn tx.new.conn result }
    ensures finds { Finds S.Store tx.old.conn.now tx.new.conn.now (λ kept found. found ≡ columns_at id kept) result }
    ensures refused { IfErr result IsOfStore }
    ensures fails { RefusesToShow S.Store tx.old.conn.now tx.new.conn.now READ_ONE.now (number_row id) (CannotReadFirst AreReportColumns ReadsReportColumns) result }
{
    first_of(alloc, tx, READ_ONE, &[number(id.get())?])
}

/// The report of a number, where there is one.
pub fn read_report<S: Alter>(
    alloc: Global,
    tx: &mut Transaction<'_, S>,
    id: Number,
) -> Result<Option<Report>, Refusal>
    ensures lent { LeavesLent S.Store tx.old.conn tx.new.conn result }
    ensures finds { Finds S.Store tx.old.conn.now tx.new.conn.now (λ kept found. found ≡ at nat_cmp id kept.portfolio.reports) result }
    ensures refused { IfErr result IsOfStore }
{
    let found = read_columns(alloc, tx, id)?;
    match found {
        Some(columns) => {
            let intervals = read_values(alloc, tx, id)?;
            Ok(Some(whole_report(columns, intervals)))
        }
        None => Ok(None),
    }
}

// Each with its intervals, which a query by their key reads.
fn with_values<S: Alter>(
    alloc: Global,
    tx: &mut Transaction<'_, S>,
    rows: Rows<(Number, ReportColumns)>,
) -> Result<Rows<(Number, Report)>, Refusal>
    ensures lent { LeavesLent S.Store tx.old.conn tx.new.conn result }
    ensures finds { Finds S.Store tx.old.conn.now tx.new.conn.now (λ kept reports. reports ≡ map (report_of kept) rows) result }
    ensures refused { IfErr result IsOfStore }
{
    let mut reports = Rows::new(alloc);
    'rows: for row in rows.into_vec() {
        let intervals = read_values(alloc, tx, row.0)?;
        reports.push((row.0, whole_report(row.1, intervals)))?;
    }
    Ok(reports)
}

/// The reports of an event, by their numbers. No report of another event is read.
pub fn read_reports_of<S: Alter>(
    alloc: Global,
    tx: &mut Transaction<'_, S>,
    event: &ObjectId,
) -> Result<Rows<(Number, Report)>, Refusal>
    ensures lent { LeavesLent S.Store tx.old.conn tx.new.conn result }
    ensures finds { Finds S.Store tx.old.conn.now tx.new.conn.now (λ kept reports. reports ≡ filter (λ r. bytes_eq r.1.body.head.event event.now) kept.portfolio.reports) result }
    ensures refused { IfErr result IsOfStore }
{
    let rows = all_of(alloc, tx, READ_OF, &[event.as_str().to_sql()])?;
    with_values(alloc, tx, rows)
}

/// The numbers of the reports on a resource, in their order. No report on another resource is read.
pub fn read_reports_on<S: Alter>(
    alloc: Global,
    tx: &mut Transaction<'_, S>,
    resource: Number,
) -> Result<Rows<Number>, Refusal>
    ensures lent { LeavesLent S.Store tx.old.conn tx.new.conn result }
    ensures finds { Finds S.Store tx.old.conn.now tx.new.conn.now (λ kept numbers. numbers ≡ map (λ r. r.0) (filter (λ r. reported_on r == resource) kept.portfolio.reports)) result }
    ensures refused { IfErr result IsOfStore }
    ensures fails { RefusesToShow S.Store tx.old.conn.now tx.new.conn.now READ_ON.now (number_row resource) (CannotReadAll IsNumber ReadsNumber) result }
{
    all_of(alloc, tx, READ_ON, &[number(resource.get())?])
}
