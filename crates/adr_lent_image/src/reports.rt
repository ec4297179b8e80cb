//! All reports, whose columns take the intervals that were lent before them.
ghost use Rattle.std.specs.Prelude.{IsTrue, ◌≡◌, OnOk, IfErr};
ghost use Rattle.sqlite.specs.Held.{state};
ghost use Rattle.sqlite.specs.State.{HasCleanDisk};
ghost use Rattle.adr_db.specs.Calls.{Finds, IsOfStore};
ghost use Rattle.adr_lent.specs.Lent.{Stands};
ghost use Rattle.adr_db.specs.Kept.{whole_report};
ghost use Rattle.adr_lent_image.specs.Merged.{groups_of, with_columns};

use crate::gathering::{Gathering, gather_all};
use crate::groups::Waiting;
use crate::intervals::lent_intervals;
use adr_db::ReportColumns;
use adr_db::statement::refusal_of;
use adr_lent::lend_reports;
use adr_objects::{Number, ReportBody, UsageInterval};
use adr_state::Report;
use adr_text::{Refusal, Rows, Table};
use sqlite::{Alter, Connection, Error};
use std::alloc::Global;

/// The reports whose columns were lent, and the intervals that wait for the others.
#[derive(Drop)]
pub(crate) struct Merging {
    waiting: Waiting<UsageInterval>,
    reports: Table<Number, Report>,
}

// A report of its columns and its intervals.
fn whole_report(columns: ReportColumns, intervals: Rows<UsageInterval>) -> Report
    ensures { result ≡ whole_report columns intervals }
{
    Report {
        revision: columns.revision,
        body: ReportBody {
            head: columns.head,
            intervals,
        },
    }
}

/// The columns of each report behind its number, with the intervals that wait for it.
impl Gathering<(Number, ReportColumns)> for Merging {
    ghost after = { with_columns };

    fn gather(&mut self, alloc: Global, value: (Number, ReportColumns)) -> Result<(), Refusal> {
        let (number, columns) = value;
        let intervals = self.waiting.taken_first(alloc, number)?;
        Ok(self.reports.put(number, whole_report(columns, intervals))?)
    }
}

// The reports, by their numbers, each with the intervals that wait for it.
fn reports_with<S: Alter>(
    alloc: Global,
    conn: &mut Connection<S>,
    waiting: Waiting<UsageInterval>,
) -> Result<Table<Number, Report>, Refusal>
    ensures finds { Finds S.Store conn.old conn.new (λ kept reports. waiting ≡ groups_of kept.portfolio.reports → reports ≡ kept.portfolio.reports) result }
    ensures was_open { HasCleanDisk (state S.Store conn.new) → OnOk result (IsTrue (state S.Store conn.old).is_open) }
    ensures stands { Stands S.Store conn.old conn.new }
    ensures refused { IfErr result IsOfStore }
{
    let mut rows = match lend_reports(conn) {
        Ok(rows) => rows,
        Err(error) => return Err(refusal_of(error)),
    };
    let start = Merging {
        waiting,
        reports: Table::new(alloc),
    };
    let merged = gather_all::<(Number, ReportColumns), Merging, S>(alloc, &mut rows, start)?;
    Ok(merged.reports)
}

/// The reports, by their numbers. The intervals of all are lent first, and then the columns, so that each report takes its
/// intervals as it comes.
pub fn lent_reports<S: Alter>(
    alloc: Global,
    conn: &mut Connection<S>,
) -> Result<Table<Number, Report>, Refusal>
    ensures finds { Finds S.Store conn.old conn.new (λ kept reports. reports ≡ kept.portfolio.reports) result }
    ensures was_open { HasCleanDisk (state S.Store conn.new) → OnOk result (IsTrue (state S.Store conn.old).is_open) }
    ensures stands { Stands S.Store conn.old conn.new }
    ensures refused { IfErr result IsOfStore }
{
    let waiting = lent_intervals(alloc, conn)?;
    reports_with(alloc, conn, waiting)
}
