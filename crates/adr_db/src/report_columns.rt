//! A report as its row keeps it, and how a report and its intervals read from their rows.
ghost use Rattle.std.specs.Prelude.{◌≡◌, IfOk, IfErr, IfSome};
ghost use Rattle.sqlite.specs.Order.{column};
ghost use Rattle.adr_db.specs.Rows.{name_cell, usage_cell};
ghost use Rattle.adr_db.specs.Refusals.{CannotRead};
ghost use Rattle.adr_db.specs.Admitted.{IsReportNameText, AreReportColumns, ReadsReportColumns, IsUsage, IsUsageInterval, ReadsUsageInterval};

use crate::cells::{as_stored, column, id_in, is_null, name_in};
use crate::reading::FromRow;
use adr_objects::{Number, ReportHead, ReportName, Usage, UsageInterval};
use adr_text::Refusal;
use sqlite::Row;
use std::alloc::Global;

/// A report as its row keeps it: all but its intervals.
#[derive(Drop)]
pub struct ReportColumns {
    pub head: ReportHead,
    pub revision: Number,
}

// The name of a report, from its text.
fn report_name_at(alloc: Global, text: &str) -> Result<ReportName, Refusal>
    ensures name { IfOk result (λ name. name ≡ text.now) }
    ensures refused { IfErr result (CannotRead IsReportNameText (λ text name. name ≡ text) text.now) }
{
    match ReportName::new(alloc, text) {
        Ok(name) => Ok(name),
        Err(fault) => as_stored(Err(Refusal::from(fault))),
    }
}

// The name in the sixth column, where there is one.
fn report_name_in(alloc: Global, row: &Row) -> Result<Option<ReportName>, Refusal>
    ensures name { IfOk result (λ name. name_cell name ≡ column row.now 5) }
    ensures refused { IfErr result (CannotRead (λ name. IfSome name IsReportNameText) (λ value name. name_cell name ≡ value) (column row.now 5)) }
{
    if is_null(row, 5) {
        return Ok(None);
    }
    let text: String = column(row, 5)?;
    Ok(Some(report_name_at(alloc, text.as_str())?))
}

impl FromRow for ReportColumns {
    ghost reads = { ReadsReportColumns };

    ghost admits = { AreReportColumns };

    fn from_row(alloc: Global, row: &Row) -> Result<ReportColumns, Refusal> {
        Ok(ReportColumns {
            head: ReportHead {
                event: id_in(alloc, row, 1)?,
                resource: Number::new(column(row, 2)?),
                program: id_in(alloc, row, 3)?,
                client: name_in(alloc, row, 4)?,
                name: report_name_in(alloc, row)?,
                resource_name: name_in(alloc, row, 6)?,
            },
            revision: Number::new(column(row, 7)?),
        })
    }
}

// A usage of no greater magnitude than one may have.
fn usage_at(amount: i64) -> Result<Usage, Refusal>
    ensures usage { IfOk result (λ usage. usage ≡ amount) }
    ensures refused { IfErr result (CannotRead IsUsage (λ amount usage. usage ≡ amount) amount) }
{
    match Usage::new(amount) {
        Ok(usage) => Ok(usage),
        Err(_) => Err(Refusal::Store),
    }
}

// The usage in the fourth column, where there is one.
fn usage_in(row: &Row) -> Result<Option<Usage>, Refusal>
    ensures usage { IfOk result (λ usage. usage_cell usage ≡ column row.now 3) }
    ensures refused { IfErr result (CannotRead (λ usage. IfSome usage IsUsage) (λ value usage. usage_cell usage ≡ value) (column row.now 3)) }
{
    if is_null(row, 3) {
        return Ok(None);
    }
    let amount: i64 = column(row, 3)?;
    Ok(Some(usage_at(amount)?))
}

impl FromRow for UsageInterval {
    ghost reads = { ReadsUsageInterval };

    ghost admits = { IsUsageInterval };

    fn from_row(_: Global, row: &Row) -> Result<UsageInterval, Refusal> {
        Ok(UsageInterval {
            id: column(row, 2)?,
            usage: usage_in(row)?,
        })
    }
}
