//! Reports as objects.
ghost use Rattle.std.specs.Prelude.{◌≡◌, map, Some, IfOk, IfErr};
ghost use Rattle.adr_sql.specs.Calls.{LeavesLent};
ghost use Rattle.adr_db.specs.Calls.{Finds, IsOfStore};
ghost use Rattle.adr_report_pages.specs.Objects.{object_with, object_kept};

use adr_db::ReportColumns;
use adr_db_portfolio::read_values;
use adr_db_state::read_stamps_of;
use adr_objects::{Number, ReportBody, ReportObject, Stamps, UsageInterval};
use adr_queries::Object;
use adr_state::ViewKey;
use adr_text::{Refusal, Rows};
use sqlite::{Alter, Transaction};
use std::alloc::Global;

// A report of its columns and its intervals, as an object. Where it has no stamps, the store refuses.
fn object_of(
    number: Number,
    columns: ReportColumns,
    intervals: Rows<UsageInterval>,
    stamps: Option<Stamps>,
) -> Result<Object, Refusal>
    ensures object { IfOk result (λ object. object_with (number, columns) intervals stamps ≡ Some object) }
    ensures refused { IfErr result IsOfStore }
{
    let body = ReportBody {
        head: columns.head,
        intervals,
    };
    match stamps {
        Some(stamps) => Ok(Object::Report(ReportObject {
            number,
            body,
            stamps,
        })),
        None => Err(Refusal::Store),
    }
}

// A report of its columns, as an object with the intervals and the stamps of its number.
fn told<S: Alter>(
    alloc: Global,
    tx: &mut Transaction<'_, S>,
    number: Number,
    columns: ReportColumns,
) -> Result<Object, Refusal>
    ensures lent { LeavesLent S.Store tx.old.conn tx.new.conn result }
    ensures finds { Finds S.Store tx.old.conn.now tx.new.conn.now (λ kept object. object_kept kept (number, columns) ≡ Some object) result }
    ensures refused { IfErr result IsOfStore }
{
    let intervals = read_values(alloc, tx, number)?;
    let stamps = read_stamps_of(tx, &ViewKey::Report(number))?;
    object_of(number, columns, intervals, stamps)
}

/// Reports of their columns, as objects, each with its intervals and its stamps, which are read by its number: nothing else is.
/// One without stamps is the store's refusal.
pub fn objects_of<S: Alter>(
    alloc: Global,
    tx: &mut Transaction<'_, S>,
    rows: Rows<(Number, ReportColumns)>,
) -> Result<Rows<Object>, Refusal>
    ensures lent { LeavesLent S.Store tx.old.conn tx.new.conn result }
    ensures finds { Finds S.Store tx.old.conn.now tx.new.conn.now (λ kept objects. map Some objects ≡ map (object_kept kept) rows) result }
    ensures refused { IfErr result IsOfStore }
{
    let mut objects = Rows::new(alloc);
    'rows: for row in rows.into_vec() {
        let object = told(alloc, tx, row.0, row.1)?;
        objects.push(object)?;
    }
    Ok(objects)
}
