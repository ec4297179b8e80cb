//! What is in sight of who reports. Where all is, nothing is read to find out.
ghost use Rattle.std.specs.Prelude.{◌≡◌, ◌&&◌, option_map, IfErr};
ghost use Rattle.std.specs.Option.{option_copied};
ghost use Rattle.std.specs.Ordering.{nat_cmp};
ghost use Rattle.adr_state.specs.Keys.{at};
ghost use Rattle.adr_state.specs.ShownIds.{resource_named};
ghost use Rattle.adr_view.specs.Reports.{sees_resource, resource_of_event, may_report};
ghost use Rattle.adr_sql.specs.Calls.{LeavesLent};
ghost use Rattle.adr_db.specs.Calls.{Finds, IsOfStore};
ghost use Rattle.adr_reports.specs.Decided.{resource_of};

use crate::on::resource_named;
use adr_db_portfolio::read_resource;
use adr_objects::{Number, ReportIn};
use adr_state::{Report, Resource, id_parts};
use adr_text::{ObjectId, Refusal};
use adr_view::{Sight, sees_ven};
use sqlite::{Alter, Transaction};
use std::alloc::Global;

// Whether a resource that is named is in sight; where none is named, nothing is out of sight.
fn sees_resource(sight: Sight, resource: Option<&Resource>) -> bool
    ensures { result ≡ sees_resource sight (option_copied resource.entry) }
{
    match resource {
        Some(resource) => sees_ven(sight, resource.ven),
        None => true,
    }
}

// Without its number.
fn resource_alone(found: Option<(Number, Resource)>) -> Option<Resource>
    ensures { result ≡ option_map (λ r. r.1) found }
{
    match found {
        Some(row) => Some(row.1),
        None => None,
    }
}

// The resource whose id the text is.
fn resource_in<S: Alter>(
    alloc: Global,
    tx: &mut Transaction<'_, S>,
    text: &str,
) -> Result<Option<Resource>, Refusal>
    ensures lent { LeavesLent S.Store tx.old.conn tx.new.conn result }
    ensures finds { Finds S.Store tx.old.conn.now tx.new.conn.now (λ kept found. found ≡ option_map (λ r. r.1) (resource_named kept.portfolio text.now)) result }
    ensures refused { IfErr result IsOfStore }
{
    let found = resource_named(alloc, tx, text)?;
    Ok(resource_alone(found))
}

// The resource that the id of a shown event names, where it is there.
fn resource_of_event<S: Alter>(
    alloc: Global,
    tx: &mut Transaction<'_, S>,
    id: &ObjectId,
) -> Result<Option<Resource>, Refusal>
    ensures lent { LeavesLent S.Store tx.old.conn tx.new.conn result }
    ensures finds { Finds S.Store tx.old.conn.now tx.new.conn.now (λ kept found. found ≡ resource_of_event id.now kept.portfolio) result }
    ensures refused { IfErr result IsOfStore }
{
    match id_parts(id) {
        (resource, Some(_)) => resource_in(alloc, tx, resource),
        (_, None) => Ok(None),
    }
}

/// Whether who sees this much may report of the event that a report names.
pub(crate) fn may_report<S: Alter>(
    alloc: Global,
    tx: &mut Transaction<'_, S>,
    sight: Sight,
    report: &ReportIn,
) -> Result<bool, Refusal>
    ensures lent { LeavesLent S.Store tx.old.conn tx.new.conn result }
    ensures finds { Finds S.Store tx.old.conn.now tx.new.conn.now (λ kept may. may ≡ may_report sight report.now kept.portfolio) result }
    ensures refused { IfErr result IsOfStore }
{
    if sight == Sight::All {
        return Ok(true);
    }
    let resource = resource_of_event(alloc, tx, &report.event)?;
    Ok(sees_resource(sight, resource.as_ref()))
}

// Whether the resource of a number is in sight.
fn sees_number<S: Alter>(
    alloc: Global,
    tx: &mut Transaction<'_, S>,
    sight: Sight,
    number: Number,
) -> Result<bool, Refusal>
    ensures lent { LeavesLent S.Store tx.old.conn tx.new.conn result }
    ensures finds { Finds S.Store tx.old.conn.now tx.new.conn.now (λ kept sees. sees ≡ sees_resource sight (at nat_cmp number kept.portfolio.resources)) result }
    ensures refused { IfErr result IsOfStore }
{
    if sight == Sight::All {
        return Ok(true);
    }
    let resource = read_resource(alloc, tx, number)?;
    Ok(sees_resource(sight, resource.as_ref()))
}

/// Whether who sees this much may change a report that was found.
pub(crate) fn may_change<S: Alter>(
    alloc: Global,
    tx: &mut Transaction<'_, S>,
    sight: Sight,
    found: Option<&(Number, Report)>,
) -> Result<bool, Refusal>
    ensures lent { LeavesLent S.Store tx.old.conn tx.new.conn result }
    ensures finds { Finds S.Store tx.old.conn.now tx.new.conn.now (λ kept may. may ≡ sees_resource sight (resource_of (option_copied found.entry) kept.portfolio)) result }
    ensures refused { IfErr result IsOfStore }
{
    match found {
        Some(old) => sees_number(alloc, tx, sight, old.1.body.head.resource),
        None => Ok(true),
    }
}

/// Whether who sees this much may put a report in the place of one that was found: it may change that one,
/// and report of the event that the new one names.
pub(crate) fn may_put<S: Alter>(
    alloc: Global,
    tx: &mut Transaction<'_, S>,
    sight: Sight,
    found: Option<&(Number, Report)>,
    report: &ReportIn,
) -> Result<bool, Refusal>
    ensures lent { LeavesLent S.Store tx.old.conn tx.new.conn result }
    ensures finds { Finds S.Store tx.old.conn.now tx.new.conn.now (λ kept may. may ≡ (sees_resource sight (resource_of (option_copied found.entry) kept.portfolio) && may_report sight report.now kept.portfolio)) result }
    ensures refused { IfErr result IsOfStore }
{
    let changes = may_change(alloc, tx, sight, found)?;
    let reports = may_report(alloc, tx, sight, report)?;
    Ok(changes && reports)
}
