//! Reports are posted, replaced and removed.
ghost use Rattle.std.specs.Prelude.{◌≡◌, true, is_some, [], ◌∷◌, Ok, IfErr};
ghost use Rattle.std.specs.Ordering.{nat_cmp};
ghost use Rattle.adr_text.specs.Refusals.{or_else};
ghost use Rattle.adr_text.specs.declared.refusal.Refusal.TheVariants.{Forbidden, NotFound, ResourceNotOfEvent, LimitReached};
ghost use Rattle.adr_state.specs.Keys.{at};
ghost use Rattle.adr_view.specs.Reports.{kept_report, report_on, putting_report, report_with_id, report_made, report_post, report_put, report_delete};
ghost use Rattle.adr_sql.specs.Calls.{LeavesLent};
ghost use Rattle.adr_db.specs.Calls.{IsOfStore, IsOneOf};
ghost use Rattle.adr_db.specs.BaseCalls.{Carries, CarriesWhere, Refuses, RefusesOn};
ghost use Rattle.adr_counted.specs.There.{IsThere};
ghost use Rattle.adr_reports.specs.Decided.{fitting, FindsOr, put_again, replaced, removed};

use crate::on::reported;
use crate::sight::{may_change, may_put, may_report};
use adr_counted::{add_report, put_report, remove_report};
use adr_db::Meta;
use adr_db_portfolio::report_with_id;
use adr_objects::{Number, ReportIn};
use adr_state::{Limits, Report};
use adr_text::{ObjectId, Refusal};
use adr_view::{Reported, Sight, fits, kept_report};
use sqlite::{Alter, Transaction};
use std::alloc::Global;

// The shown event that was found, where the report fits it.
fn fitting(found: Option<Reported>, report: &ReportIn) -> Result<Reported, Refusal>
    ensures gives { result ≡ fitting found report.now }
    ensures refused { IfErr result (IsOneOf (NotFound ∷ ResourceNotOfEvent ∷ [])) }
{
    let Some(on) = found else {
        return Err(Refusal::NotFound);
    };
    if !fits(&on, report) {
        return Err(Refusal::ResourceNotOfEvent);
    }
    Ok(on)
}

// The report that was found.
fn there(found: Option<(Number, Report)>) -> Result<(Number, Report), Refusal>
    ensures gives { result ≡ or_else NotFound found }
    ensures refused { IfErr result (IsOneOf (NotFound ∷ [])) }
{
    found.ok_or(Refusal::NotFound)
}

/// The shown event that a report is on, which it fits.
fn report_on<S: Alter>(
    alloc: Global,
    tx: &mut Transaction<'_, S>,
    report: &ReportIn,
) -> Result<Reported, Refusal>
    ensures lent { LeavesLent S.Store tx.old.conn tx.new.conn result }
    ensures finds { FindsOr S.Store tx.old.conn.now tx.new.conn.now (λ kept. report_on report.now kept.mirror kept.portfolio) result }
    ensures refuses { Refuses S.Store tx.old.conn.now tx.new.conn.now (λ kept. report_on report.now kept.mirror kept.portfolio) result }
    ensures refused { IfErr result (IsOneOf (NotFound ∷ ResourceNotOfEvent ∷ [])) }
{
    let found = reported(alloc, tx, &report.event)?;
    fitting(found, report)
}

// Posts a report under a number, which is its revision too, and answers it.
fn add_kept<S: Alter>(
    alloc: Global,
    tx: &mut Transaction<'_, S>,
    meta: &mut Meta,
    number: Number,
    on: &Reported,
    report: &ReportIn,
) -> Result<(Number, Report), Refusal>
    ensures lent { LeavesLent S.Store tx.old.conn tx.new.conn result }
    ensures carries { Carries S.Store tx.old.conn.now tx.new.conn.now (λ base. Ok (putting_report number (kept_report number on.now report.now))) meta.old meta.new result }
    ensures refused { IfErr result IsOfStore }
{
    let kept = kept_report(number, on, report)?;
    add_report(alloc, tx, meta, number, &kept)?;
    Ok((number, kept))
}

// Puts a report in the place of that of a number, with its revision, and answers it.
fn put_kept<S: Alter>(
    tx: &mut Transaction<'_, S>,
    meta: &mut Meta,
    number: Number,
    revision: Number,
    on: &Reported,
    report: &ReportIn,
) -> Result<(Number, Report), Refusal>
    ensures lent { LeavesLent S.Store tx.old.conn tx.new.conn result }
    ensures carries { CarriesWhere S.Store tx.old.conn.now tx.new.conn.now (λ p. is_some (at nat_cmp number p.reports) ≡ true) (λ base. Ok (putting_report number (kept_report revision on.now report.now))) meta.old meta.new result }
    ensures refused { IfErr result IsOfStore }
{
    let kept = kept_report(revision, on, report)?;
    put_report(tx, meta, number, &kept, true)?;
    Ok((number, kept))
}

// Posts a report on the event that it names, whoever may.
fn make<S: Alter>(
    alloc: Global,
    tx: &mut Transaction<'_, S>,
    limits: &Limits,
    meta: &mut Meta,
    number: Number,
    report: &ReportIn,
) -> Result<(Number, Report), Refusal>
    ensures lent { LeavesLent S.Store tx.old.conn tx.new.conn result }
    ensures carries { Carries S.Store tx.old.conn.now tx.new.conn.now (λ base. report_made limits.now number report.now base.mirror base.portfolio) meta.old meta.new result }
    ensures refuses { RefusesOn S.Store tx.old.conn.now tx.new.conn.now (λ base. report_made limits.now number report.now base.mirror base.portfolio) meta.old result }
    ensures refused { IfErr result (IsOneOf (NotFound ∷ ResourceNotOfEvent ∷ LimitReached ∷ [])) }
{
    let on = report_on(alloc, tx, report)?;
    let full = limits.reports.get() <= meta.reports;
    Refusal::LimitReached.unless(!full)?;
    add_kept(alloc, tx, meta, number, &on, report)
}

/// Posts a report under the number that is handed in, which is its revision too, and answers it with the
/// number. The numbers of the node are handed in too, and are left as the caller has to put them. Refused with
/// `Forbidden` where the resource that the event names is there and out of sight, before all else; with `NotFound`
/// where the shown event isn't there, with `ResourceNotOfEvent` where the report names another resource or program
/// than the event's, and with `LimitReached`.
pub fn post<S: Alter>(
    alloc: Global,
    tx: &mut Transaction<'_, S>,
    limits: &Limits,
    meta: &mut Meta,
    sight: Sight,
    number: Number,
    report: &ReportIn,
) -> Result<(Number, Report), Refusal>
    ensures lent { LeavesLent S.Store tx.old.conn tx.new.conn result }
    ensures carries { Carries S.Store tx.old.conn.now tx.new.conn.now (λ base. report_post limits.now sight number report.now base.mirror base.portfolio) meta.old meta.new result }
    ensures refuses { RefusesOn S.Store tx.old.conn.now tx.new.conn.now (λ base. report_post limits.now sight number report.now base.mirror base.portfolio) meta.old result }
    ensures refused { IfErr result (IsOneOf (Forbidden ∷ NotFound ∷ ResourceNotOfEvent ∷ LimitReached ∷ [])) }
{
    let may = may_report(alloc, tx, sight, report)?;
    Refusal::Forbidden.unless(may)?;
    make(alloc, tx, limits, meta, number, report)
}

/// Puts a report in the place of that of a number.
fn put_at<S: Alter>(
    alloc: Global,
    tx: &mut Transaction<'_, S>,
    meta: &mut Meta,
    revision: Number,
    number: Number,
    report: &ReportIn,
) -> Result<(Number, Report), Refusal>
    ensures lent { LeavesLent S.Store tx.old.conn tx.new.conn result }
    ensures carries { CarriesWhere S.Store tx.old.conn.now tx.new.conn.now (λ p. is_some (at nat_cmp number p.reports) ≡ true) (λ base. put_again revision number report.now base.mirror base.portfolio) meta.old meta.new result }
    ensures refuses { RefusesOn S.Store tx.old.conn.now tx.new.conn.now (λ base. put_again revision number report.now base.mirror base.portfolio) meta.old result }
    ensures refused { IfErr result (IsOneOf (NotFound ∷ ResourceNotOfEvent ∷ [])) }
{
    let on = report_on(alloc, tx, report)?;
    put_kept(tx, meta, number, revision, &on, report)
}

// Puts a report in the place of one that was found.
fn put_found<S: Alter>(
    alloc: Global,
    tx: &mut Transaction<'_, S>,
    meta: &mut Meta,
    sight: Sight,
    revision: Number,
    found: Option<(Number, Report)>,
    report: &ReportIn,
) -> Result<(Number, Report), Refusal>
    ensures lent { LeavesLent S.Store tx.old.conn tx.new.conn result }
    ensures carries { CarriesWhere S.Store tx.old.conn.now tx.new.conn.now (λ p. IsThere found p.reports) (λ base. replaced sight revision found report.now base.mirror base.portfolio) meta.old meta.new result }
    ensures refuses { RefusesOn S.Store tx.old.conn.now tx.new.conn.now (λ base. replaced sight revision found report.now base.mirror base.portfolio) meta.old result }
    ensures refused { IfErr result (IsOneOf (Forbidden ∷ NotFound ∷ ResourceNotOfEvent ∷ [])) }
{
    let may = may_put(alloc, tx, sight, found.as_ref(), report)?;
    Refusal::Forbidden.unless(may)?;
    let old = there(found)?;
    put_at(alloc, tx, meta, revision, old.0, report)
}

/// Puts a report in the place of that of an id, with the number that is handed in as its revision, and answers
/// it with its number. It may be on another event. The numbers of the node are handed in, as to `post`. Refused with
/// `Forbidden` where the resource that the report is on, or the one that the event names, is there and out of sight,
/// before all else; with `NotFound` where the report or the shown event isn't there, and with `ResourceNotOfEvent` as
/// a new one.
pub fn put<S: Alter>(
    alloc: Global,
    tx: &mut Transaction<'_, S>,
    meta: &mut Meta,
    sight: Sight,
    revision: Number,
    id: &ObjectId,
    report: &ReportIn,
) -> Result<(Number, Report), Refusal>
    ensures lent { LeavesLent S.Store tx.old.conn tx.new.conn result }
    ensures carries { Carries S.Store tx.old.conn.now tx.new.conn.now (λ base. report_put sight revision id.now report.now base.mirror base.portfolio) meta.old meta.new result }
    ensures refuses { RefusesOn S.Store tx.old.conn.now tx.new.conn.now (λ base. report_put sight revision id.now report.now base.mirror base.portfolio) meta.old result }
    ensures refused { IfErr result (IsOneOf (Forbidden ∷ NotFound ∷ ResourceNotOfEvent ∷ [])) }
{
    let found = report_with_id(alloc, tx, id)?;
    put_found(alloc, tx, meta, sight, revision, found, report)
}

// Removes a report that was found.
fn remove<S: Alter>(
    tx: &mut Transaction<'_, S>,
    meta: &mut Meta,
    found: Option<(Number, Report)>,
) -> Result<(Number, Report), Refusal>
    ensures lent { LeavesLent S.Store tx.old.conn tx.new.conn result }
    ensures carries { CarriesWhere S.Store tx.old.conn.now tx.new.conn.now (λ p. IsThere found p.reports) (λ base. removed found base.portfolio) meta.old meta.new result }
    ensures refuses { RefusesOn S.Store tx.old.conn.now tx.new.conn.now (λ base. removed found base.portfolio) meta.old result }
    ensures refused { IfErr result (IsOneOf (NotFound ∷ [])) }
{
    let old = there(found)?;
    remove_report(tx, meta, old.0)?;
    Ok(old)
}

/// Removes the report of an id, and answers it with its number. The numbers of the node are handed in, as to `post`.
/// Refused with `Forbidden` where the resource that it is on is out of sight, and with `NotFound` where it isn't there.
pub fn delete<S: Alter>(
    alloc: Global,
    tx: &mut Transaction<'_, S>,
    meta: &mut Meta,
    sight: Sight,
    id: &ObjectId,
) -> Result<(Number, Report), Refusal>
    ensures lent { LeavesLent S.Store tx.old.conn tx.new.conn result }
    ensures carries { Carries S.Store tx.old.conn.now tx.new.conn.now (λ base. report_delete sight id.now base.portfolio) meta.old meta.new result }
    ensures refuses { RefusesOn S.Store tx.old.conn.now tx.new.conn.now (λ base. report_delete sight id.now base.portfolio) meta.old result }
    ensures refused { IfErr result (IsOneOf (Forbidden ∷ NotFound ∷ [])) }
{
    let found = report_with_id(alloc, tx, id)?;
    let may = may_change(alloc, tx, sight, found.as_ref())?;
    Refusal::Forbidden.unless(may)?;
    remove(tx, meta, found)
}
