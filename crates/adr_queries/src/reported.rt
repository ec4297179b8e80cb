//! What a role is told of reports and of roll-ups.
ghost use Rattle.std.specs.Prelude.{◌≡◌, ◌≢◌, Ok, Err, IfOk, IfErr};
ghost use Rattle.adr_text.specs.declared.refusal.Refusal.TheVariants.{Store};
ghost use Rattle.adr_text.specs.Refusals.{IsRefusalOf};
ghost use Rattle.adr_view.specs.Views.{report_row};
ghost use Rattle.adr_queries.specs.Reported.{sees_report, reports_in_sight, reports_reply, report_reply, rollup_told, rollup_reply};
ghost use Rattle.adr_queries.specs.Shown.{object_at};

use crate::answer::{Answer, Object};
use crate::filter::{ReportFilter, wanted_reports};
use crate::page::page_of;
use crate::query::Page;
use crate::role::{Role, is_operator};
use crate::shown::told;
use crate::sight::{sees_owned, sight_of};
use adr_objects::{Number, ReportObject, Rollup, Stamps};
use adr_state::{Base, Report, State, ViewKey, number_in, push_some};
use adr_text::{ObjectId, Refusal, Rows, Table};
use adr_view::{Sight, rollup_at, row_at};
use std::alloc::{AllocError, Global};

/// A report with its stamps, where it has some.
fn report_object(
    stamps: &Table<ViewKey, Stamps>,
    number: Number,
    report: &Report,
) -> Result<Option<Object>, AllocError>
    ensures { IfOk result (λ object. object ≡ object_at stamps.now (report_row (number, report.now))) }
{
    match row_at(stamps, &ViewKey::Report(number)) {
        Some(stamps) => Ok(Some(Object::Report(ReportObject {
            number,
            body: report.body.clone()?,
            stamps: *stamps,
        }))),
        None => Ok(None),
    }
}

/// Whether a report is in sight.
fn sees_report(base: &Base, sight: Sight, number: Number, report: &Report) -> bool
    ensures { result ≡ sees_report base.now sight (number, report.now) }
{
    sees_owned(base, sight, report.body.head.resource)
}

/// The reports in sight, by number, each with its stamps.
fn reports_in_sight(alloc: Global, state: &State, sight: Sight) -> Result<Vec<Object>, AllocError>
    ensures { IfOk result (λ all. all.items ≡ reports_in_sight state.now sight) }
{
    let mut all = Vec::new(alloc);
    for (number, report) in state.base.portfolio.reports.iter() {
        if sees_report(&state.base, sight, *number, report) {
            push_some(&mut all, report_object(&state.stamps, *number, report)?)?;
        }
    }
    Ok(all)
}

/// The reports that a role sees and the filter wants, or `Forbidden`.
pub(crate) fn reports_reply(
    alloc: Global,
    state: &State,
    role: &Role,
    filter: &ReportFilter,
    page: Page,
) -> Result<Answer, Refusal>
    ensures ok { IfOk result (λ answer. reports_reply state.now role.now filter.now page ≡ Ok answer) }
    ensures refused { IfErr result (λ refusal. IsRefusalOf refusal (reports_reply state.now role.now filter.now page)) }
    ensures no_store { result ≢ Err Store }
{
    let sight = sight_of(&state.base, role)?;
    let reports = reports_in_sight(alloc, state, sight)?;
    let wanted = wanted_reports(alloc, filter, reports)?;
    Ok(Answer::List(Rows::from_vec(page_of(alloc, page, wanted)?)))
}

/// The report of an id; `Forbidden` where it is out of sight, and `NotFound` where it isn't there.
pub(crate) fn report_reply(state: &State, role: &Role, id: &ObjectId) -> Result<Answer, Refusal>
    ensures ok { IfOk result (λ answer. report_reply state.now role.now id.now ≡ Ok answer) }
    ensures refused { IfErr result (λ refusal. IsRefusalOf refusal (report_reply state.now role.now id.now)) }
    ensures no_store { result ≢ Err Store }
{
    let sight = sight_of(&state.base, role)?;
    let Some(number) = number_in(b'p', id) else {
        return Err(Refusal::NotFound);
    };
    let Some(report) = state.base.portfolio.reports.get(&number) else {
        return Err(Refusal::NotFound);
    };
    if !sees_report(&state.base, sight, number, report) {
        return Err(Refusal::Forbidden);
    }
    told(report_object(&state.stamps, number, report)?)
}

/// What is told of a roll-up; `NotFound` where there is none.
pub fn rollup_told(event: ObjectId, rollup: Option<Rollup>) -> Result<Answer, Refusal>
    ensures { result ≡ rollup_told event rollup }
{
    match rollup {
        Some(rollup) => Ok(Answer::Rollup(event, rollup)),
        None => Err(Refusal::NotFound),
    }
}

/// The roll-up of an upstream event; `Forbidden` for another role than the operator, and `NotFound` where
/// there is none.
pub(crate) fn rollup_reply(
    alloc: Global,
    base: &Base,
    role: &Role,
    event: &ObjectId,
) -> Result<Answer, Refusal>
    ensures ok { IfOk result (λ answer. rollup_reply base.now role.now event.now ≡ Ok answer) }
    ensures refused { IfErr result (λ refusal. IsRefusalOf refusal (rollup_reply base.now role.now event.now)) }
    ensures no_store { result ≢ Err Store }
{
    if !is_operator(role) {
        return Err(Refusal::Forbidden);
    }
    rollup_told(event.clone()?, rollup_at(alloc, base, event)?)
}
