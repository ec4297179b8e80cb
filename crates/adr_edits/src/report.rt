//! Reports: posted, replaced and removed.
ghost use Rattle.std.specs.Prelude.{◌≡◌, ◌≢◌, Ok, Err, option_map, IfOk, IfErr};
ghost use Rattle.std.specs.Option.{option_copied};
ghost use Rattle.adr_text.specs.declared.refusal.Refusal.TheVariants.{Store};
ghost use Rattle.adr_text.specs.Refusals.{IsRefusalOf};
ghost use Rattle.adr_state.specs.Names.{is_full};
ghost use Rattle.adr_state.specs.Portfolios.{carried_out};
ghost use Rattle.adr_state.specs.ShownIds.{resource_named};
ghost use Rattle.adr_view.specs.Reports.{is_shown_to, reported_of, reported_by, reported_in, reported, report_on, report_with_id, putting_report, report_made, report_replaced, report_removed, sees_resource, resource_of_event, resource_of_report, may_report, may_change, report_post, report_put, report_delete};

use adr_objects::{EventBody, Number, ReportIn};
use adr_state::{
    Limits, Mark, MirrorKey, Portfolio, Report, Resource, id_in, id_parts, number_in,
    participant_of, resource_named,
};
use adr_text::{ObjectId, Refusal, Table};
use adr_view::{
    Reported, Sight, carries, event_body, event_key, fits, kept_report, mark_at, sees_ven,
};
use std::alloc::{AllocError, Global};

// ---- what a report is on

/// Whether the event is shown to the resource.
fn is_shown_to(
    portfolio: &Portfolio,
    id: &ObjectId,
    event: &EventBody,
    number: Number,
    resource: &Resource,
) -> Result<bool, AllocError>
    ensures { IfOk result (λ yes. yes ≡ is_shown_to portfolio.now id.now event.now (number, resource.now)) }
{
    if !carries(event) {
        return Ok(false);
    }
    Ok(participant_of(portfolio, id, event, number, resource)?.is_some())
}

/// The event and the resource, where the event is shown to it.
fn reported_of(
    portfolio: &Portfolio,
    id: &ObjectId,
    event: &EventBody,
    number: Number,
    resource: &Resource,
) -> Result<Option<Reported>, AllocError>
    ensures { IfOk result (λ on. on ≡ reported_of portfolio.now (number, resource.now) id.now event.now) }
{
    if !is_shown_to(portfolio, id, event, number, resource)? {
        return Ok(None);
    }
    Ok(Some(Reported {
        event: id.clone()?,
        program: event.program.clone()?,
        resource: number,
        resource_name: resource.name.as_name().clone()?,
    }))
}

/// By the id of the upstream event.
fn reported_by(
    mirror: &Table<MirrorKey, Mark>,
    portfolio: &Portfolio,
    id: &ObjectId,
    number: Number,
    resource: &Resource,
) -> Result<Option<Reported>, AllocError>
    ensures { IfOk result (λ on. on ≡ reported_by mirror.now portfolio.now id.now (number, resource.now)) }
{
    let key = event_key(id)?;
    match event_body(mark_at(mirror, &key)) {
        Some(event) => reported_of(portfolio, id, event, number, resource),
        None => Ok(None),
    }
}

/// By the two parts of the id of a shown event.
fn reported_in(
    alloc: Global,
    mirror: &Table<MirrorKey, Mark>,
    portfolio: &Portfolio,
    resource: &str,
    event: &str,
) -> Result<Option<Reported>, AllocError>
    ensures { IfOk result (λ on. on ≡ reported_in mirror.now portfolio.now resource.now event.now) }
{
    let Some((number, resource)) = resource_named(alloc, portfolio, resource)? else {
        return Ok(None);
    };
    match id_in(alloc, event)? {
        Some(id) => reported_by(mirror, portfolio, &id, number, &resource),
        None => Ok(None),
    }
}

/// The shown event of an id, where it is there.
fn reported(
    alloc: Global,
    mirror: &Table<MirrorKey, Mark>,
    portfolio: &Portfolio,
    id: &ObjectId,
) -> Result<Option<Reported>, AllocError>
    ensures { IfOk result (λ on. on ≡ reported mirror.now portfolio.now id.now) }
{
    match id_parts(id) {
        (resource, Some(event)) => reported_in(alloc, mirror, portfolio, resource, event),
        (_, None) => Ok(None),
    }
}

/// The shown event that a report is on, which it fits.
fn report_on(
    alloc: Global,
    mirror: &Table<MirrorKey, Mark>,
    portfolio: &Portfolio,
    report: &ReportIn,
) -> Result<Reported, Refusal>
    ensures ok { IfOk result (λ on. report_on report.now mirror.now portfolio.now ≡ Ok on) }
    ensures refused { IfErr result (λ refusal. IsRefusalOf refusal (report_on report.now mirror.now portfolio.now)) }
    ensures no_store { result ≢ Err Store }
{
    let Some(on) = reported(alloc, mirror, portfolio, &report.event)? else {
        return Err(Refusal::NotFound);
    };
    if !fits(&on, report) {
        return Err(Refusal::ResourceNotOfEvent);
    }
    Ok(on)
}

// ---- who may report

/// Whether a resource that is named is in sight. Where none is named, nothing is out of sight.
fn sees_resource(sight: Sight, resource: Option<&Resource>) -> bool
    ensures { result ≡ sees_resource sight (option_copied resource.entry) }
{
    match resource {
        Some(resource) => sees_ven(sight, resource.ven),
        None => true,
    }
}

/// The resource whose id the text is.
fn resource_alone(
    alloc: Global,
    portfolio: &Portfolio,
    text: &str,
) -> Result<Option<Resource>, AllocError>
    ensures { IfOk result (λ resource. resource ≡ option_map (λ r. r.1) (resource_named portfolio.now text.now)) }
{
    match resource_named(alloc, portfolio, text)? {
        Some((_, resource)) => Ok(Some(resource)),
        None => Ok(None),
    }
}

/// The resource that the id of a shown event names, where it is there. An id without `-` names none.
fn resource_of_event(
    alloc: Global,
    id: &ObjectId,
    portfolio: &Portfolio,
) -> Result<Option<Resource>, AllocError>
    ensures { IfOk result (λ resource. resource ≡ resource_of_event id.now portfolio.now) }
{
    match id_parts(id) {
        (resource, Some(_)) => resource_alone(alloc, portfolio, resource),
        (_, None) => Ok(None),
    }
}

/// The resource that the report of an id is on, where it is there.
fn resource_of_report<'p>(id: &ObjectId, portfolio: &'p Portfolio) -> Option<&'p Resource>
    ensures { option_copied result ≡ resource_of_report id.now portfolio.now }
{
    let number = number_in(b'p', id)?;
    let report = portfolio.reports.get(&number)?;
    portfolio.resources.get(report.body.head.resource)
}

/// Whether who sees this much may report of the event that a report names.
fn may_report(
    alloc: Global,
    sight: Sight,
    report: &ReportIn,
    portfolio: &Portfolio,
) -> Result<bool, AllocError>
    ensures { IfOk result (λ yes. yes ≡ may_report sight report.now portfolio.now) }
{
    let resource = resource_of_event(alloc, &report.event, portfolio)?;
    Ok(sees_resource(sight, resource.as_ref()))
}

/// Whether who sees this much may change the report of an id.
fn may_change(sight: Sight, id: &ObjectId, portfolio: &Portfolio) -> bool
    ensures { result ≡ may_change sight id.now portfolio.now }
{
    sees_resource(sight, resource_of_report(id, portfolio))
}

// ---- what is decided

/// The number of the report of an id.
fn report_at(id: &ObjectId, portfolio: &Portfolio) -> Option<Number>
    ensures { result ≡ option_map (λ r. r.0) (report_with_id id.now portfolio.now) }
{
    let number = number_in(b'p', id)?;
    if portfolio.reports.get(&number).is_none() {
        return None;
    }
    Some(number)
}

/// Whether there are as many reports as may be.
fn is_full(limits: &Limits, portfolio: &Portfolio) -> bool
    ensures { result ≡ is_full limits.now.reports portfolio.now.reports }
{
    limits.reports.get() <= portfolio.reports.len() as u64
}

/// A report is put at its number, and answered with it.
fn put_kept(
    portfolio: &mut Portfolio,
    number: Number,
    kept: Report,
) -> Result<(Number, Report), AllocError>
    ensures { IfOk result (λ answer. carried_out portfolio.old (Ok (putting_report number kept)) ≡ Ok (answer, portfolio.new)) }
{
    let answer = kept.clone()?;
    portfolio.reports.put(number, kept)?;
    Ok((number, answer))
}

/// A new report, under the number that is handed in, which is its revision too.
fn report_made(
    alloc: Global,
    limits: &Limits,
    number: Number,
    mirror: &Table<MirrorKey, Mark>,
    portfolio: &mut Portfolio,
    report: &ReportIn,
) -> Result<(Number, Report), Refusal>
    ensures ok { IfOk result (λ answer. carried_out portfolio.old (report_made limits.now number report.now mirror.now portfolio.old) ≡ Ok (answer, portfolio.new)) }
    ensures refused { IfErr result (λ refusal. IsRefusalOf refusal (report_made limits.now number report.now mirror.now portfolio.old)) }
    ensures no_store { result ≢ Err Store }
{
    let on = report_on(alloc, mirror, portfolio, report)?;
    if is_full(limits, portfolio) {
        return Err(Refusal::LimitReached);
    }
    let kept = kept_report(number, &on, report)?;
    Ok(put_kept(portfolio, number, kept)?)
}

/// The report of an id says this from now on, with the number that is handed in as its revision.
fn report_replaced(
    alloc: Global,
    revision: Number,
    id: &ObjectId,
    mirror: &Table<MirrorKey, Mark>,
    portfolio: &mut Portfolio,
    report: &ReportIn,
) -> Result<(Number, Report), Refusal>
    ensures ok { IfOk result (λ answer. carried_out portfolio.old (report_replaced revision id.now report.now mirror.now portfolio.old) ≡ Ok (answer, portfolio.new)) }
    ensures refused { IfErr result (λ refusal. IsRefusalOf refusal (report_replaced revision id.now report.now mirror.now portfolio.old)) }
    ensures no_store { result ≢ Err Store }
{
    let Some(number) = report_at(id, portfolio) else {
        return Err(Refusal::NotFound);
    };
    let on = report_on(alloc, mirror, portfolio, report)?;
    let kept = kept_report(revision, &on, report)?;
    Ok(put_kept(portfolio, number, kept)?)
}

/// The report of an id goes, and is answered.
fn report_removed(id: &ObjectId, portfolio: &mut Portfolio) -> Result<(Number, Report), Refusal>
    ensures ok { IfOk result (λ answer. carried_out portfolio.old (report_removed id.now portfolio.old) ≡ Ok (answer, portfolio.new)) }
    ensures refused { IfErr result (λ refusal. IsRefusalOf refusal (report_removed id.now portfolio.old)) }
    ensures no_store { result ≢ Err Store }
{
    let Some(number) = number_in(b'p', id) else {
        return Err(Refusal::NotFound);
    };
    match portfolio.reports.remove(&number) {
        Some(report) => Ok((number, report)),
        None => Err(Refusal::NotFound),
    }
}

/// A new report of one who sees this much.
pub fn report_post(
    alloc: Global,
    limits: &Limits,
    sight: Sight,
    number: Number,
    mirror: &Table<MirrorKey, Mark>,
    portfolio: &mut Portfolio,
    report: &ReportIn,
) -> Result<(Number, Report), Refusal>
    ensures ok { IfOk result (λ answer. carried_out portfolio.old (report_post limits.now sight number report.now mirror.now portfolio.old) ≡ Ok (answer, portfolio.new)) }
    ensures refused { IfErr result (λ refusal. IsRefusalOf refusal (report_post limits.now sight number report.now mirror.now portfolio.old)) }
    ensures no_store { result ≢ Err Store }
{
    if !may_report(alloc, sight, report, portfolio)? {
        return Err(Refusal::Forbidden);
    }
    report_made(alloc, limits, number, mirror, portfolio, report)
}

/// The report of an id is replaced by one who sees this much.
pub fn report_put(
    alloc: Global,
    sight: Sight,
    revision: Number,
    id: &ObjectId,
    mirror: &Table<MirrorKey, Mark>,
    portfolio: &mut Portfolio,
    report: &ReportIn,
) -> Result<(Number, Report), Refusal>
    ensures ok { IfOk result (λ answer. carried_out portfolio.old (report_put sight revision id.now report.now mirror.now portfolio.old) ≡ Ok (answer, portfolio.new)) }
    ensures refused { IfErr result (λ refusal. IsRefusalOf refusal (report_put sight revision id.now report.now mirror.now portfolio.old)) }
    ensures no_store { result ≢ Err Store }
{
    if !may_change(sight, id, portfolio) || !may_report(alloc, sight, report, portfolio)? {
        return Err(Refusal::Forbidden);
    }
    report_replaced(alloc, revision, id, mirror, portfolio, report)
}

/// The report of an id is removed by one who sees this much.
pub fn report_delete(
    sight: Sight,
    id: &ObjectId,
    portfolio: &mut Portfolio,
) -> Result<(Number, Report), Refusal>
    ensures ok { IfOk result (λ answer. carried_out portfolio.old (report_delete sight id.now portfolio.old) ≡ Ok (answer, portfolio.new)) }
    ensures refused { IfErr result (λ refusal. IsRefusalOf refusal (report_delete sight id.now portfolio.old)) }
    ensures no_store { result ≢ Err Store }
{
    if !may_change(sight, id, portfolio) {
        return Err(Refusal::Forbidden);
    }
    report_removed(id, portfolio)
}
