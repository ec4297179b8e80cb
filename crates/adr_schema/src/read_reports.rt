//! Reports of sites, read from JSON: first the shape of all of it, then its numbers.
ghost use Rattle.std.specs.Prelude.{◌≡◌, IfOk, codes, map};
ghost use Rattle.serde_json.specs.View.{view};
ghost use Rattle.adr_text.specs.Faults.{Finds};
ghost use Rattle.adr_text.specs.Fields.{member_of, required};
ghost use Rattle.adr_text.specs.Refusals.{Gives};
ghost use Rattle.adr_objects.specs.ReadBack.{as_bad_shape};
ghost use Rattle.adr_schema.specs.Bytes.{bytes_as};
ghost use Rattle.adr_schema.specs.Reports.{number_in, usage_in, posted_interval_in, posted_intervals_in, resource_of_report, posted_report_in, usage_at, usage_intervals, report_from, report_of};

use crate::posted::{PostedInterval, PostedReport};
use crate::read_site::told;
use crate::read_typed::{one_of, only_value};
use adr_objects::{IntervalList, ReportIn, Setpoint, Usage, UsageInterval, UsageIntervals};
use adr_text::{
    Fault, FromJson, Refusal, Whole, all, maybe, member, needed, objects, read_value, whole,
};
use serde_json::Value;
use std::alloc::Global;

// A number, whole or not.
fn number(value: &Value) -> Result<Whole, Fault>
    ensures { Finds (λ number. number) result (number_in (view value.now)) }
{
    match whole(value) {
        Whole::NoNumber => Err(Fault::BadShape),
        number => Ok(number),
    }
}

// The usage that payloads say, whatever number it is.
#[tactic(auto, unfolding(crate::specs::Reports::usage_in))]
fn usage(payloads: &Value) -> Result<Option<Whole>, Fault>
    ensures { Finds (λ usage. usage) result (usage_in (view payloads.now)) }
{
    match only_value(payloads, "USAGE")? {
        Some(found) => Ok(Some(number(found)?)),
        None => Ok(None),
    }
}

// The usage of an interval, whose payloads have to be there.
fn usage_of(interval: &Value) -> Result<Option<Whole>, Fault>
    ensures { Finds (λ usage. usage) result
        (required (member_of (codes "payloads") (view interval.now)) usage_in) }
{
    match member(interval, "payloads") {
        Some(found) => usage(found),
        None => Err(Fault::BadShape),
    }
}

impl FromJson for PostedInterval {
    ghost of = { posted_interval_in };

    #[tactic(auto, unfolding(crate::specs::Reports::posted_interval_in))]
    fn from_json(alloc: Global, value: &Value) -> Result<PostedInterval, Fault> {
        let id = needed(alloc, value, "id")?;
        let usage = usage_of(value)?;
        Ok(PostedInterval { id, usage })
    }
}

// At most 1,000 intervals.
#[tactic(auto, unfolding(crate::specs::Reports::posted_intervals_in))]
fn intervals(alloc: Global, value: &Value) -> Result<IntervalList<PostedInterval>, Fault>
    ensures { Finds (λ is. is) result (posted_intervals_in (view value.now)) }
{
    let values = objects(value)?;
    if values.len() > 1000 {
        return Err(Fault::BadShape);
    }
    IntervalList::apart(all(alloc, values)?)
}

// The intervals of a resource, which have to be there.
fn intervals_of(alloc: Global, resource: &Value) -> Result<IntervalList<PostedInterval>, Fault>
    ensures { Finds (λ is. is) result
        (required (member_of (codes "intervals") (view resource.now)) posted_intervals_in) }
{
    match member(resource, "intervals") {
        Some(found) => intervals(alloc, found),
        None => Err(Fault::BadShape),
    }
}

// The one resource that a report is of.
fn resource_of(report: &Value) -> Result<&Value, Fault>
    ensures { Finds (λ v. view v.now) result (resource_of_report (view report.now)) }
{
    match member(report, "resources") {
        Some(found) => one_of(objects(found)?),
        None => Err(Fault::BadShape),
    }
}

// The shape of a report.
#[tactic(auto, unfolding(crate::specs::Reports::posted_report_in))]
fn posted_report(alloc: Global, value: &Value) -> Result<PostedReport, Fault>
    ensures { Finds (λ report. report) result (posted_report_in (view value.now)) }
{
    let program = needed(alloc, value, "programID")?;
    let event = needed(alloc, value, "eventID")?;
    let client = needed(alloc, value, "clientName")?;
    let name = maybe(alloc, value, "reportName")?;
    let resource = resource_of(value)?;
    let resource_name = needed(alloc, resource, "resourceName")?;
    let intervals = intervals_of(alloc, resource)?;
    Ok(PostedReport {
        program,
        event,
        client,
        name,
        resource_name,
        intervals,
    })
}

// The shape of the report that the bytes are. Whatever its fault is, it has the wrong shape.
fn posted(alloc: Global, bytes: &[u8]) -> Result<PostedReport, Refusal>
    ensures { Gives (λ report. report) result
        (as_bad_shape (bytes_as posted_report_in bytes.now)) }
{
    match read_value(alloc, bytes).and_then(|value| posted_report(alloc, &value)) {
        Ok(report) => Ok(report),
        Err(Fault::OutOfMemory) => Err(Refusal::OutOfMemory),
        Err(_) => Err(Refusal::BadShape),
    }
}

// A usage, which has to be whole and in range.
fn usage_at(number: Option<Whole>) -> Result<Option<Usage>, Fault>
    ensures { result ≡ usage_at number }
{
    match number {
        Some(number) => Ok(Some(Setpoint::new(number.to_i64()?)?)),
        None => Ok(None),
    }
}

// Each interval in turn, with the id that it was posted with.
fn usage_intervals(alloc: Global, posted: &[PostedInterval]) -> Result<Vec<UsageInterval>, Fault>
    ensures items { Finds (λ v. v.items) result (usage_intervals posted.now) }
    ensures ids { IfOk result (λ v. map (λ (i : UsageInterval). i.id) v.items
        ≡ map (λ (p : PostedInterval). p.id) posted.now) }
{
    let mut intervals: Vec<UsageInterval> = Vec::new(alloc);
    for p in posted {
        let usage = usage_at(p.usage)?;
        intervals.push(UsageInterval { id: p.id, usage })?;
    }
    Ok(intervals)
}

// The report, where its numbers are as they have to be.
fn report_from(alloc: Global, posted: PostedReport) -> Result<ReportIn, Fault>
    ensures { Finds (λ report. report) result (report_from posted) }
{
    let intervals = usage_intervals(alloc, posted.intervals.as_slice())?;
    Ok(ReportIn {
        program: posted.program,
        event: posted.event,
        client: posted.client,
        name: posted.name,
        resource_name: posted.resource_name,
        intervals: UsageIntervals::of(intervals),
    })
}

/// The report that the bytes are (OpenADR 3.0, REPORT); `BadShape` where any of it has another form,
/// and else `NotWhole` where a usage is not whole or its magnitude is above 10^12.
#[tactic(auto, using(crate::proofs::Refusals::told_gives), unfolding(crate::specs::Reports::report_of))]
pub fn read_report(alloc: Global, bytes: &[u8]) -> Result<ReportIn, Refusal>
    ensures { Gives (λ x. x) result (report_of bytes.now) }
{
    let posted = posted(alloc, bytes)?;
    told(report_from(alloc, posted))
}
