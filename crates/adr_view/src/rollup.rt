//! What the sites report of an event, in all.
ghost use Rattle.std.specs.Prelude.{◌≡◌, ◌≤◌, ◌+◌, length, map, unsigned_abs, IfOk};
ghost use Rattle.std.specs.List.{list_any};
ghost use Rattle.adr_objects.specs.Limits.{most_setpoint};
ghost use Rattle.adr_state.specs.Weights.{most_resources};
ghost use Rattle.adr_view.specs.Rollups.{usage_in, value_in, later, latest_of, latest, reports_of, reports_on, reporter_of, reporters, most_sum, plus, sum_at, missing_at, rollup_interval, is_carried, has_value, is_reported, carried, rollup_for, rollup_of, event_key, event_body, rollup_at};
ghost use Rattle.std.specs.Option.{option_copied};
ghost use Rattle.adr_state.specs.Keys.{mirror_cmp, at};

use adr_objects::{
    Body, EventBody, Interval, Kind, Number, Rollup, RollupInterval, Usage, UsageInterval,
};
use adr_state::{Base, Mark, MirrorKey, Participant, Portfolio, Report, participants_of};
use adr_text::{Name, ObjectId, Rows, Table};
use std::alloc::{AllocError, Global};
use std::collections::BTreeSet;

/// A participant's name, with the reports on it of one event.
#[derive(Drop)]
pub struct Reporter {
    pub name: Name,
    pub reports: Rows<Report>,
}

/// The usage that the intervals say of an id.
fn usage_in(id: i32, intervals: &[UsageInterval]) -> Option<Usage>
    ensures { result ≡ usage_in id intervals.now }
{
    for interval in intervals {
        if interval.id == id {
            return interval.usage;
        }
    }
    None
}

/// The value that a report has for an interval, behind its revision.
fn value_in(id: i32, report: &Report) -> Option<(Number, Usage)>
    ensures { result ≡ value_in id report.now }
{
    let usage = usage_in(id, report.body.intervals.as_slice())?;
    Some((report.revision, usage))
}

/// Of two values that of the greater revision.
fn later(one: Option<(Number, Usage)>, other: Option<(Number, Usage)>) -> Option<(Number, Usage)>
    ensures { result ≡ later one other }
{
    match (one, other) {
        (None, other) => other,
        (Some(one), None) => Some(one),
        (Some(one), Some(other)) => if one.0 < other.0 {
            Some(other)
        } else {
            Some(one)
        },
    }
}

/// The value of the report of greatest revision, behind it.
fn latest_of(id: i32, reports: &[Report]) -> Option<(Number, Usage)>
    ensures { result ≡ latest_of id reports.now }
{
    let mut best = None;
    for report in reports {
        best = later(best, value_in(id, report));
    }
    best
}

fn latest(id: i32, reports: &[Report]) -> Option<Usage>
    ensures { result ≡ latest id reports.now }
{
    match latest_of(id, reports) {
        Some(value) => Some(value.1),
        None => None,
    }
}

/// The reports of an upstream event.
fn reports_of(
    alloc: Global,
    event: &ObjectId,
    reports: &Table<Number, Report>,
) -> Result<Vec<Report>, AllocError>
    ensures { IfOk result (λ all. all.items ≡ reports_of event.now reports.now) }
{
    let mut all = Vec::new(alloc);
    for (_, report) in reports.iter() {
        if report.body.head.event == *event {
            all.push(report.clone()?)?;
        }
    }
    Ok(all)
}

/// Those on a resource.
fn reports_on(
    alloc: Global,
    resource: Number,
    reports: &[Report],
) -> Result<Rows<Report>, AllocError>
    ensures { IfOk result (λ all. all ≡ reports_on resource reports.now) }
{
    let mut all = Vec::new(alloc);
    for report in reports {
        if report.body.head.resource == resource {
            all.push(report.clone()?)?;
        }
    }
    Ok(Rows::from_vec(all))
}

fn reporter_of(alloc: Global, reports: &[Report], p: &Participant) -> Result<Reporter, AllocError>
    ensures { IfOk result (λ reporter. reporter ≡ reporter_of reports.now p.now) }
{
    Ok(Reporter {
        name: p.name.clone()?,
        reports: reports_on(alloc, p.resource, reports)?,
    })
}

/// The participants of an event, each with the reports on it among those of the event.
pub fn reporters(
    alloc: Global,
    reports: &[Report],
    ps: &[Participant],
) -> Result<Vec<Reporter>, AllocError>
    ensures value { IfOk result (λ all. all.items ≡ reporters reports.now ps.now) }
    ensures count { IfOk result (λ all. length all.items ≡ length ps.now) }
{
    let mut all = Vec::new(alloc);
    for p in ps {
        all.push(reporter_of(alloc, reports, p)?)?;
    }
    Ok(all)
}

/// A sum with one more value, where there is one.
fn plus(sum: i64, value: Option<Usage>) -> i64
    requires { unsigned_abs sum ≤ most_sum }
    ensures value { result ≡ plus sum value }
    ensures small { unsigned_abs result ≤ unsigned_abs sum + most_setpoint }
{
    match value {
        Some(usage) => sum + usage.get(),
        None => sum,
    }
}

/// The sum of the latest values in an interval. Each is of a magnitude of at most 10^12, so that of
/// 10,000 of them is at most 10^16.
fn sum_at(id: i32, rs: &[Reporter]) -> i64
    requires { length rs.now ≤ most_resources }
    ensures { result ≡ sum_at id rs.now }
{
    let mut sum = 0;
    for r in rs {
        sum = plus(sum, latest(id, r.reports.as_slice()));
    }
    sum
}

/// The names of those without a value in an interval.
fn names_without(alloc: Global, id: i32, rs: &[Reporter]) -> Result<BTreeSet<Name>, AllocError>
    ensures { IfOk result (λ names. names.keys ≡ missing_at id rs.now) }
{
    let mut names = BTreeSet::new(alloc);
    for r in rs {
        if latest(id, r.reports.as_slice()).is_none() {
            names.insert(r.name.clone()?)?;
        }
    }
    Ok(names)
}

/// They, ascending by bytes.
fn missing_at(alloc: Global, id: i32, rs: &[Reporter]) -> Result<Rows<Name>, AllocError>
    ensures { IfOk result (λ names. names ≡ missing_at id rs.now) }
{
    let names = names_without(alloc, id, rs)?;
    let mut all = Vec::new(alloc);
    for name in names.iter() {
        all.push(name.clone()?)?;
    }
    Ok(Rows::from_vec(all))
}

fn rollup_interval(
    alloc: Global,
    rs: &[Reporter],
    interval: &Interval,
) -> Result<RollupInterval, AllocError>
    requires { length rs.now ≤ most_resources }
    ensures { IfOk result (λ i. i ≡ rollup_interval rs.now interval.now) }
{
    Ok(RollupInterval {
        id: interval.id,
        sum: sum_at(interval.id, rs),
        missing: missing_at(alloc, interval.id, rs)?,
    })
}

fn is_carried(interval: &Interval) -> bool
    ensures { result ≡ is_carried interval.now }
{
    interval.setpoint.is_some()
}

/// The intervals that carry a setpoint, rolled up.
fn rollup_intervals(
    alloc: Global,
    rs: &[Reporter],
    intervals: &[Interval],
) -> Result<Rows<RollupInterval>, AllocError>
    requires { length rs.now ≤ most_resources }
    ensures { IfOk result (λ all. all ≡ map (rollup_interval rs.now) (carried intervals.now)) }
{
    let mut all = Vec::new(alloc);
    for interval in intervals {
        if is_carried(interval) {
            all.push(rollup_interval(alloc, rs, interval)?)?;
        }
    }
    Ok(Rows::from_vec(all))
}

/// Whether one has a value in the interval.
fn has_value(rs: &[Reporter], interval: &Interval) -> bool
    ensures { result ≡ has_value rs.now interval.now }
{
    rs.iter()
        .any(|r| latest(interval.id, r.reports.as_slice()).is_some())
}

/// Whether the interval carries a setpoint, and one has a value in it.
fn is_reported(rs: &[Reporter], interval: &Interval) -> bool
    ensures { result ≡ is_reported rs.now interval.now }
{
    is_carried(interval) && has_value(rs, interval)
}

fn has_reported(rs: &[Reporter], intervals: &[Interval]) -> bool
    ensures { result ≡ list_any (is_reported rs.now) intervals.now }
{
    intervals.iter().any(|i| is_reported(rs, i))
}

/// The roll-up of those who report, where one of them has a value for an interval that carries a
/// setpoint.
pub fn rollup_for(
    alloc: Global,
    event: &EventBody,
    rs: &[Reporter],
) -> Result<Option<Rollup>, AllocError>
    requires { length rs.now ≤ most_resources }
    ensures { IfOk result (λ rollup. rollup ≡ rollup_for event.now rs.now) }
{
    let intervals = event.intervals.as_slice();
    if !has_reported(rs, intervals) {
        return Ok(None);
    }
    Ok(Some(Rollup {
        program: event.program.clone()?,
        intervals: rollup_intervals(alloc, rs, intervals)?,
    }))
}

/// The roll-up of an event over its participants, where one of them has a value for an interval that
/// carries a setpoint.
pub fn rollup_of(
    alloc: Global,
    portfolio: &Portfolio,
    id: &ObjectId,
    event: &EventBody,
) -> Result<Option<Rollup>, AllocError>
    ensures { IfOk result (λ rollup. rollup ≡ rollup_of portfolio.now id.now event.now) }
{
    let ps = participants_of(alloc, portfolio, id, event)?;
    let reports = reports_of(alloc, id, &portfolio.reports)?;
    let rs = reporters(alloc, &reports, &ps)?;
    rollup_for(alloc, event, &rs)
}

/// The upstream key of an event.
pub fn event_key(id: &ObjectId) -> Result<MirrorKey, AllocError>
    ensures { IfOk result (λ key. key ≡ event_key id.now) }
{
    Ok(MirrorKey {
        kind: Kind::Event,
        id: id.clone()?,
    })
}

/// What an event says that is live upstream, where its body was read.
pub fn event_body(mark: Option<&Mark>) -> Option<&EventBody>
    ensures { option_copied result ≡ event_body (option_copied mark.entry) }
{
    match mark {
        Some(Mark::Live(_, Body::Event(event))) => Some(event),
        _ => None,
    }
}

/// What is known of an upstream key.
pub fn mark_at<'m>(mirror: &'m Table<MirrorKey, Mark>, key: &MirrorKey) -> Option<&'m Mark>
    ensures { option_copied result ≡ at mirror_cmp key.now mirror.now }
{
    mirror.get(key)
}

/// The roll-up of an upstream event, where it is live, its body was read, and one of its participants has
/// a value for an interval that carries a setpoint.
pub fn rollup_at(alloc: Global, base: &Base, id: &ObjectId) -> Result<Option<Rollup>, AllocError>
    ensures { IfOk result (λ rollup. rollup ≡ rollup_at base.now.mirror base.now.portfolio id.now) }
{
    let key = event_key(id)?;
    match event_body(mark_at(&base.mirror, &key)) {
        Some(event) => rollup_of(alloc, &base.portfolio, id, event),
        None => Ok(None),
    }
}
