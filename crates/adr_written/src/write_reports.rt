//! Reports and roll-ups, written as JSON.
ghost use Rattle.std.specs.Prelude.{◌≡◌, ◌∷◌, codes, map, IfOk, OnOk, string_bytes};
ghost use Rattle.serde_json.specs.Data.{string};
ghost use Rattle.serde_json.specs.View.{view, members_view};
ghost use Rattle.adr_text.specs.Objects.{add_all, array_of};
ghost use Rattle.adr_written.specs.Objects.{values_data};
ghost use Rattle.adr_written.specs.WrittenReports.{resources_data, usage_interval_data, report_object_head, report_object_tail, report_object_data, missing_data, sum_data, rollup_interval_data, rollup_resources, rollup_object_data, report_text, rollup_text};

use crate::ids::{report_id, shown_id};
use crate::write_fields::{Written, compact, list_of, payloads, put_text, valued, with_values};
use adr_objects::{ReportObject, Rollup, RollupInterval, RollupObject, UsageInterval};
use adr_text::{Name, array, put, put_maybe};
use serde_json::{Map, Value};
use std::alloc::{AllocError, Global};

/// A list of one resource: its intervals and its name.
#[tactic(auto, unfolding(crate::specs::WrittenReports::resources_data))]
pub fn resources(alloc: Global, intervals: Value, name: &str) -> Result<Value, AllocError>
    ensures { IfOk result (λ v. view v ≡ resources_data (view intervals) name.now) }
{
    let mut members = Map::new(alloc);
    serde_json::put(&mut members, alloc, "intervals", intervals)?;
    put_text(&mut members, alloc, "resourceName", name)?;
    let resource = Value::Object(members);
    Ok(Value::Array(vec![in alloc; resource]?))
}

impl Written for UsageInterval {
    ghost json = { usage_interval_data };

    #[tactic(auto, unfolding(crate::specs::WrittenReports::usage_interval_data))]
    fn written(&self, alloc: Global) -> Result<Value, AllocError> {
        let payloads = payloads(alloc, "USAGE", self.usage.map(|usage| usage.get()))?;
        let mut members = Map::new(alloc);
        put(&mut members, alloc, "id", &self.id)?;
        serde_json::put(&mut members, alloc, "payloads", payloads)?;
        Ok(Value::Object(members))
    }
}

// The first four members of a report.
fn put_head(
    members: &mut Map<String, Value>,
    alloc: Global,
    report: &ReportObject,
) -> Result<(), AllocError>
    ensures { OnOk result (members_view members.new.entries
        ≡ add_all (members_view members.old.entries) (report_object_head report.now)) }
{
    let head = &report.body.head;
    let event = shown_id(alloc, head.resource, &head.event)?;
    let id = report_id(alloc, report.number)?;
    put(members, alloc, "clientName", &head.client)?;
    put(members, alloc, "createdDateTime", &report.stamps.created)?;
    put_text(members, alloc, "eventID", event.as_str())?;
    put_text(members, alloc, "id", id.as_str())
}

// Its other members.
fn put_tail(
    members: &mut Map<String, Value>,
    alloc: Global,
    report: &ReportObject,
) -> Result<(), AllocError>
    ensures { OnOk result (members_view members.new.entries
        ≡ add_all (members_view members.old.entries) (report_object_tail report.now)) }
{
    let head = &report.body.head;
    let intervals = list_of(alloc, report.body.intervals.as_slice())?;
    let resources = resources(alloc, intervals, head.resource_name.as_str())?;
    put(
        members,
        alloc,
        "modificationDateTime",
        &report.stamps.modified,
    )?;
    put_text(members, alloc, "objectType", "REPORT")?;
    put(members, alloc, "programID", &head.program)?;
    put_maybe(members, alloc, "reportName", &head.name)?;
    serde_json::put(members, alloc, "resources", resources)
}

#[tactic(auto, unfolding(crate::specs::WrittenReports::report_object_data))]
pub(crate) fn report_object(alloc: Global, report: &ReportObject) -> Result<Value, AllocError>
    ensures { IfOk result (λ v. view v ≡ report_object_data report.now) }
{
    let mut members = Map::new(alloc);
    put_head(&mut members, alloc, report)?;
    put_tail(&mut members, alloc, report)?;
    Ok(Value::Object(members))
}

// The names of those that are missing.
#[tactic(auto, unfolding(crate::specs::Objects::values_data))]
fn missing(alloc: Global, names: &[Name]) -> Result<Value, AllocError>
    ensures { IfOk result (λ v. view v
        ≡ values_data (codes "MISSING_RESOURCES") (map string names.now)) }
{
    with_values(alloc, "MISSING_RESOURCES", array(alloc, names)?)
}

// The sum, and the names of those that are missing, where some are.
fn sum_and_missing(alloc: Global, interval: &RollupInterval) -> Result<Value, AllocError>
    ensures { IfOk result (λ v. view v
        ≡ array_of (sum_data interval.now ∷ missing_data interval.now.missing)) }
{
    let sum = valued(alloc, "USAGE", Value::from(interval.sum))?;
    if interval.missing.is_empty() {
        return Ok(Value::Array(vec![in alloc; sum]?));
    }
    let missing = missing(alloc, interval.missing.as_slice())?;
    Ok(Value::Array(vec![in alloc; sum, missing]?))
}

impl Written for RollupInterval {
    ghost json = { rollup_interval_data };

    #[tactic(auto, unfolding(crate::specs::WrittenReports::rollup_interval_data))]
    fn written(&self, alloc: Global) -> Result<Value, AllocError> {
        let payloads = sum_and_missing(alloc, self)?;
        let mut members = Map::new(alloc);
        put(&mut members, alloc, "id", &self.id)?;
        serde_json::put(&mut members, alloc, "payloads", payloads)?;
        Ok(Value::Object(members))
    }
}

// The one resource of a roll-up, which stands for all.
fn rollup_resources(alloc: Global, rollup: &Rollup) -> Result<Value, AllocError>
    ensures { IfOk result (λ v. view v ≡ rollup_resources rollup.now) }
{
    let intervals = list_of(alloc, rollup.intervals.as_slice())?;
    resources(alloc, intervals, "AGGREGATED_REPORT")
}

#[tactic(auto, unfolding(crate::specs::WrittenReports::rollup_object_data))]
fn rollup_object(alloc: Global, rollup: &RollupObject) -> Result<Value, AllocError>
    ensures { IfOk result (λ v. view v ≡ rollup_object_data rollup.now) }
{
    let resources = rollup_resources(alloc, &rollup.rollup)?;
    let mut members = Map::new(alloc);
    put(&mut members, alloc, "clientName", &rollup.client)?;
    put(&mut members, alloc, "eventID", &rollup.event)?;
    put(&mut members, alloc, "programID", &rollup.rollup.program)?;
    serde_json::put(&mut members, alloc, "resources", resources)?;
    Ok(Value::Object(members))
}

/// The text of a report (OpenADR 3.0, REPORT), under the id of the event as it is shown.
#[tactic(auto, using(crate::proofs::NoFloats::report_object_whole), unfolding(crate::specs::WrittenReports::report_text))]
pub fn write_report(alloc: Global, report: &ReportObject) -> Result<String, AllocError>
    ensures { IfOk result (λ s. string_bytes s ≡ report_text report.now) }
{
    compact(alloc, report_object(alloc, report)?)
}

/// The text of a roll-up (OpenADR 3.0, REPORT), under the id of the upstream event.
#[tactic(auto, using(crate::proofs::NoFloats::rollup_object_whole), unfolding(crate::specs::WrittenReports::rollup_text))]
pub fn write_rollup(alloc: Global, rollup: &RollupObject) -> Result<String, AllocError>
    ensures { IfOk result (λ s. string_bytes s ≡ rollup_text rollup.now) }
{
    compact(alloc, rollup_object(alloc, rollup)?)
}
