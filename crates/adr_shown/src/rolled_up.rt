//! Roll-ups, as tables keep them.
ghost use Rattle.std.specs.Prelude.{◌≡◌, [], ◌∷◌, codes, map, All, Ok, IfOk, OnOk, IsTrue, string_bytes};
ghost use Rattle.serde_json.specs.Data.{string};
ghost use Rattle.serde_json.specs.View.{view};
ghost use Rattle.adr_text.specs.Faults.{Finds};
ghost use Rattle.adr_text.specs.Fields.{is_i64, member_of, required};
ghost use Rattle.adr_text.specs.Ids.{is_id};
ghost use Rattle.adr_text.specs.Names.{is_name};
ghost use Rattle.adr_text.specs.Objects.{array_of};
ghost use Rattle.adr_text.specs.Refusals.{Gives};
ghost use Rattle.adr_written.specs.Objects.{values_data};
ghost use Rattle.adr_written.specs.WrittenReports.{sum_data, missing_data, rollup_interval_data, rollup_resources};
ghost use Rattle.adr_shown.specs.RollupTexts.{rollup_data, kept_rollup_text};
ghost use Rattle.adr_shown.specs.ReadRollups.{missing_in, sum_from, sum_in, rollup_interval_in, resources_in, rollup_in, rollup_of_text, kept_rollup_of};
ghost use Rattle.adr_shown.specs.Types.{IsRollupInterval, IsRollup};

use crate::kept::{Kept, intervals_of};
use crate::read_fields::{amount, lone, values};
use adr_objects::{Rollup, RollupInterval, read_text};
use adr_text::{
    Fault, Name, ObjectId, Refusal, Rows, ToJson, all, array, list, member, needed, put,
};
use adr_written::{one_payload, put_text, resources, valued, with_values};
use serde_json::{Map, Value};
use std::alloc::{AllocError, Global};

// The names of those that are missing.
#[tactic(auto, unfolding(adr_written::specs::Objects::values_data))]
fn missing(alloc: Global, names: &[Name]) -> Result<Value, AllocError>
    ensures value { IfOk result (λ v. view v
        ≡ values_data (codes "MISSING_RESOURCES") (map string names.now)) }
    ensures kept { OnOk result (All (λ name. IsTrue (is_name name)) names.now) }
{
    with_values(alloc, "MISSING_RESOURCES", array(alloc, names)?)
}

// The names of those that a payload says are missing.
#[tactic(auto, unfolding(crate::specs::ReadRollups::missing_in))]
fn missing_of(alloc: Global, payload: &Value) -> Result<Rows<Name>, Fault>
    ensures { Finds (λ names. names) result (missing_in (view payload.now)) }
{
    let names: Vec<Name> = all(alloc, values(payload, "MISSING_RESOURCES")?)?;
    Ok(Rows::from_vec(names))
}

// A sum, and the names of those that are missing, of whom there are some.
fn sum_beside(alloc: Global, sum: Value, names: &[Name]) -> Result<Value, AllocError>
    ensures value { IfOk result (λ v. view v ≡ array_of (values_data (codes "USAGE") (view sum ∷ [])
        ∷ values_data (codes "MISSING_RESOURCES") (map string names.now) ∷ [])) }
    ensures kept { OnOk result (All (λ name. IsTrue (is_name name)) names.now) }
{
    let sum = valued(alloc, "USAGE", sum)?;
    let missing = missing(alloc, names)?;
    Ok(Value::Array(vec![in alloc; sum, missing]?))
}

// The payloads of an interval: the sum, and the names of those that are missing, where some are.
fn payloads(alloc: Global, interval: &RollupInterval) -> Result<Value, AllocError>
    ensures value { IfOk result (λ v. view v
        ≡ array_of (sum_data interval.now ∷ missing_data interval.now.missing)) }
    ensures sum { OnOk result (IsTrue (is_i64 interval.now.sum)) }
    ensures missing { OnOk result (All (λ name. IsTrue (is_name name)) interval.now.missing) }
{
    let sum = interval.sum.to_json(alloc)?;
    if interval.missing.is_empty() {
        return one_payload(alloc, "USAGE", sum);
    }
    sum_beside(alloc, sum, interval.missing.as_slice())
}

// The sum that the only payload says.
fn sum_alone(alloc: Global, payload: &Value) -> Result<(i64, Rows<Name>), Fault>
    ensures { Finds (λ sum. sum) result (sum_from (view payload.now ∷ [])) }
{
    Ok((amount(payload, "USAGE")?, Rows::new(alloc)))
}

// The sum and the missing names that two payloads say.
fn sum_from(alloc: Global, sum: &Value, missing: &Value) -> Result<(i64, Rows<Name>), Fault>
    ensures { Finds (λ sum. sum) result (sum_from (view sum.now ∷ view missing.now ∷ [])) }
{
    let sum = amount(sum, "USAGE")?;
    let missing = missing_of(alloc, missing)?;
    Ok((sum, missing))
}

// The sum and the missing names that payloads say.
#[tactic(auto, unfolding(crate::specs::ReadRollups::sum_in))]
fn sum(alloc: Global, payloads: &Value) -> Result<(i64, Rows<Name>), Fault>
    ensures { Finds (λ sum. sum) result (sum_in (view payloads.now)) }
{
    match list(payloads)? {
        [sum] => sum_alone(alloc, sum),
        [sum, missing] => sum_from(alloc, sum, missing),
        _ => Err(Fault::BadShape),
    }
}

// The sum and the missing names that an interval says.
fn sum_of(alloc: Global, interval: &Value) -> Result<(i64, Rows<Name>), Fault>
    ensures { Finds (λ sum. sum) result
        (required (member_of (codes "payloads") (view interval.now)) sum_in) }
{
    match member(interval, "payloads") {
        Some(found) => sum(alloc, found),
        None => Err(Fault::BadShape),
    }
}

// An interval with its sum, as JSON.
#[tactic(auto, unfolding(adr_written::specs::WrittenReports::rollup_interval_data))]
fn interval_value(alloc: Global, interval: &RollupInterval) -> Result<Value, AllocError>
    ensures value { IfOk result (λ v. view v ≡ rollup_interval_data interval.now) }
    ensures kept { OnOk result (IsRollupInterval interval.now) }
{
    let payloads = payloads(alloc, interval)?;
    let mut members = Map::new(alloc);
    put(&mut members, alloc, "id", &interval.id)?;
    serde_json::put(&mut members, alloc, "payloads", payloads)?;
    Ok(Value::Object(members))
}

// Each of the intervals, as JSON.
fn interval_values(alloc: Global, intervals: &[RollupInterval]) -> Result<Vec<Value>, AllocError>
    ensures values { IfOk result (λ values. map view values.items ≡ map rollup_interval_data intervals.now) }
    ensures kept { OnOk result (All IsRollupInterval intervals.now) }
{
    let mut values = Vec::new(alloc);
    for interval in intervals {
        values.push(interval_value(alloc, interval)?)?;
    }
    Ok(values)
}

// The list of them.
fn interval_list(alloc: Global, intervals: &[RollupInterval]) -> Result<Value, AllocError>
    ensures value { IfOk result (λ v. view v ≡ array_of (map rollup_interval_data intervals.now)) }
    ensures kept { OnOk result (All IsRollupInterval intervals.now) }
{
    Ok(Value::Array(interval_values(alloc, intervals)?))
}

impl Kept for RollupInterval {
    ghost of = { rollup_interval_in };

    #[tactic(auto, unfolding(crate::specs::ReadRollups::rollup_interval_in))]
    fn read(alloc: Global, value: &Value) -> Result<RollupInterval, Fault> {
        let id = needed(alloc, value, "id")?;
        let sum = sum_of(alloc, value)?;
        Ok(RollupInterval {
            id,
            sum: sum.0,
            missing: sum.1,
        })
    }
}

// The one resource of a roll-up, which stands for all.
fn rollup_resources(alloc: Global, rollup: &Rollup) -> Result<Value, AllocError>
    ensures value { IfOk result (λ v. view v ≡ rollup_resources rollup.now) }
    ensures kept { OnOk result (All IsRollupInterval rollup.now.intervals) }
{
    let intervals = interval_list(alloc, rollup.intervals.as_slice())?;
    resources(alloc, intervals, "AGGREGATED_REPORT")
}

// The intervals of the one resource of a roll-up.
#[tactic(auto, unfolding(crate::specs::ReadRollups::resources_in))]
fn intervals(alloc: Global, resources: &Value) -> Result<Rows<RollupInterval>, Fault>
    ensures { Finds (λ rows. rows) result (resources_in (view resources.now)) }
{
    intervals_of(alloc, lone(list(resources)?)?)
}

// The intervals that a roll-up says.
fn rollup_intervals(alloc: Global, rollup: &Value) -> Result<Rows<RollupInterval>, Fault>
    ensures { Finds (λ rows. rows) result
        (required (member_of (codes "resources") (view rollup.now)) resources_in) }
{
    match member(rollup, "resources") {
        Some(found) => intervals(alloc, found),
        None => Err(Fault::BadShape),
    }
}

// A roll-up as JSON.
#[tactic(auto, unfolding(crate::specs::RollupTexts::rollup_data))]
fn rollup_value(alloc: Global, id: &ObjectId, rollup: &Rollup) -> Result<Value, AllocError>
    ensures value { IfOk result (λ v. view v ≡ rollup_data id.now rollup.now) }
    ensures id { OnOk result (IsTrue (is_id id.now)) }
    ensures kept { OnOk result (IsRollup rollup.now) }
{
    let resources = rollup_resources(alloc, rollup)?;
    let mut members = Map::new(alloc);
    put(&mut members, alloc, "eventID", id)?;
    put(&mut members, alloc, "programID", &rollup.program)?;
    serde_json::put(&mut members, alloc, "resources", resources)?;
    Ok(Value::Object(members))
}

// The id and the roll-up that a JSON value is.
#[tactic(auto, unfolding(crate::specs::ReadRollups::rollup_in))]
fn rollup_of(alloc: Global, value: &Value) -> Result<(ObjectId, Rollup), Fault>
    ensures { Finds (λ r. r) result (rollup_in (view value.now)) }
{
    let id = needed(alloc, value, "eventID")?;
    let program = needed(alloc, value, "programID")?;
    let intervals = rollup_intervals(alloc, value)?;
    Ok((id, Rollup { program, intervals }))
}

fn rollup(alloc: Global, text: &str) -> Result<(ObjectId, Rollup), Fault>
    ensures { Finds (λ r. r) result (rollup_of_text text.now) }
{
    let value = read_text(alloc, text)?;
    rollup_of(alloc, &value)
}

/// The text that is kept of the roll-up of an upstream event, by the event's id: the roll-up as it is
/// written, without the name that it is told under. It reads back as the id and the roll-up.
pub fn write_rolled_up(alloc: Global, id: &ObjectId, rollup: &Rollup) -> Result<String, AllocError>
    ensures text { IfOk result (λ s. string_bytes s ≡ kept_rollup_text id.now rollup.now) }
    ensures reads_back { IfOk result (λ s. kept_rollup_of (string_bytes s) ≡ Ok (id.now, rollup.now)) }
    ensures id { OnOk result (IsTrue (is_id id.now)) }
    ensures kept { OnOk result (IsRollup rollup.now) }
{
    rollup_value(alloc, id, rollup)?.to_string(alloc)
}

/// The upstream event's id and the roll-up whose text it is; `BadShape` for a text that is none.
#[tactic(auto, unfolding(crate::specs::ReadRollups::kept_rollup_of))]
pub fn read_rolled_up(alloc: Global, text: &str) -> Result<(ObjectId, Rollup), Refusal>
    ensures { Gives (λ r. r) result (kept_rollup_of text.now) }
{
    match rollup(alloc, text) {
        Ok(rollup) => Ok(rollup),
        Err(Fault::OutOfMemory) => Err(Refusal::OutOfMemory),
        Err(_) => Err(Refusal::BadShape),
    }
}
