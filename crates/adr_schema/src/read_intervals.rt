//! The intervals of an event, read from JSON.
ghost use Rattle.std.specs.Prelude.{◌≡◌, [], map, codes, length, IsTrue, IfOk, false};
ghost use Rattle.serde_json.specs.View.{view};
ghost use Rattle.adr_text.specs.Fields.{member_of, optional};
ghost use Rattle.adr_objects.specs.Intervals.{has_id, differ};
ghost use Rattle.adr_schema.specs.Events.{fresh_id, interval_in, intervals_from, intervals_in};
ghost use Rattle.adr_schema.specs.Places.{in_interval};
ghost use Rattle.adr_schema.specs.Stops.{FindsAt};
ghost use Rattle.adr_schema.specs.FirstFaults.{place_in, interval_place, each_place, intervals_place};
ghost use Rattle.adr_schema.specs.declared.place.Part.TheVariants.{Id};

use crate::flaw::{Flaw, Shape};
use crate::place::{Part, Within};
use crate::read_member::{maybe_at, needed_at, objects_at};
use crate::read_payloads::payloads_of;
use crate::stopped::Stopped;
use adr_objects::{Interval, Intervals, has_id};
use adr_text::member;
use serde_json::Value;
use std::alloc::Global;

// An id that is not used before.
fn fresh_id(alloc: Global, before: &[Interval], value: &Value) -> Result<i32, Stopped>
    ensures id { FindsAt (in_interval (length before.now) Id) (λ id. id) result
        (fresh_id before.now (view value.now)) }
    ensures fresh { IfOk result (λ id. has_id (λ i. i.id) id before.now ≡ false) }
{
    let place = Within::Interval(before.len()).at(Part::Id);
    let id = needed_at(alloc, value, "id", place)?;
    if has_id(before, id) {
        return Err(Stopped::at(place, Flaw::Twice));
    }
    Ok(id)
}

// One interval, where those before it are known.
#[tactic(auto, unfolding(crate::specs::Events::interval_in, crate::specs::FirstFaults::interval_place))]
fn interval(alloc: Global, before: &[Interval], value: &Value) -> Result<Interval, Stopped>
    ensures interval { FindsAt (interval_place before.now (view value.now)) (λ i. i) result
        (interval_in before.now (view value.now)) }
    ensures fresh { IfOk result (λ i. has_id (λ i. i.id) i.id before.now ≡ false) }
{
    let number = before.len();
    let id = fresh_id(alloc, before, value)?;
    let place = Within::Interval(number).at(Part::IntervalPeriod);
    let period = maybe_at(alloc, value, "intervalPeriod", place)?;
    let payloads = payloads_of(alloc, number, value)?;
    Ok(Interval {
        id,
        period,
        setpoint: payloads.and_then(|setpoint| setpoint),
    })
}

// Each interval in turn.
fn each_interval(alloc: Global, values: &[Value]) -> Result<Vec<Interval>, Stopped>
    ensures items { FindsAt (each_place [] (map view values.now)) (λ v. v.items) result
        (intervals_from [] (map view values.now)) }
    ensures len { IfOk result (λ v. length v.items ≡ length values.now) }
    ensures apart { IfOk result (λ v. IsTrue (differ (λ i. i.id) v.items)) }
{
    let mut intervals: Vec<Interval> = Vec::new(alloc);
    for v in values {
        let next = interval(alloc, &intervals, v)?;
        intervals.push(next)?;
    }
    Ok(intervals)
}

// At most 1,000 intervals.
#[tactic(auto, unfolding(crate::specs::Events::intervals_in, crate::specs::FirstFaults::intervals_place))]
fn intervals(alloc: Global, value: &Value) -> Result<Intervals, Stopped>
    ensures { FindsAt (intervals_place (view value.now)) (λ is. is) result
        (intervals_in (view value.now)) }
{
    let place = Within::Object.at(Part::Intervals);
    let values = objects_at(value, place)?;
    if values.len() > 1000 {
        return Err(Stopped::at(place, Flaw::Shape(Shape::TooMany)));
    }
    Ok(Intervals::of(each_interval(alloc, values)?))
}

/// The intervals of an event, where it lists any.
pub(crate) fn intervals_of(alloc: Global, event: &Value) -> Result<Option<Intervals>, Stopped>
    ensures { FindsAt (place_in (member_of (codes "intervals") (view event.now)) intervals_place)
        (λ is. is) result (optional (member_of (codes "intervals") (view event.now)) intervals_in) }
{
    match member(event, "intervals") {
        Some(found) => Ok(Some(intervals(alloc, found)?)),
        None => Ok(None),
    }
}
