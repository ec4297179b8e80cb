//! The payloads of an interval of an event, read from JSON.
ghost use Rattle.std.specs.Prelude.{codes, filter, map, option_map};
ghost use Rattle.serde_json.specs.View.{view};
ghost use Rattle.adr_text.specs.Fields.{member_of, optional};
ghost use Rattle.adr_schema.specs.Events.{is_of_type, only_one, typed_in, value_of, payloads_in};
ghost use Rattle.adr_schema.specs.Stops.{IsStop, FindsAt};
ghost use Rattle.adr_schema.specs.FirstFaults.{payloads_place, place_in};

use crate::flaw::{Flaw, Shape};
use crate::place::{Part, Place, Within};
use crate::read_member::read_at;
use crate::read_typed::{only_of_type, typed, value_of, values_of};
use crate::stopped::Stopped;
use adr_objects::Setpoint;
use adr_text::{Fault, member};
use serde_json::Value;
use std::alloc::Global;

// A list of objects with a type each.
#[tactic(auto, using(crate::proofs::Stopping::stop_rules))]
fn typed_at(value: &Value, place: Place) -> Result<&[Value], Stopped>
    ensures { FindsAt place (λ vs. map view vs.now) result (typed_in (view value.now)) }
{
    match typed(value) {
        Ok(values) => Ok(values),
        Err(fault) => Err(Stopped::by(place, fault, Shape::NotTyped)),
    }
}

// The only payload with a setpoint, where there is one.
#[tactic(auto, using(crate::proofs::Stopping::stop_rules))]
fn only_at(payloads: &[Value], place: Place) -> Result<Option<&Value>, Stopped>
    ensures { FindsAt place (option_map (λ v. view v.now)) result
        (only_one (filter (is_of_type (codes "DISPATCH_SETPOINT")) (map view payloads.now))) }
{
    match only_of_type(payloads, "DISPATCH_SETPOINT") {
        Ok(only) => Ok(only),
        Err(fault) => Err(Stopped::by(place, fault, Shape::NoValues)),
    }
}

// The fault with which a payload has not one value.
fn stop(payload: &Value, place: Place, fault: Fault) -> Stopped
    ensures { IsStop place fault result }
{
    match (fault, values_of(payload)) {
        (Fault::NotOne, Ok(values)) => Stopped::at(place, Flaw::Count(values.len())),
        _ => Stopped::by(place, fault, Shape::NoValues),
    }
}

// The one value of a payload.
#[tactic(auto, using(crate::proofs::Stopping::stop_rules))]
fn value_at(payload: &Value, place: Place) -> Result<&Value, Stopped>
    ensures { FindsAt place (λ v. view v.now) result (value_of (view payload.now)) }
{
    match value_of(payload) {
        Ok(value) => Ok(value),
        Err(fault) => Err(stop(payload, place, fault)),
    }
}

// The setpoint that the payloads of the interval of that number say, where they say one.
#[tactic(auto, unfolding(crate::specs::Events::payloads_in, crate::specs::Events::only_value, crate::specs::FirstFaults::payloads_place))]
fn setpoint(alloc: Global, number: usize, value: &Value) -> Result<Option<Setpoint>, Stopped>
    ensures { FindsAt (payloads_place number (view value.now)) (λ x. x) result
        (payloads_in (view value.now)) }
{
    let payloads = typed_at(value, Within::Interval(number).at(Part::Payloads))?;
    let place = Within::Interval(number).at(Part::Setpoint);
    match only_at(payloads, place)? {
        Some(payload) => Ok(Some(read_at(alloc, value_at(payload, place)?, place)?)),
        None => Ok(None),
    }
}

/// The payloads of the interval of that number, where it has any, of which the setpoint is kept.
pub(crate) fn payloads_of(
    alloc: Global,
    number: usize,
    interval: &Value,
) -> Result<Option<Option<Setpoint>>, Stopped>
    ensures { FindsAt (place_in (member_of (codes "payloads") (view interval.now)) (payloads_place number))
        (λ x. x) result (optional (member_of (codes "payloads") (view interval.now)) payloads_in) }
{
    match member(interval, "payloads") {
        Some(found) => Ok(Some(setpoint(alloc, number, found)?)),
        None => Ok(None),
    }
}
