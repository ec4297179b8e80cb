//! Members of objects, read with their places.
ghost use Rattle.std.specs.Prelude.{◌≡◌, map};
ghost use Rattle.serde_json.specs.View.{view};
ghost use Rattle.adr_text.specs.Fields.{member_of, required, optional, objects_in};
ghost use Rattle.adr_text.specs.declared.fault.Fault.TheVariants.{Fraction};
ghost use Rattle.adr_schema.specs.Flaws.{fault_of};
ghost use Rattle.adr_schema.specs.Stops.{IsStop, FindsAt};

use crate::flaw::{Flaw, Shape};
use crate::place::Place;
use crate::shape::shape_of;
use crate::stopped::Stopped;
use adr_text::{Fault, FromJson, member, objects};
use serde_json::Value;
use std::alloc::Global;

// A number that is not read as whole.
fn fraction(value: &Value) -> Flaw
    ensures { fault_of result ≡ Fraction }
{
    match value.as_f64() {
        Some(number) => if number >= 18_446_744_073_709_551_616.0
            || number <= -9_223_372_036_854_775_808.0
        {
            Flaw::Beyond
        } else {
            Flaw::NotWhole
        },
        None => Flaw::NotWhole,
    }
}

// The fault with which a value there is not read.
fn stop(value: &Value, place: Place, fault: Fault) -> Stopped
    ensures { IsStop place fault result }
{
    match fault {
        Fault::Fraction => Stopped::at(place, fraction(value)),
        fault => Stopped::by(place, fault, shape_of(place.part, value)),
    }
}

/// A value that is at that place.
#[tactic(auto, using(crate::proofs::Stopping::stop_rules))]
pub(crate) fn read_at<T: FromJson>(alloc: Global, value: &Value, place: Place) -> Result<T, Stopped>
    ensures { FindsAt place (λ x. x) result (T.of (view value.now)) }
{
    match T::from_json(alloc, value) {
        Ok(read) => Ok(read),
        Err(fault) => Err(stop(value, place, fault)),
    }
}

/// A member that has to be there.
pub(crate) fn needed_at<T: FromJson>(
    alloc: Global,
    value: &Value,
    name: &str,
    place: Place,
) -> Result<T, Stopped>
    ensures { FindsAt place (λ x. x) result
        (required (member_of name.now (view value.now)) T.of) }
{
    match member(value, name) {
        Some(found) => read_at(alloc, found, place),
        None => Err(Stopped::at(place, Flaw::Shape(Shape::Missing))),
    }
}

/// A member that may be absent.
pub(crate) fn maybe_at<T: FromJson>(
    alloc: Global,
    value: &Value,
    name: &str,
    place: Place,
) -> Result<Option<T>, Stopped>
    ensures { FindsAt place (λ x. x) result
        (optional (member_of name.now (view value.now)) T.of) }
{
    match member(value, name) {
        Some(found) => Ok(Some(read_at(alloc, found, place)?)),
        None => Ok(None),
    }
}

/// A list of objects that is at that place.
#[tactic(auto, using(crate::proofs::Stopping::stop_rules))]
pub(crate) fn objects_at(value: &Value, place: Place) -> Result<&[Value], Stopped>
    ensures { FindsAt place (λ vs. map view vs.now) result (objects_in (view value.now)) }
{
    match objects(value) {
        Ok(values) => Ok(values),
        Err(fault) => Err(Stopped::by(place, fault, Shape::NotObjects)),
    }
}
