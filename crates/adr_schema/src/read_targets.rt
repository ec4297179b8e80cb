//! The targets of an event, read from JSON.
ghost use Rattle.std.specs.Prelude.{◌≡◌, codes, filter, map};
ghost use Rattle.std.specs.List.{list_any};
ghost use Rattle.serde_json.specs.View.{view};
ghost use Rattle.adr_text.specs.Faults.{Finds};
ghost use Rattle.adr_text.specs.Fields.{member_of, optional};
ghost use Rattle.adr_objects.specs.NameSets.{name_set_of};
ghost use Rattle.adr_schema.specs.Events.{type_in, typed_as, resource_target, names_of_target, all_names, names_among, targets_in};
ghost use Rattle.adr_schema.specs.Places.{in_object, in_target};
ghost use Rattle.adr_schema.specs.Stops.{FindsAt};
ghost use Rattle.adr_schema.specs.FirstFaults.{place_in, types_place, names_place, among_place, targets_place};
ghost use Rattle.adr_schema.specs.declared.place.Part.TheVariants.{Targets, «Type», Values};

use crate::flaw::Shape;
use crate::place::{Part, Within};
use crate::read_member::objects_at;
use crate::read_typed::{is_of_type, text_at, values_of};
use crate::shape::shape_of_member;
use crate::stopped::Stopped;
use adr_objects::NameSet;
use adr_text::{Fault, Name, all, member};
use serde_json::Value;
use std::alloc::Global;

/// Whether a target names resources.
pub fn is_resource_target(target: &Value) -> bool
    ensures { result ≡ resource_target (view target.now) }
{
    is_of_type(target, "RESOURCE_NAME")
}

/// Whether one of the targets names resources.
pub fn names_resources(targets: &[Value]) -> bool
    ensures { result ≡ list_any (λ t. resource_target (view t)) targets.now }
{
    targets.iter().any(|t| is_resource_target(t))
}

/// The names of one target.
pub fn names_of_target(alloc: Global, target: &Value) -> Result<Vec<Name>, Fault>
    ensures { Finds (λ v. v.items) result (names_of_target (view target.now)) }
{
    all(alloc, values_of(target)?)
}

#[tactic(auto, using(crate::proofs::Stopping::stop_rules))]
fn type_at(number: usize, target: &Value) -> Result<&str, Stopped>
    ensures { FindsAt (in_target number «Type») (λ t. t.now) result (type_in (view target.now)) }
{
    let place = Within::Target(number).at(Part::Type);
    match text_at(target, "type") {
        Ok(text) => Ok(text),
        Err(fault) => Err(Stopped::by(place, fault, shape_of_member(target, "type", 128))),
    }
}

// The same targets, where each has a type.
fn with_types(targets: &[Value]) -> Result<&[Value], Stopped>
    ensures { FindsAt (types_place 0 (map view targets.now)) (λ ts. map view ts.now) result
        (typed_as (map view targets.now) (map view targets.now)) }
{
    for (number, target) in targets.iter().enumerate() {
        type_at(number, target)?;
    }
    Ok(targets)
}

// What the values of a target are not, where they are not names.
fn shape_of_values(target: &Value) -> Shape {
    match member(target, "values") {
        None => Shape::Missing,
        Some(found) => match found.as_array() {
            None => Shape::NotList,
            Some(values) => {
                let wrong = values.iter().position(|v| match v.as_str() {
                    Some(text) => text.is_empty() || text.len() > 128,
                    None => true,
                });
                Shape::NotName(wrong.unwrap_or(0))
            }
        },
    }
}

#[tactic(auto, using(crate::proofs::Stopping::stop_rules))]
fn names_of_target_at(alloc: Global, number: usize, target: &Value) -> Result<Vec<Name>, Stopped>
    ensures { FindsAt (in_target number Values) (λ v. v.items) result
        (names_of_target (view target.now)) }
{
    let place = Within::Target(number).at(Part::Values);
    match names_of_target(alloc, target) {
        Ok(names) => Ok(names),
        Err(fault) => Err(Stopped::by(place, fault, shape_of_values(target))),
    }
}

// The names of all resource targets, in the order listed.
fn names_of_targets(alloc: Global, targets: &[Value]) -> Result<Vec<Name>, Stopped>
    ensures { FindsAt (names_place 0 (map view targets.now)) (λ v. v.items) result
        (all_names (filter resource_target (map view targets.now))) }
{
    let mut names = Vec::new(alloc);
    for (number, target) in targets.iter().enumerate() {
        if is_resource_target(target) {
            let mut more = names_of_target_at(alloc, number, target)?;
            names.append(&mut more)?;
        }
    }
    Ok(names)
}

// The set of these names, at most 10,000.
#[tactic(auto, using(crate::proofs::Stopping::stop_rules))]
fn name_set(alloc: Global, names: Vec<Name>) -> Result<NameSet, Stopped>
    ensures { FindsAt (in_object Targets) (λ set. set) result (name_set_of names.items) }
{
    let place = Within::Object.at(Part::Targets);
    match NameSet::of(alloc, names) {
        Ok(set) => Ok(set),
        Err(fault) => Err(Stopped::by(place, fault, Shape::TooManyNames)),
    }
}

// The names of the resource targets, where there is such a target.
#[tactic(auto, using(crate::proofs::Reading::rules_of_lists))]
fn names_among(alloc: Global, targets: &[Value]) -> Result<Option<NameSet>, Stopped>
    ensures { FindsAt (among_place (map view targets.now)) (λ names. names) result
        (names_among (map view targets.now)) }
{
    if !names_resources(targets) {
        return Ok(None);
    }
    Ok(Some(name_set(alloc, names_of_targets(alloc, targets)?)?))
}

#[tactic(auto, unfolding(crate::specs::Events::targets_in, crate::specs::Events::typed_in, crate::specs::FirstFaults::targets_place))]
fn targets(alloc: Global, value: &Value) -> Result<Option<NameSet>, Stopped>
    ensures { FindsAt (targets_place (view value.now)) (λ names. names) result
        (targets_in (view value.now)) }
{
    let targets = objects_at(value, Within::Object.at(Part::Targets))?;
    names_among(alloc, with_types(targets)?)
}

/// The targets of an event, where it lists any, of which the names of resources are kept.
pub(crate) fn targets_of(alloc: Global, event: &Value) -> Result<Option<Option<NameSet>>, Stopped>
    ensures { FindsAt (place_in (member_of (codes "targets") (view event.now)) targets_place)
        (λ names. names) result (optional (member_of (codes "targets") (view event.now)) targets_in) }
{
    match member(event, "targets") {
        Some(found) => Ok(Some(targets(alloc, found)?)),
        None => Ok(None),
    }
}
