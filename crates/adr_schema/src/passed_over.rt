//! The targets of an event that are passed over, since they name no resources.
ghost use Rattle.std.specs.Prelude.{◌≡◌, map, IfOk};
ghost use Rattle.serde_json.specs.View.{view};
ghost use Rattle.adr_schema.specs.Elements.{id_told};
ghost use Rattle.adr_schema.specs.PassedOver.{targets_of, type_of_target, passed_over, goes_to_everybody};

use crate::read_targets::{is_resource_target, names_resources};
use crate::read_typed::{is_of_type, typed};
use crate::read_version::{ShownId, shown_id};
use adr_text::{Fault, member};
use serde_json::Value;
use std::alloc::{AllocError, Global};
use std::fmt;

/// The type of a target that is passed over, of those of the standard (OpenADR 3.0, EVENT).
#[derive(Clone, Copy)]
pub enum TargetType {
    VenName,
    Group,
    ServiceArea,
    ProgramName,
    EventName,
    PowerServiceLocation,
    /// Any other text.
    Another,
}

/// A target that is passed over.
#[derive(Clone, Copy)]
pub struct PassedTarget {
    /// Its number among the targets as they are listed, from 0.
    pub number: usize,
    pub type_name: TargetType,
}

/// What is passed over of an event's targets.
#[derive(Drop)]
pub struct PassedOver {
    /// The event's id, where that is a text of at most 100 bytes.
    pub id: Option<ShownId>,
    /// Those that are passed over, in their order.
    pub targets: Vec<PassedTarget>,
    /// Whether the event goes to everybody, though it has targets.
    pub to_everybody: bool,
}

impl fmt::Display for TargetType {
    fn fmt<W: fmt::Write>(&self, f: &mut fmt::Formatter<W>) -> fmt::Result {
        match self {
            TargetType::VenName => write!(f, "VEN_NAME"),
            TargetType::Group => write!(f, "GROUP"),
            TargetType::ServiceArea => write!(f, "SERVICE_AREA"),
            TargetType::ProgramName => write!(f, "PROGRAM_NAME"),
            TargetType::EventName => write!(f, "EVENT_NAME"),
            TargetType::PowerServiceLocation => write!(f, "POWER_SERVICE_LOCATION"),
            TargetType::Another => write!(f, "another type"),
        }
    }
}

fn type_of_target(target: &Value) -> TargetType
    ensures { result ≡ type_of_target (view target.now) }
{
    if is_of_type(target, "VEN_NAME") {
        TargetType::VenName
    } else if is_of_type(target, "GROUP") {
        TargetType::Group
    } else if is_of_type(target, "SERVICE_AREA") {
        TargetType::ServiceArea
    } else if is_of_type(target, "PROGRAM_NAME") {
        TargetType::ProgramName
    } else if is_of_type(target, "EVENT_NAME") {
        TargetType::EventName
    } else if is_of_type(target, "POWER_SERVICE_LOCATION") {
        TargetType::PowerServiceLocation
    } else {
        TargetType::Another
    }
}

// The targets of an event, none where they are absent or not read.
fn targets_of(event: &Value) -> Result<&[Value], AllocError>
    ensures { IfOk result (λ ts. map view ts.now ≡ targets_of (view event.now)) }
{
    match member(event, "targets") {
        Some(found) => match typed(found) {
            Ok(targets) => Ok(targets),
            Err(Fault::OutOfMemory) => Err(AllocError),
            Err(_) => Ok(&[]),
        },
        None => Ok(&[]),
    }
}

// Those that do not name resources.
fn passed_over(alloc: Global, targets: &[Value]) -> Result<Vec<PassedTarget>, AllocError>
    ensures { IfOk result (λ v. v.items ≡ passed_over 0 (map view targets.now)) }
{
    let mut passed = Vec::new(alloc);
    for (number, target) in targets.iter().enumerate() {
        if !is_resource_target(target) {
            passed.push(PassedTarget {
                number,
                type_name: type_of_target(target),
            })?;
        }
    }
    Ok(passed)
}

#[tactic(auto, using(crate::proofs::Everybody::everybody_rules))]
fn goes_to_everybody(targets: &[Value]) -> bool
    ensures { result ≡ goes_to_everybody (map view targets.now) }
{
    if targets.is_empty() {
        return false;
    }
    !names_resources(targets)
}

/// Which targets of an event are passed over, and whether it goes to everybody for that; nothing of an
/// event whose targets are not a list of objects with a type each.
pub fn targets_passed_over(alloc: Global, event: &Value) -> Result<PassedOver, AllocError>
    ensures id { IfOk result (λ p. p.id ≡ id_told (view event.now)) }
    ensures targets { IfOk result (λ p. p.targets.items ≡ passed_over 0 (targets_of (view event.now))) }
    ensures everybody { IfOk result (λ p. p.to_everybody ≡ goes_to_everybody (targets_of (view event.now))) }
{
    let targets = targets_of(event)?;
    Ok(PassedOver {
        id: shown_id(alloc, event)?,
        targets: passed_over(alloc, targets)?,
        to_everybody: goes_to_everybody(targets),
    })
}
