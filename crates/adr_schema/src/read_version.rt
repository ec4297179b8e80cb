//! One element of a page, read from JSON.
ghost use Rattle.std.specs.Prelude.{◌≡◌, Ok, IfOk, false};
ghost use Rattle.serde_json.specs.View.{view};
ghost use Rattle.adr_text.specs.Faults.{Finds};
ghost use Rattle.adr_schema.specs.Pages.{upstream_id_in, reason_of, found_in};
ghost use Rattle.adr_schema.specs.Places.{in_object};
ghost use Rattle.adr_schema.specs.Stops.{FindsAt};
ghost use Rattle.adr_schema.specs.FirstFaults.{said_in, said_place, version_in, version_place};
ghost use Rattle.adr_schema.specs.Elements.{is_opaque, IsElement, fault_in, fault_told, reason_kept, id_told};
ghost use Rattle.adr_schema.specs.declared.place.Part.TheVariants.{Id};

use crate::element::Element;
use crate::place::{Part, Within};
use crate::read_event::event;
use crate::read_member::needed_at;
use crate::read_typed::text_at;
use crate::shape::shape_of_member;
use crate::stopped::Stopped;
use adr_objects::{Body, Found, Kind, Reason, Text, UpstreamId};
use adr_text::{Fault, Moment};
use serde_json::Value;
use std::alloc::{AllocError, Global};

/// The id of an object, as it is told: any text of at most 100 bytes.
pub type ShownId = Text<100>;

/// The id of an object, where it is a text of at most 100 bytes.
pub fn shown_id(alloc: Global, value: &Value) -> Result<Option<ShownId>, AllocError>
    ensures { IfOk result (λ id. id ≡ id_told (view value.now)) }
{
    match text_at(value, "id").and_then(|text| ShownId::new(alloc, text)) {
        Ok(id) => Ok(Some(id)),
        Err(Fault::OutOfMemory) => Err(AllocError),
        Err(_) => Ok(None),
    }
}

// The id of an upstream object.
pub(crate) fn upstream_id(alloc: Global, object: &Value) -> Result<UpstreamId, Fault>
    ensures { Finds (λ id. id) result (upstream_id_in (view object.now)) }
{
    UpstreamId::new(alloc, text_at(object, "id")?)
}

#[tactic(auto, using(crate::proofs::Stopping::stop_rules))]
fn id_at(alloc: Global, value: &Value) -> Result<UpstreamId, Stopped>
    ensures { FindsAt (in_object Id) (λ id. id) result (upstream_id_in (view value.now)) }
{
    let place = Within::Object.at(Part::Id);
    match upstream_id(alloc, value) {
        Ok(id) => Ok(id),
        Err(fault) => Err(Stopped::by(place, fault, shape_of_member(value, "id", 100))),
    }
}

// The id and the moment that make an element a version.
#[tactic(auto, unfolding(crate::specs::FirstFaults::version_in, crate::specs::FirstFaults::version_place))]
fn version(alloc: Global, value: &Value) -> Result<(UpstreamId, Moment), Stopped>
    ensures { FindsAt (version_place (view value.now)) (λ v. (v.0, v.1)) result
        (version_in (view value.now)) }
{
    let id = id_at(alloc, value)?;
    let place = Within::Object.at(Part::ModificationDateTime);
    let moment = needed_at(alloc, value, "modificationDateTime", place)?;
    Ok((id, moment))
}

// What an object of that kind says.
fn body(alloc: Global, kind: Kind, value: &Value) -> Result<Body, Stopped>
    ensures body { FindsAt (said_place kind (view value.now)) (λ b. b) result
        (said_in kind (view value.now)) }
    ensures read { IfOk result (λ b. is_opaque b ≡ false) }
{
    match kind {
        Kind::Program => {
            let place = Within::Object.at(Part::ProgramName);
            Ok(Body::Program(needed_at(alloc, value, "programName", place)?))
        }
        Kind::Event => Ok(Body::Event(event(alloc, value)?)),
    }
}

/// The reason that is kept of a fault in an event.
pub fn reason_of(fault: Fault) -> Reason
    ensures { result ≡ reason_of fault }
{
    match fault {
        Fault::Fraction => Reason::Fraction,
        Fault::NotOne => Reason::NotOne,
        Fault::Repeated => Reason::Repeated,
        Fault::OutOfRange => Reason::OutOfRange,
        Fault::OutOfMemory | Fault::BadShape => Reason::BadShape,
    }
}

// The reason that is kept of a fault. Whatever a program's is, it has the wrong shape.
fn reason_kept(kind: Kind, fault: Fault) -> Reason
    ensures { result ≡ reason_kept kind fault }
{
    match kind {
        Kind::Program => Reason::BadShape,
        Kind::Event => reason_of(fault),
    }
}

/// What an element of a page of objects of that kind is, and its first fault where it is not read.
#[tactic(auto, using(crate::proofs::Elements::version_is))]
pub fn read_element(alloc: Global, kind: Kind, value: &Value) -> Result<Element, AllocError>
    ensures version { IfOk result (λ e. IsElement e (found_in kind (view value.now))) }
    ensures fault { IfOk result (λ e. fault_told e ≡ fault_in kind (view value.now)) }
{
    let (id, moment) = match version(alloc, value) {
        Ok(version) => version,
        Err(Stopped::OutOfMemory) => return Err(AllocError),
        Err(Stopped::At(defect)) => return Ok(Element::Skipped(defect)),
    };
    match body(alloc, kind, value) {
        Ok(body) => Ok(Element::Read(Found {
            kind,
            id,
            moment,
            body,
        })),
        Err(Stopped::OutOfMemory) => Err(AllocError),
        Err(Stopped::At(defect)) => {
            let body = Body::Opaque(reason_kept(kind, defect.flaw.fault()));
            Ok(Element::Unread(
                Found {
                    kind,
                    id,
                    moment,
                    body,
                },
                defect,
            ))
        }
    }
}

// The version that an element is.
#[tactic(auto, using(crate::proofs::Elements::element_finds))]
pub(crate) fn found(alloc: Global, kind: Kind, value: &Value) -> Result<Found, Fault>
    ensures { Finds (λ f. f) result (found_in kind (view value.now)) }
{
    read_element(alloc, kind, value)?.version()
}
