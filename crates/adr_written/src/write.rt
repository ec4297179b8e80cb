//! Objects, written as JSON.
ghost use Rattle.std.specs.Prelude.{◌≡◌, IfOk, string_bytes};
ghost use Rattle.serde_json.specs.View.{view};
ghost use Rattle.adr_written.specs.Objects.{program_object_data, ven_object_data, resource_object_data, share_object_data, problem_data, program_text, ven_text, resource_text, share_text, problem_text};

use crate::ids::{resource_id, ven_id};
use crate::write_fields::{compact, put_text};
use adr_objects::{ProgramObject, ResourceObject, ShareObject, VenObject};
use adr_text::{Refusal, put};
use serde_json::{Map, Value};
use std::alloc::{AllocError, Global};

#[tactic(auto, unfolding(crate::specs::Objects::program_object_data))]
pub(crate) fn program_object(alloc: Global, program: &ProgramObject) -> Result<Value, AllocError>
    ensures { IfOk result (λ v. view v ≡ program_object_data program.now) }
{
    let mut members = Map::new(alloc);
    put(
        &mut members,
        alloc,
        "createdDateTime",
        &program.stamps.created,
    )?;
    put(&mut members, alloc, "id", &program.id)?;
    put(
        &mut members,
        alloc,
        "modificationDateTime",
        &program.stamps.modified,
    )?;
    put_text(&mut members, alloc, "objectType", "PROGRAM")?;
    put(&mut members, alloc, "programName", &program.name)?;
    Ok(Value::Object(members))
}

#[tactic(auto, unfolding(crate::specs::Objects::ven_object_data))]
fn ven_object(alloc: Global, ven: &VenObject) -> Result<Value, AllocError>
    ensures { IfOk result (λ v. view v ≡ ven_object_data ven.now) }
{
    let id = ven_id(alloc, ven.number)?;
    let mut members = Map::new(alloc);
    put(&mut members, alloc, "createdDateTime", &ven.stamps.created)?;
    put_text(&mut members, alloc, "id", id.as_str())?;
    put(
        &mut members,
        alloc,
        "modificationDateTime",
        &ven.stamps.modified,
    )?;
    put_text(&mut members, alloc, "objectType", "VEN")?;
    put(&mut members, alloc, "venName", &ven.name)?;
    Ok(Value::Object(members))
}

#[tactic(auto, unfolding(crate::specs::Objects::resource_object_data))]
fn resource_object(alloc: Global, resource: &ResourceObject) -> Result<Value, AllocError>
    ensures { IfOk result (λ v. view v ≡ resource_object_data resource.now) }
{
    let id = resource_id(alloc, resource.number)?;
    let ven = ven_id(alloc, resource.ven)?;
    let mut members = Map::new(alloc);
    put(
        &mut members,
        alloc,
        "createdDateTime",
        &resource.stamps.created,
    )?;
    put_text(&mut members, alloc, "id", id.as_str())?;
    put(
        &mut members,
        alloc,
        "modificationDateTime",
        &resource.stamps.modified,
    )?;
    put_text(&mut members, alloc, "objectType", "RESOURCE")?;
    put(&mut members, alloc, "resourceName", &resource.name)?;
    put_text(&mut members, alloc, "venID", ven.as_str())?;
    Ok(Value::Object(members))
}

#[tactic(auto, unfolding(crate::specs::Objects::share_object_data))]
fn share_object(alloc: Global, share: &ShareObject) -> Result<Value, AllocError>
    ensures { IfOk result (λ v. view v ≡ share_object_data share.now) }
{
    let resource = resource_id(alloc, share.resource)?;
    let mut members = Map::new(alloc);
    put(&mut members, alloc, "programID", &share.program)?;
    put_text(&mut members, alloc, "resourceID", resource.as_str())?;
    put(&mut members, alloc, "share", &share.share)?;
    Ok(Value::Object(members))
}

// A problem as JSON.
#[tactic(auto, unfolding(crate::specs::Objects::problem_data))]
fn problem(alloc: Global, refusal: Refusal) -> Result<Value, AllocError>
    ensures { IfOk result (λ v. view v ≡ problem_data refusal) }
{
    let status = u32::from(refusal.status());
    let mut members = Map::new(alloc);
    put_text(&mut members, alloc, "detail", refusal.detail())?;
    put(&mut members, alloc, "status", &status)?;
    put_text(&mut members, alloc, "title", refusal.title())?;
    Ok(Value::Object(members))
}

/// The text of a program (OpenADR 3.0, PROGRAM).
#[tactic(auto, using(crate::proofs::NoFloats::program_object_whole), unfolding(crate::specs::Objects::program_text))]
pub fn write_program(alloc: Global, program: &ProgramObject) -> Result<String, AllocError>
    ensures { IfOk result (λ s. string_bytes s ≡ program_text program.now) }
{
    compact(alloc, program_object(alloc, program)?)
}

/// The text of a ven (OpenADR 3.0, VEN).
#[tactic(auto, using(crate::proofs::NoFloats::ven_object_whole), unfolding(crate::specs::Objects::ven_text))]
pub fn write_ven(alloc: Global, ven: &VenObject) -> Result<String, AllocError>
    ensures { IfOk result (λ s. string_bytes s ≡ ven_text ven.now) }
{
    compact(alloc, ven_object(alloc, ven)?)
}

/// The text of a resource (OpenADR 3.0, RESOURCE).
#[tactic(auto, using(crate::proofs::NoFloats::resource_object_whole), unfolding(crate::specs::Objects::resource_text))]
pub fn write_resource(alloc: Global, resource: &ResourceObject) -> Result<String, AllocError>
    ensures { IfOk result (λ s. string_bytes s ≡ resource_text resource.now) }
{
    compact(alloc, resource_object(alloc, resource)?)
}

/// The text of a share.
#[tactic(auto, using(crate::proofs::NoFloats::share_object_whole), unfolding(crate::specs::Objects::share_text))]
pub fn write_share(alloc: Global, share: &ShareObject) -> Result<String, AllocError>
    ensures { IfOk result (λ s. string_bytes s ≡ share_text share.now) }
{
    compact(alloc, share_object(alloc, share)?)
}

/// The text of the problem that a refusal is told as (OpenADR 3.0, problem; RFC 9457).
#[tactic(auto, using(crate::proofs::NoFloats::problem_whole), unfolding(crate::specs::Objects::problem_text))]
pub fn write_problem(alloc: Global, refusal: Refusal) -> Result<String, AllocError>
    ensures { IfOk result (λ s. string_bytes s ≡ problem_text refusal) }
{
    compact(alloc, problem(alloc, refusal)?)
}
