//! The texts of the ids that the node gives.
ghost use Rattle.std.specs.Prelude.{◌≡◌, IfOk, string_bytes};
ghost use Rattle.adr_written.specs.Ids.{ven_id, resource_id, report_id, sub_id, shown_id};

use adr_objects::Number;
use adr_text::ObjectId;
use std::alloc::{AllocError, Global};

/// The id of a ven: `v` and its number.
pub fn ven_id(alloc: Global, ven: Number) -> Result<String, AllocError>
    ensures { IfOk result (λ s. string_bytes s ≡ ven_id ven) }
{
    let number = ven.get();
    format!(in alloc; "v{number}")
}

/// The id of a resource: `r` and its number.
pub fn resource_id(alloc: Global, resource: Number) -> Result<String, AllocError>
    ensures { IfOk result (λ s. string_bytes s ≡ resource_id resource) }
{
    let number = resource.get();
    format!(in alloc; "r{number}")
}

/// The id of a report: `p` and its number.
pub fn report_id(alloc: Global, report: Number) -> Result<String, AllocError>
    ensures { IfOk result (λ s. string_bytes s ≡ report_id report) }
{
    let number = report.get();
    format!(in alloc; "p{number}")
}

/// The id of a subscription: `s` and its number.
pub fn sub_id(alloc: Global, sub: Number) -> Result<String, AllocError>
    ensures { IfOk result (λ s. string_bytes s ≡ sub_id sub) }
{
    let number = sub.get();
    format!(in alloc; "s{number}")
}

/// The id of what a resource is shown of an upstream event: the resource's, `-` and the event's.
pub fn shown_id(alloc: Global, resource: Number, event: &ObjectId) -> Result<String, AllocError>
    ensures { IfOk result (λ s. string_bytes s ≡ shown_id resource event.now) }
{
    let number = resource.get();
    let event = event.as_str();
    format!(in alloc; "r{number}-{event}")
}
