//! What sites and operators post, read from JSON.
ghost use Rattle.std.specs.Prelude.{◌≡◌};
ghost use Rattle.serde_json.specs.View.{view};
ghost use Rattle.adr_text.specs.Faults.{Finds, as_refusal};
ghost use Rattle.adr_text.specs.Refusals.{Gives};
ghost use Rattle.adr_schema.specs.Sites.{ven_in, resource_in, share_in, ven_of, resource_of, share_of, anything_in, anything_of};

use crate::read_typed::text_at;
use adr_objects::{ResourceIn, ResourceName, ShareIn, VenIn};
use adr_text::{Fault, Refusal, needed, read_value};
use serde_json::Value;
use std::alloc::Global;

#[tactic(auto, unfolding(crate::specs::Sites::ven_in))]
fn ven(alloc: Global, value: &Value) -> Result<VenIn, Fault>
    ensures { Finds (λ ven. ven) result (ven_in (view value.now)) }
{
    let name = needed(alloc, value, "venName")?;
    Ok(VenIn { name })
}

#[tactic(auto, unfolding(crate::specs::Sites::resource_in))]
fn resource(alloc: Global, value: &Value) -> Result<ResourceIn, Fault>
    ensures { Finds (λ resource. resource) result (resource_in (view value.now)) }
{
    let name = ResourceName::new(alloc, text_at(value, "resourceName")?)?;
    Ok(ResourceIn { name })
}

#[tactic(auto, unfolding(crate::specs::Sites::share_in))]
fn share(alloc: Global, value: &Value) -> Result<ShareIn, Fault>
    ensures { Finds (λ share. share) result (share_in (view value.now)) }
{
    let share = needed(alloc, value, "share")?;
    Ok(ShareIn { share })
}

// Nothing of what is there but that it is JSON.
fn anything(alloc: Global, bytes: &[u8]) -> Result<(), Fault>
    ensures { Finds (λ found. found) result (anything_in bytes.now) }
{
    let _passed_over = read_value(alloc, bytes)?;
    Ok(())
}

// The fault, told as a refusal.
pub(crate) fn told<T>(outcome: Result<T, Fault>) -> Result<T, Refusal>
    ensures { result ≡ as_refusal outcome }
{
    match outcome {
        Ok(value) => Ok(value),
        Err(fault) => Err(fault.refusal()),
    }
}

/// The ven that the bytes are (OpenADR 3.0, VEN); `BadShape` where they are none.
#[tactic(auto, using(crate::proofs::Refusals::told_gives), unfolding(crate::specs::Sites::ven_of))]
pub fn read_ven(alloc: Global, bytes: &[u8]) -> Result<VenIn, Refusal>
    ensures { Gives (λ x. x) result (ven_of bytes.now) }
{
    told(read_value(alloc, bytes).and_then(|value| ven(alloc, &value)))
}

/// The resource that the bytes are (OpenADR 3.0, RESOURCE); `BadShape` where they are none.
#[tactic(auto, using(crate::proofs::Refusals::told_gives), unfolding(crate::specs::Sites::resource_of))]
pub fn read_resource(alloc: Global, bytes: &[u8]) -> Result<ResourceIn, Refusal>
    ensures { Gives (λ x. x) result (resource_of bytes.now) }
{
    told(read_value(alloc, bytes).and_then(|value| resource(alloc, &value)))
}

/// The share that the bytes are; `NotWhole` where its number is not whole or not from 0 to 4294967295,
/// `BadShape` where they are none for another reason.
#[tactic(auto, using(crate::proofs::Refusals::told_gives), unfolding(crate::specs::Sites::share_of))]
pub fn read_share(alloc: Global, bytes: &[u8]) -> Result<ShareIn, Refusal>
    ensures { Gives (λ x. x) result (share_of bytes.now) }
{
    told(read_value(alloc, bytes).and_then(|value| share(alloc, &value)))
}

/// Nothing of the bytes but that they are JSON, of whatever kind; `BadShape` where they are not.
#[tactic(auto, using(crate::proofs::Refusals::told_gives), unfolding(crate::specs::Sites::anything_of))]
pub fn read_anything(alloc: Global, bytes: &[u8]) -> Result<(), Refusal>
    ensures { Gives (λ x. x) result (anything_of bytes.now) }
{
    told(anything(alloc, bytes))
}
