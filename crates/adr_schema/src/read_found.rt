//! Upstream objects, one or a page of them, read from JSON.
ghost use Rattle.std.specs.Prelude.{map, Ok};
ghost use Rattle.serde_json.specs.View.{view};
ghost use Rattle.adr_text.specs.Faults.{Finds};
ghost use Rattle.adr_text.specs.Refusals.{Gives};
ghost use Rattle.adr_schema.specs.Pages.{founds_and_skipped, page_in, page_of, version_of};

use crate::read_site::told;
use crate::read_version::found;
use adr_objects::{Found, Kind};
use adr_text::{Fault, Refusal, Rows, list, read_value};
use serde_json::Value;
use std::alloc::Global;

// The versions among the elements, and how many are none.
fn each_found(alloc: Global, kind: Kind, values: &[Value]) -> Result<(Rows<Found>, u64), Fault>
    ensures { Finds (λ p. (p.0, p.1)) result
        (Ok (founds_and_skipped kind (map view values.now))) }
{
    let mut versions = Rows::new(alloc);
    let mut skipped: u64 = 0;
    for v in values {
        match found(alloc, kind, v) {
            Ok(version) => versions.push(version)?,
            Err(Fault::OutOfMemory) => return Err(Fault::OutOfMemory),
            Err(_) => skipped += 1,
        }
    }
    Ok((versions, skipped))
}

fn page(alloc: Global, kind: Kind, value: &Value) -> Result<(Rows<Found>, u64), Fault>
    ensures { Finds (λ p. (p.0, p.1)) result (page_in kind (view value.now)) }
{
    each_found(alloc, kind, list(value)?)
}

/// The versions on a page of objects of that kind, in the page's order, and how many of its elements
/// are none; `BadShape` where the bytes are no JSON array.
#[tactic(auto, using(crate::proofs::Refusals::told_gives), unfolding(crate::specs::Pages::page_of))]
pub fn read_page(alloc: Global, kind: Kind, bytes: &[u8]) -> Result<(Rows<Found>, u64), Refusal>
    ensures { Gives (λ p. (p.0, p.1)) result (page_of kind bytes.now) }
{
    told(read_value(alloc, bytes).and_then(|value| page(alloc, kind, &value)))
}

/// The one version that the bytes are, as an object of that kind; `BadShape` where a page would skip it
/// or the bytes are no JSON.
#[tactic(auto, using(crate::proofs::Refusals::told_gives), unfolding(crate::specs::Pages::version_of))]
pub fn read_one(alloc: Global, kind: Kind, bytes: &[u8]) -> Result<Found, Refusal>
    ensures { Gives (λ f. f) result (version_of kind bytes.now) }
{
    told(read_value(alloc, bytes).and_then(|value| found(alloc, kind, &value)))
}
