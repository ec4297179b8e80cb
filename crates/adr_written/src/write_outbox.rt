//! Counts of notifications, written as JSON.
ghost use Rattle.std.specs.Prelude.{◌≡◌, IfOk, OnOk, string_bytes};
ghost use Rattle.serde_json.specs.View.{view, members_view};
ghost use Rattle.serde_json.specs.Data.{put as with_member};
ghost use Rattle.adr_objects.specs.Canonical.{natural_data};
ghost use Rattle.adr_written.specs.Counts.{counts_data, counts_text};

use crate::write_fields::compact;
use adr_objects::OutboxCounts;
use serde_json::{Map, Value};
use std::alloc::{AllocError, Global};

// Sets a member to a count.
fn put_count(
    members: &mut Map<String, Value>,
    alloc: Global,
    name: &str,
    count: u64,
) -> Result<(), AllocError>
    ensures { OnOk result (members_view members.new.entries
        ≡ with_member name.now (natural_data count) (members_view members.old.entries)) }
{
    serde_json::put(members, alloc, name, Value::from(count))
}

#[tactic(auto, unfolding(crate::specs::Counts::counts_data))]
fn counts_object(alloc: Global, counts: &OutboxCounts) -> Result<Value, AllocError>
    ensures { IfOk result (λ v. view v ≡ counts_data counts.now) }
{
    let mut members = Map::new(alloc);
    put_count(&mut members, alloc, "dropped", counts.dropped)?;
    put_count(&mut members, alloc, "givenUp", counts.given_up)?;
    put_count(&mut members, alloc, "made", counts.made)?;
    put_count(&mut members, alloc, "pending", counts.pending)?;
    put_count(&mut members, alloc, "sent", counts.sent)?;
    Ok(Value::Object(members))
}

/// The text of how many notifications there were.
#[tactic(auto, using(crate::proofs::NoFloats::counts_whole), unfolding(crate::specs::Counts::counts_text))]
pub fn write_counts(alloc: Global, counts: &OutboxCounts) -> Result<String, AllocError>
    ensures { IfOk result (λ s. string_bytes s ≡ counts_text counts.now) }
{
    compact(alloc, counts_object(alloc, counts)?)
}
