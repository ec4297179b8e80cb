//! What is kept for a frozen event, written as JSON.
ghost use Rattle.std.specs.Prelude.{◌≡◌, IfOk, string_bytes};
ghost use Rattle.serde_json.specs.View.{view};
ghost use Rattle.adr_written.specs.WrittenFrozen.{kept_share_data, frozen_object_data, frozen_text};

use crate::ids::resource_id;
use crate::write_fields::{Written, compact, list_of, put_text};
use adr_objects::{FrozenObject, Number};
use adr_text::put;
use serde_json::{Map, Value};
use std::alloc::{AllocError, Global};

impl Written for (Number, u32) {
    ghost json = { kept_share_data };

    #[tactic(auto, unfolding(crate::specs::WrittenFrozen::kept_share_data))]
    fn written(&self, alloc: Global) -> Result<Value, AllocError> {
        let resource = resource_id(alloc, self.0)?;
        let mut members = Map::new(alloc);
        put_text(&mut members, alloc, "resourceID", resource.as_str())?;
        put(&mut members, alloc, "share", &self.1)?;
        Ok(Value::Object(members))
    }
}

#[tactic(auto, unfolding(crate::specs::WrittenFrozen::frozen_object_data))]
fn frozen_object(alloc: Global, frozen: &FrozenObject) -> Result<Value, AllocError>
    ensures { IfOk result (λ v. view v ≡ frozen_object_data frozen.now) }
{
    let shares = list_of(alloc, frozen.shares.as_slice())?;
    let mut members = Map::new(alloc);
    put(&mut members, alloc, "eventID", &frozen.event)?;
    serde_json::put(&mut members, alloc, "shares", shares)?;
    Ok(Value::Object(members))
}

/// The text of what is kept for a frozen event, under its upstream id.
#[tactic(auto, using(crate::proofs::NoFloats::frozen_object_whole), unfolding(crate::specs::WrittenFrozen::frozen_text))]
pub fn write_frozen(alloc: Global, frozen: &FrozenObject) -> Result<String, AllocError>
    ensures { IfOk result (λ s. string_bytes s ≡ frozen_text frozen.now) }
{
    compact(alloc, frozen_object(alloc, frozen)?)
}
