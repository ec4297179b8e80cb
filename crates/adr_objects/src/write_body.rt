//! The canonical text of a body.
ghost use Rattle.std.specs.Prelude.{◌≡◌, [], ◌∷◌, map, Ok, IfOk, OnOk, string_bytes};
ghost use Rattle.serde_json.specs.View.{view};
ghost use Rattle.adr_text.specs.Objects.{array_of, object_of};
ghost use Rattle.adr_objects.specs.Canonical.{texts_data, interval_data, event_data, body_data, canonical_text};
ghost use Rattle.adr_objects.specs.Bodies.{IsInterval, AreIntervals, AreNames, IsEvent, IsBody};
ghost use Rattle.adr_objects.specs.ReadBack.{canonical_of};

use crate::body::{Body, EventBody};
use crate::interval::{Interval, Intervals};
use crate::name_set::NameSet;
use adr_text::{ToJson, array, put, put_maybe};
use serde_json::{Map, Value};
use std::alloc::{AllocError, Global};

impl ToJson for NameSet {
    ghost json = { texts_data };

    ghost keeps = { AreNames };

    fn to_json(&self, alloc: Global) -> Result<Value, AllocError> {
        let mut texts = Vec::new(alloc);
        for name in self.iter() {
            texts.push(name.to_json(alloc)?)?;
        }
        Ok(Value::Array(texts))
    }
}

impl ToJson for Interval {
    ghost json = { interval_data };

    ghost keeps = { IsInterval };

    #[tactic(auto, unfolding(crate::specs::Canonical::interval_data))]
    fn to_json(&self, alloc: Global) -> Result<Value, AllocError> {
        let mut members = Map::new(alloc);
        put(&mut members, alloc, "id", &self.id)?;
        put_maybe(&mut members, alloc, "intervalPeriod", &self.period)?;
        put_maybe(&mut members, alloc, "setpoint", &self.setpoint)?;
        Ok(Value::Object(members))
    }
}

impl ToJson for Intervals {
    ghost json = { λ intervals. array_of (map interval_data intervals) };

    ghost keeps = { AreIntervals };

    fn to_json(&self, alloc: Global) -> Result<Value, AllocError> {
        array(alloc, self.as_slice())
    }
}

impl ToJson for EventBody {
    ghost json = { event_data };

    ghost keeps = { IsEvent };

    #[tactic(auto, unfolding(crate::specs::Canonical::event_data))]
    fn to_json(&self, alloc: Global) -> Result<Value, AllocError> {
        let mut members = Map::new(alloc);
        put_maybe(&mut members, alloc, "eventName", &self.name)?;
        put_maybe(&mut members, alloc, "intervalPeriod", &self.period)?;
        put(&mut members, alloc, "intervals", &self.intervals)?;
        put_maybe(&mut members, alloc, "priority", &self.priority)?;
        put(&mut members, alloc, "programID", &self.program)?;
        put_maybe(&mut members, alloc, "resourceNames", &self.resource_names)?;
        Ok(Value::Object(members))
    }
}

// An object of one member.
fn lone(alloc: Global, name: &str, value: Value) -> Result<Value, AllocError>
    ensures { IfOk result (λ v. view v ≡ object_of ((name.now, Some (view value)) ∷ [])) }
{
    let mut members = Map::new(alloc);
    serde_json::put(&mut members, alloc, name, value)?;
    Ok(Value::Object(members))
}

impl ToJson for Body {
    ghost json = { body_data };

    ghost keeps = { IsBody };

    #[tactic(auto, unfolding(crate::specs::Canonical::body_data))]
    fn to_json(&self, alloc: Global) -> Result<Value, AllocError> {
        match self {
            Body::Program(name) => lone(alloc, "program", name.to_json(alloc)?),
            Body::Event(event) => lone(alloc, "event", event.to_json(alloc)?),
            Body::Opaque(reason) => {
                let number = u32::from(reason.number());
                lone(alloc, "opaque", Value::from(number))
            }
        }
    }
}

/// The text by which two versions of one moment are ordered: its members in byte order, absent ones
/// left out, names ascending by bytes, no space. It reads back as the body.
pub fn canonical(alloc: Global, body: &Body) -> Result<String, AllocError>
    ensures text { IfOk result (λ s. string_bytes s ≡ canonical_text body.now) }
    ensures reads_back { IfOk result (λ s. canonical_of (string_bytes s) ≡ Ok body.now) }
    ensures kept { OnOk result (IsBody body.now) }
{
    body.to_json(alloc)?.to_string(alloc)
}
