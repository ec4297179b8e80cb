//! Fields of objects, written as JSON.
ghost use Rattle.std.specs.Prelude.{◌≤◌, length, IsTrue};
ghost use Rattle.serde_json.specs.Data.{string};
ghost use Rattle.adr_text.specs.Objects.{whole_data};
ghost use Rattle.adr_objects.specs.Canonical.{natural_data, period_data};
ghost use Rattle.adr_objects.specs.Bodies.{IsPeriod};
ghost use Rattle.adr_objects.specs.Limits.{is_setpoint, most_priority};

use crate::interval::Period;
use crate::setpoint::{Priority, Setpoint};
use crate::text::Text;
use adr_text::{ToJson, put, put_maybe};
use serde_json::{Map, Value};
use std::alloc::{AllocError, Global};

impl<const MOST: usize> ToJson for Text<MOST> {
    ghost json = { string };

    ghost keeps = { λ text. length text ≤ MOST };

    fn to_json(&self, alloc: Global) -> Result<Value, AllocError> {
        Value::try_from_str(alloc, self.as_str())
    }
}

impl ToJson for Setpoint {
    ghost json = { whole_data };

    ghost keeps = { λ amount. IsTrue (is_setpoint amount) };

    fn to_json(&self, _alloc: Global) -> Result<Value, AllocError> {
        Ok(Value::from(self.get()))
    }
}

impl ToJson for Priority {
    ghost json = { natural_data };

    ghost keeps = { λ rank. rank ≤ most_priority };

    fn to_json(&self, _alloc: Global) -> Result<Value, AllocError> {
        Ok(Value::from(self.get()))
    }
}

impl ToJson for Period {
    ghost json = { period_data };

    ghost keeps = { IsPeriod };

    #[tactic(auto, unfolding(crate::specs::Canonical::period_data))]
    fn to_json(&self, alloc: Global) -> Result<Value, AllocError> {
        let mut members = Map::new(alloc);
        put_maybe(&mut members, alloc, "duration", &self.duration)?;
        put_maybe(&mut members, alloc, "randomizeStart", &self.randomize_start)?;
        put(&mut members, alloc, "start", &self.start)?;
        Ok(Value::Object(members))
    }
}
