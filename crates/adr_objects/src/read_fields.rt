//! Fields of objects, read from JSON.
ghost use Rattle.adr_objects.specs.Fields.{text_in, priority_in, setpoint_in, period_in};

use crate::interval::Period;
use crate::setpoint::{Priority, Setpoint};
use crate::text::Text;
use adr_text::{Fault, FromJson, maybe, needed, text, whole};
use serde_json::Value;
use std::alloc::Global;

impl<const MOST: usize> FromJson for Text<MOST> {
    ghost of = { text_in MOST };

    #[tactic(auto, unfolding(crate::specs::Fields::text_in))]
    fn from_json(alloc: Global, value: &Value) -> Result<Text<MOST>, Fault> {
        Text::new(alloc, text(value)?)
    }
}

impl FromJson for Priority {
    ghost of = { priority_in };

    #[tactic(auto, unfolding(crate::specs::Fields::priority_in))]
    fn from_json(_alloc: Global, value: &Value) -> Result<Priority, Fault> {
        Priority::new(whole(value).to_i64()?)
    }
}

impl FromJson for Setpoint {
    ghost of = { setpoint_in };

    #[tactic(auto, unfolding(crate::specs::Fields::setpoint_in))]
    fn from_json(_alloc: Global, value: &Value) -> Result<Setpoint, Fault> {
        Setpoint::new(whole(value).to_i64()?)
    }
}

impl FromJson for Period {
    ghost of = { period_in };

    #[tactic(auto, unfolding(crate::specs::Fields::period_in))]
    fn from_json(alloc: Global, value: &Value) -> Result<Period, Fault> {
        let start = needed(alloc, value, "start")?;
        let duration = maybe(alloc, value, "duration")?;
        let randomize_start = maybe(alloc, value, "randomizeStart")?;
        Ok(Period {
            start,
            duration,
            randomize_start,
        })
    }
}
