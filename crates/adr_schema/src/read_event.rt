//! The body of an event, read from JSON. The first fault wins.
ghost use Rattle.serde_json.specs.View.{view};
ghost use Rattle.adr_schema.specs.Events.{event_in};
ghost use Rattle.adr_schema.specs.Stops.{FindsAt};
ghost use Rattle.adr_schema.specs.FirstFaults.{event_place};

use crate::place::{Part, Within};
use crate::read_intervals::intervals_of;
use crate::read_member::{maybe_at, needed_at};
use crate::read_targets::targets_of;
use crate::stopped::Stopped;
use adr_objects::{EventBody, Intervals};
use serde_json::Value;
use std::alloc::Global;

/// The event that the value is.
#[tactic(auto, unfolding(crate::specs::Events::event_in, crate::specs::FirstFaults::event_place))]
pub(crate) fn event(alloc: Global, value: &Value) -> Result<EventBody, Stopped>
    ensures { FindsAt (event_place (view value.now)) (λ e. e) result (event_in (view value.now)) }
{
    let object = Within::Object;
    let program = needed_at(alloc, value, "programID", object.at(Part::ProgramId))?;
    let name = maybe_at(alloc, value, "eventName", object.at(Part::EventName))?;
    let priority = maybe_at(alloc, value, "priority", object.at(Part::Priority))?;
    let period = maybe_at(
        alloc,
        value,
        "intervalPeriod",
        object.at(Part::IntervalPeriod),
    )?;
    let targets = targets_of(alloc, value)?;
    let intervals = intervals_of(alloc, value)?;
    Ok(EventBody {
        program,
        name,
        priority,
        period,
        resource_names: targets.and_then(|names| names),
        intervals: intervals.unwrap_or(Intervals::new(alloc)),
    })
}
