//! Canonical texts, read back.
ghost use Rattle.std.specs.Prelude.{◌≡◌, codes};
ghost use Rattle.serde_json.specs.View.{view};
ghost use Rattle.adr_text.specs.Faults.{Finds};
ghost use Rattle.adr_text.specs.Fields.{member_of, required};
ghost use Rattle.adr_text.specs.Refusals.{Gives};
ghost use Rattle.adr_objects.specs.ReadBack.{reason_at, reason_in, names_in, canonical_interval_in, canonical_intervals_in, canonical_event_in, canonical_in, value_of_text, body_of_text, canonical_of};

use crate::body::{Body, EventBody, Reason};
use crate::interval::{Interval, Intervals};
use crate::name_set::NameSet;
use adr_text::{Fault, FromJson, Name, Refusal, all, list, maybe, member, needed, whole};
use serde_json::Value;
use std::alloc::Global;

fn reason_at(number: i64) -> Result<Reason, Fault>
    ensures { result ≡ reason_at number }
{
    match number {
        1 => Ok(Reason::Fraction),
        2 => Ok(Reason::NotOne),
        3 => Ok(Reason::Repeated),
        4 => Ok(Reason::OutOfRange),
        5 => Ok(Reason::BadShape),
        _ => Err(Fault::OutOfRange),
    }
}

impl FromJson for Reason {
    ghost of = { reason_in };

    #[tactic(auto, unfolding(crate::specs::ReadBack::reason_in))]
    fn from_json(_alloc: Global, value: &Value) -> Result<Reason, Fault> {
        reason_at(whole(value).to_i64()?)
    }
}

impl FromJson for NameSet {
    ghost of = { names_in };

    #[tactic(auto, unfolding(crate::specs::ReadBack::names_in))]
    fn from_json(alloc: Global, value: &Value) -> Result<NameSet, Fault> {
        let names: Vec<Name> = all(alloc, list(value)?)?;
        NameSet::of(alloc, names)
    }
}

// An interval of a canonical text, in which the setpoint stands by itself.
impl FromJson for Interval {
    ghost of = { canonical_interval_in };

    #[tactic(auto, unfolding(crate::specs::ReadBack::canonical_interval_in))]
    fn from_json(alloc: Global, value: &Value) -> Result<Interval, Fault> {
        let id = needed(alloc, value, "id")?;
        let period = maybe(alloc, value, "intervalPeriod")?;
        let setpoint = maybe(alloc, value, "setpoint")?;
        Ok(Interval {
            id,
            period,
            setpoint,
        })
    }
}

// At most 1,000 intervals.
fn intervals(alloc: Global, value: &Value) -> Result<Intervals, Fault>
    ensures { Finds (λ is. is) result (canonical_intervals_in (view value.now)) }
{
    let values = list(value)?;
    if values.len() > 1000 {
        return Err(Fault::BadShape);
    }
    Intervals::apart(all(alloc, values)?)
}

// The intervals of an event, which are always there.
fn intervals_of(alloc: Global, event: &Value) -> Result<Intervals, Fault>
    ensures { Finds (λ is. is) result
        (required (member_of (codes "intervals") (view event.now)) canonical_intervals_in) }
{
    match member(event, "intervals") {
        Some(found) => intervals(alloc, found),
        None => Err(Fault::BadShape),
    }
}

// The event of a canonical text.
#[tactic(auto, unfolding(crate::specs::ReadBack::canonical_event_in))]
fn event(alloc: Global, value: &Value) -> Result<EventBody, Fault>
    ensures { Finds (λ e. e) result (canonical_event_in (view value.now)) }
{
    let program = needed(alloc, value, "programID")?;
    let name = maybe(alloc, value, "eventName")?;
    let priority = maybe(alloc, value, "priority")?;
    let period = maybe(alloc, value, "intervalPeriod")?;
    let resource_names = maybe(alloc, value, "resourceNames")?;
    let intervals = intervals_of(alloc, value)?;
    Ok(EventBody {
        program,
        name,
        priority,
        period,
        resource_names,
        intervals,
    })
}

// The body of a canonical text.
impl FromJson for Body {
    ghost of = { canonical_in };

    #[tactic(auto, unfolding(crate::specs::ReadBack::canonical_in))]
    fn from_json(alloc: Global, value: &Value) -> Result<Body, Fault> {
        let named = (
            member(value, "event"),
            member(value, "opaque"),
            member(value, "program"),
        );
        match named {
            (Some(found), None, None) => Ok(Body::Event(event(alloc, found)?)),
            (None, Some(found), None) => Ok(Body::Opaque(Reason::from_json(alloc, found)?)),
            (None, None, Some(found)) => Ok(Body::Program(Name::from_json(alloc, found)?)),
            _ => Err(Fault::BadShape),
        }
    }
}

/// The JSON value that a text is; `BadShape` for a text that is none.
pub fn read_text(alloc: Global, text: &str) -> Result<Value, Fault>
    ensures { Finds view result (value_of_text text.now) }
{
    match Value::from_str(alloc, text) {
        Ok(value) => Ok(value),
        Err(e) => if e.is_memory() {
            Err(Fault::OutOfMemory)
        } else {
            Err(Fault::BadShape)
        },
    }
}

fn body(alloc: Global, text: &str) -> Result<Body, Fault>
    ensures { Finds (λ b. b) result (body_of_text text.now) }
{
    let value = read_text(alloc, text)?;
    Body::from_json(alloc, &value)
}

/// The body whose canonical text it is; `BadShape` for a text that is none.
#[tactic(auto, unfolding(crate::specs::ReadBack::canonical_of))]
pub fn read_canonical(alloc: Global, text: &str) -> Result<Body, Refusal>
    ensures { Gives (λ b. b) result (canonical_of text.now) }
{
    match body(alloc, text) {
        Ok(body) => Ok(body),
        Err(Fault::OutOfMemory) => Err(Refusal::OutOfMemory),
        Err(_) => Err(Refusal::BadShape),
    }
}
