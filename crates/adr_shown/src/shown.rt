//! Shown events, as tables keep them.
ghost use Rattle.std.specs.Prelude.{◌≡◌, [], ◌∷◌, codes, Ok, IfOk, OnOk, string_bytes};
ghost use Rattle.json.specs.Print.{print};
ghost use Rattle.serde_json.specs.View.{view};
ghost use Rattle.adr_text.specs.Faults.{Finds};
ghost use Rattle.adr_text.specs.Fields.{member_of, required};
ghost use Rattle.adr_text.specs.Refusals.{Gives};
ghost use Rattle.adr_shown.specs.ShownTexts.{shown_text};
ghost use Rattle.adr_shown.specs.ReadValues.{target_in};
ghost use Rattle.adr_shown.specs.ReadShown.{part_from, part_in, shown_interval_in, names_from, targets_in, shown_in, shown_of_text, shown_of};
ghost use Rattle.adr_shown.specs.Types.{IsShown};

use crate::kept::{Kept, intervals_of};
use crate::read_fields::{amount, only_value};
use crate::tokens::put_shown;
use adr_objects::{ShownEvent, ShownInterval, read_text};
use adr_text::{Fault, FromJson, Name, Refusal, list, maybe, member, needed};
use json::Writer;
use serde_json::Value;
use std::alloc::{AllocError, Global};

// How many bytes the text of an event of a few intervals has.
const USUAL: usize = 512;

// The part that a payload says.
fn part_from(payload: &Value) -> Result<Option<i64>, Fault>
    ensures { Finds (λ part. part) result (part_from (view payload.now ∷ [])) }
{
    Ok(Some(amount(payload, "DISPATCH_SETPOINT")?))
}

// The part that payloads say.
#[tactic(auto, unfolding(crate::specs::ReadShown::part_in))]
fn part(payloads: &Value) -> Result<Option<i64>, Fault>
    ensures { Finds (λ part. part) result (part_in (view payloads.now)) }
{
    match list(payloads)? {
        [] => Ok(None),
        [payload] => part_from(payload),
        _ => Err(Fault::BadShape),
    }
}

// The part that an interval says.
fn part_of(interval: &Value) -> Result<Option<i64>, Fault>
    ensures { Finds (λ part. part) result
        (required (member_of (codes "payloads") (view interval.now)) part_in) }
{
    match member(interval, "payloads") {
        Some(found) => part(found),
        None => Err(Fault::BadShape),
    }
}

// An interval with the resource's part.
impl Kept for ShownInterval {
    ghost of = { shown_interval_in };

    #[tactic(auto, unfolding(crate::specs::ReadShown::shown_interval_in))]
    fn read(alloc: Global, value: &Value) -> Result<ShownInterval, Fault> {
        let id = needed(alloc, value, "id")?;
        let period = maybe(alloc, value, "intervalPeriod")?;
        let part = part_of(value)?;
        Ok(ShownInterval { id, period, part })
    }
}

// The name that a target of that type says.
#[tactic(auto, unfolding(crate::specs::ReadValues::target_in))]
fn target(alloc: Global, value: &Value, kind: &str) -> Result<Name, Fault>
    ensures { Finds (λ name. name) result (target_in kind.now (view value.now)) }
{
    Name::from_json(alloc, only_value(value, kind)?)
}

// The names that two targets say.
fn names_from(alloc: Global, ven: &Value, resource: &Value) -> Result<(Name, Name), Fault>
    ensures { Finds (λ names. names) result
        (names_from (view ven.now ∷ view resource.now ∷ [])) }
{
    let ven = target(alloc, ven, "VEN_NAME")?;
    let resource = target(alloc, resource, "RESOURCE_NAME")?;
    Ok((ven, resource))
}

// The ven's name and the resource's that targets say.
#[tactic(auto, unfolding(crate::specs::ReadShown::targets_in))]
fn names(alloc: Global, targets: &Value) -> Result<(Name, Name), Fault>
    ensures { Finds (λ names. names) result (targets_in (view targets.now)) }
{
    match list(targets)? {
        [ven, resource] => names_from(alloc, ven, resource),
        _ => Err(Fault::BadShape),
    }
}

// The names that an event says.
fn names_of(alloc: Global, event: &Value) -> Result<(Name, Name), Fault>
    ensures { Finds (λ names. names) result
        (required (member_of (codes "targets") (view event.now)) targets_in) }
{
    match member(event, "targets") {
        Some(found) => names(alloc, found),
        None => Err(Fault::BadShape),
    }
}

// The shown event that a JSON value is.
#[tactic(auto, unfolding(crate::specs::ReadShown::shown_in))]
fn event_of(alloc: Global, value: &Value) -> Result<ShownEvent, Fault>
    ensures { Finds (λ e. e) result (shown_in (view value.now)) }
{
    let program = needed(alloc, value, "programID")?;
    let name = maybe(alloc, value, "eventName")?;
    let priority = maybe(alloc, value, "priority")?;
    let period = maybe(alloc, value, "intervalPeriod")?;
    let intervals = intervals_of(alloc, value)?;
    let names = names_of(alloc, value)?;
    Ok(ShownEvent {
        program,
        name,
        priority,
        period,
        intervals,
        ven_name: names.0,
        resource_name: names.1,
    })
}

fn event(alloc: Global, text: &str) -> Result<ShownEvent, Fault>
    ensures { Finds (λ e. e) result (shown_of_text text.now) }
{
    let value = read_text(alloc, text)?;
    event_of(alloc, &value)
}

// The text that a writer has, which began with none.
fn text_of(out: Writer) -> String
    requires { out.before ≡ [] }
    ensures { string_bytes result ≡ print out.tokens }
{
    let Ok(text) = String::from_utf8(out.into_inner()) else {
        unreachable!()
    };
    text
}

/// The text that is kept of a shown event: the event as it is written, without its id and its stamps.
/// It reads back as the event.
pub fn write_shown(alloc: Global, event: &ShownEvent) -> Result<String, AllocError>
    ensures text { IfOk result (λ s. string_bytes s ≡ shown_text event.now) }
    ensures reads_back { IfOk result (λ s. shown_of (string_bytes s) ≡ Ok event.now) }
    ensures kept { OnOk result (IsShown event.now) }
{
    let mut out = Writer::new(Vec::with_capacity(alloc, USUAL)?);
    put_shown(&mut out, event)?;
    Ok(text_of(out))
}

/// The shown event whose text it is; `BadShape` for a text that is none.
#[tactic(auto, unfolding(crate::specs::ReadShown::shown_of))]
pub fn read_shown(alloc: Global, text: &str) -> Result<ShownEvent, Refusal>
    ensures { Gives (λ e. e) result (shown_of text.now) }
{
    match event(alloc, text) {
        Ok(event) => Ok(event),
        Err(Fault::OutOfMemory) => Err(Refusal::OutOfMemory),
        Err(_) => Err(Refusal::BadShape),
    }
}
