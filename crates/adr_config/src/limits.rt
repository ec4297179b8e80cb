//! Limits by their names.
ghost use Rattle.std.specs.Prelude.{◌≡◌, map};
ghost use Rattle.serde_json.specs.View.{view};
ghost use Rattle.adr_text.specs.Faults.{Finds};
ghost use Rattle.adr_text.specs.Fields.{member_of};
ghost use Rattle.adr_config.specs.Grants.{limit_said, limits_said, limits_in};
ghost use Rattle.adr_config.specs.Tellings.{Tells};

use crate::fault::ConfigFault;
use crate::members::count;
use crate::place::Place;
use crate::wrong::Why;
use adr_state::Limits;
use adr_text::{Fault, member};
use serde_json::Value;

/// The names of the limits.
pub(crate) const NAMES: [&str; 10] = [
    "keys",
    "vens",
    "subs",
    "resources",
    "shares",
    "reports",
    "frozen",
    "pending",
    "serial",
    "trail",
];

/// The largest number that the limit of a name may be.
fn largest(name: &str) -> u64 {
    let limits = Limits::largest();
    match name {
        "keys" => limits.keys.get(),
        "vens" => limits.vens.get(),
        "subs" => limits.subs.get(),
        "resources" => limits.resources.get(),
        "shares" => limits.shares.get(),
        "reports" => limits.reports.get(),
        "frozen" => limits.frozen.get(),
        "pending" => limits.pending.get(),
        "serial" => limits.serial.get(),
        _ => limits.trail.get(),
    }
}

/// The limits with that of a name, where it is said.
fn limit_said(mut limits: Limits, value: &Value, name: &str) -> Result<Limits, Fault>
    ensures { Finds (λ limits. limits) result (limit_said name.now (member_of name.now (view value.now)) limits) }
{
    let Some(said) = member(value, name) else {
        return Ok(limits);
    };
    if !limits.set(name, count(said)?) {
        return Err(Fault::OutOfRange);
    }
    Ok(limits)
}

/// The same, or that what stands there is wrong.
fn limit_told(
    limits: Limits,
    value: &Value,
    name: &str,
    place: Place,
) -> Result<Limits, ConfigFault>
    ensures { Tells (λ limits. limits) result (limit_said name.now (member_of name.now (view value.now)) limits) }
{
    match limit_said(limits, value, name) {
        Ok(limits) => Ok(limits),
        Err(fault) => Err(place.wrong(Why::NoCount(largest(name))).told(fault)),
    }
}

/// The limits with those of the names in turn.
fn limits_said(value: &Value, names: &[&str], limits: Limits) -> Result<Limits, ConfigFault>
    ensures { Tells (λ limits. limits) result (limits_said (view value.now) (map (λ name. name.now) names.now) limits) }
{
    let mut limits = limits;
    for i in 0..names.len() {
        limits = limit_told(limits, value, names[i], Place::Limit(i))?;
    }
    Ok(limits)
}

/// The largest limits, but for those that are said.
#[tactic(auto, unfolding(crate::specs::Grants::limits_in))]
pub(crate) fn limits(value: &Value) -> Result<Limits, ConfigFault>
    ensures { Tells (λ limits. limits) result (limits_in (view value.now)) }
{
    if !value.is_object() {
        return Err(ConfigFault::Wrong(Place::Limits.wrong(Why::NoObject)));
    }
    limits_said(value, &NAMES, Limits::largest())
}
