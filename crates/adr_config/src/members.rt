//! Members of JSON objects that are counts.
ghost use Rattle.std.specs.Prelude.{◌≡◌};
ghost use Rattle.serde_json.specs.View.{view};
ghost use Rattle.adr_text.specs.Faults.{Finds};
ghost use Rattle.adr_text.specs.Fields.{member_of, required};
ghost use Rattle.adr_config.specs.Members.{count_in, limit_in};
ghost use Rattle.adr_config.specs.Tellings.{Tells};

use crate::fault::ConfigFault;
use crate::place::Place;
use crate::wrong::Why;
use adr_state::Limit;
use adr_text::{Fault, member, whole};
use serde_json::Value;

/// The count that a value is: a whole number, 0 or more.
#[tactic(auto, unfolding(crate::specs::Members::count_in))]
pub(crate) fn count(value: &Value) -> Result<u64, Fault>
    ensures { Finds (λ n. n) result (count_in (view value.now)) }
{
    let n = whole(value).to_i64()?;
    u64::try_from(n).map_err(|_| Fault::OutOfRange)
}

/// The number that a value is, from 1 up to its largest.
#[tactic(auto, unfolding(crate::specs::Members::limit_in))]
fn limit_of<const MOST: u64>(value: &Value) -> Result<Limit<MOST>, Fault>
    ensures { Finds (λ n. n) result (limit_in MOST (view value.now)) }
{
    let n = count(value)?;
    Limit::new(n).ok_or(Fault::OutOfRange)
}

/// The number that stands there, from 1 up to its largest.
pub(crate) fn limit<const MOST: u64>(
    value: &Value,
    place: Place,
) -> Result<Limit<MOST>, ConfigFault>
    ensures { Tells (λ n. n) result (limit_in MOST (view value.now)) }
{
    match limit_of(value) {
        Ok(n) => Ok(n),
        Err(fault) => Err(place.wrong(Why::NoCount(MOST)).told(fault)),
    }
}

/// The number of a member that has to be there, and stands at that place.
pub(crate) fn needed_limit<const MOST: u64>(
    value: &Value,
    name: &str,
    place: Place,
) -> Result<Limit<MOST>, ConfigFault>
    ensures { Tells (λ n. n) result (required (member_of name.now (view value.now)) (limit_in MOST)) }
{
    match member(value, name) {
        Some(said) => limit(said, place),
        None => Err(ConfigFault::Wrong(place.wrong(Why::Missing))),
    }
}
