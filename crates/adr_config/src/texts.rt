//! Members that are texts.
ghost use Rattle.std.specs.Prelude.{◌≡◌};
ghost use Rattle.serde_json.specs.View.{view};
ghost use Rattle.adr_text.specs.Fields.{member_of, required, optional};
ghost use Rattle.adr_config.specs.Tellings.{Tells};

use crate::fault::ConfigFault;
use crate::place::Place;
use crate::wrong::Why;
use adr_text::{FromJson, maybe, member, needed};
use serde_json::Value;
use std::alloc::Global;

/// Why such a member is wrong: it is missing, or no text, or a text for that reason.
fn reason(said: Option<&Value>, why: Why) -> Why {
    match said {
        None => Why::Missing,
        Some(value) => if value.is_string() { why } else { Why::NoText },
    }
}

/// A member that has to be there, and stands at that place. Its text is wrong for that reason.
pub(crate) fn needed_text<T: FromJson>(
    alloc: Global,
    value: &Value,
    name: &str,
    place: Place,
    why: Why,
) -> Result<T, ConfigFault>
    ensures { Tells (λ x. x) result (required (member_of name.now (view value.now)) T.of) }
{
    match needed(alloc, value, name) {
        Ok(read) => Ok(read),
        Err(fault) => {
            let why = reason(member(value, name), why);
            Err(place.wrong(why).told(fault))
        }
    }
}

/// A member that may be absent, and stands at that place. Its text is wrong for that reason.
pub(crate) fn maybe_text<T: FromJson>(
    alloc: Global,
    value: &Value,
    name: &str,
    place: Place,
    why: Why,
) -> Result<Option<T>, ConfigFault>
    ensures { Tells (λ x. x) result (optional (member_of name.now (view value.now)) T.of) }
{
    match maybe(alloc, value, name) {
        Ok(read) => Ok(read),
        Err(fault) => {
            let why = reason(member(value, name), why);
            Err(place.wrong(why).told(fault))
        }
    }
}
