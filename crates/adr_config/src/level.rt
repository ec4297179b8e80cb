//! How much is told on standard error.
ghost use Rattle.std.specs.Prelude.{◌≡◌, codes, IfOk};
ghost use Rattle.serde_json.specs.View.{view};
ghost use Rattle.adr_text.specs.Fields.{member_of, optional};
ghost use Rattle.adr_config.specs.Levels.{level_named, level_in, level_at, level_of, log_in};
ghost use Rattle.adr_config.specs.Tellings.{Tells};

use crate::fault::ConfigFault;
use crate::place::Place;
use crate::wrong::Why;
use adr_text::{Fault, member, read_value};
use log::LevelFilter;
use serde_json::Value;
use std::alloc::{AllocError, Global};

/// The level of a name.
fn level_named(name: &str) -> Option<LevelFilter>
    ensures { result ≡ level_named name.now }
{
    match name {
        "off" => Some(LevelFilter::Off),
        "error" => Some(LevelFilter::Error),
        "warn" => Some(LevelFilter::Warn),
        "info" => Some(LevelFilter::Info),
        "debug" => Some(LevelFilter::Debug),
        _ => None,
    }
}

/// The level that a value is.
fn level_in(value: &Value) -> Option<LevelFilter>
    ensures { result ≡ level_in (view value.now) }
{
    level_named(value.as_str()?)
}

/// The level that a configuration says, where it says one.
#[tactic(auto, unfolding(crate::specs::Levels::log_in))]
pub(crate) fn level_said(value: &Value) -> Result<Option<LevelFilter>, ConfigFault>
    ensures { Tells (λ level. level) result (optional (member_of (codes "log") (view value.now)) log_in) }
{
    let Some(said) = member(value, "log") else {
        return Ok(None);
    };
    match level_in(said) {
        Some(level) => Ok(Some(level)),
        None => Err(ConfigFault::Wrong(Place::Log.wrong(Why::NoLevel))),
    }
}

/// The level by which a value is told of.
fn level_at(value: &Value) -> LevelFilter
    ensures { result ≡ level_at (view value.now) }
{
    match member(value, "log") {
        Some(said) => level_in(said).unwrap_or(LevelFilter::Error),
        None => LevelFilter::Off,
    }
}

/// The level that the bytes of a file say, also where another member is wrong: off where they are no JSON object or say
/// none, and error where what they say is none, so that this is told.
pub fn log_of(alloc: Global, bytes: &[u8]) -> Result<LevelFilter, AllocError>
    ensures { IfOk result (λ level. level ≡ level_of bytes.now) }
{
    match read_value(alloc, bytes) {
        Ok(value) => Ok(level_at(&value)),
        Err(Fault::OutOfMemory) => Err(AllocError),
        Err(_) => Ok(LevelFilter::Off),
    }
}
