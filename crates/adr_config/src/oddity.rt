//! What a configuration says that has no effect.
use crate::limits::NAMES;
use crate::place::Place;
use adr_state::{id_in, number_in};
use adr_text::{Fault, list, member, read_value};
use serde_json::Value;
use std::alloc::{AllocError, Global};
use std::fmt;

/// What a configuration says that has no effect, so that it is hardly meant.
#[derive(Debug, Drop)]
pub struct Oddity {
    what: What,
}

#[derive(Debug, Drop)]
enum What {
    /// A member of a name that isn't known, of what stands there or of the configuration. It is passed over. The name is
    /// one that may be shown.
    NotKnown(Option<Place>, String),
    /// An id there that no ven ever has.
    NoVen(Place),
    /// A limit of the trail, which a node that serves doesn't keep.
    Trail,
}

impl fmt::Display for Oddity {
    fn fmt<W: fmt::Write>(&self, f: &mut fmt::Formatter<W>) -> fmt::Result {
        match &self.what {
            What::NotKnown(None, name) => write!(f, "{name}: not a known member"),
            What::NotKnown(Some(place), name) => write!(f, "{place}.{name}: not a known member"),
            What::NoVen(place) => write!(f, "{place}: no ven has such an id"),
            What::Trail => f.write_str("limits.trail: has no effect in a node that serves"),
        }
    }
}

/// The names of members of a configuration. `$schema` is for editors.
const MEMBERS: [&str; 14] = [
    "$schema",
    "listen",
    "upstream",
    "upstreamToken",
    "callbacks",
    "clientName",
    "poll",
    "workers",
    "store",
    "tokens",
    "limits",
    "stopAfter",
    "massDeletion",
    "log",
];

/// The names of members of an item of `tokens`.
const PARTS: [&str; 3] = ["token", "role", "venID"];

/// So many characters of a name are shown.
const MOST_SHOWN: usize = 64;

/// A name as it may be shown: its first characters, with `?` for those that aren't printed.
fn shown(alloc: Global, name: &str) -> Result<String, AllocError> {
    let mut text = String::new(alloc);
    for c in name.chars().take(MOST_SHOWN) {
        let is_printed = c == ' ' || c.is_ascii_graphic();
        text.push(if is_printed { c } else { '?' })?;
    }
    Ok(text)
}

fn is_known(known: &[&str], name: &str) -> bool {
    known.iter().any(|one| *one == name)
}

/// Puts those members of what stands there behind the others whose names aren't known.
fn find_unknown(
    alloc: Global,
    value: &Value,
    place: Option<Place>,
    known: &[&str],
    found: &mut Vec<Oddity>,
) -> Result<(), AllocError> {
    let Some(members) = value.as_object() else {
        return Ok(());
    };
    for (name, _) in members.iter() {
        if !is_known(known, name.as_str()) {
            let name = shown(alloc, name.as_str())?;
            found.push(Oddity {
                what: What::NotKnown(place, name),
            })?;
        }
    }
    Ok(())
}

/// Whether a value is a text, and the id of no ven.
fn is_no_ven(alloc: Global, value: &Value) -> Result<bool, AllocError> {
    let Some(text) = value.as_str() else {
        return Ok(false);
    };
    Ok(match id_in(alloc, text)? {
        Some(id) => number_in(b'v', &id).is_none(),
        None => true,
    })
}

/// Puts what has no effect in the item of `tokens` of that number behind the others.
fn find_in_item(
    alloc: Global,
    value: &Value,
    item: usize,
    found: &mut Vec<Oddity>,
) -> Result<(), AllocError> {
    find_unknown(alloc, value, Some(Place::Item(item)), &PARTS, found)?;
    if let Some(ven) = member(value, "venID")
        && is_no_ven(alloc, ven)?
    {
        found.push(Oddity {
            what: What::NoVen(Place::VenId(item)),
        })?;
    }
    Ok(())
}

/// Puts what has no effect in the items of `tokens` behind the others.
fn find_in_tokens(alloc: Global, value: &Value, found: &mut Vec<Oddity>) -> Result<(), AllocError> {
    let Some(said) = member(value, "tokens") else {
        return Ok(());
    };
    let Ok(items) = list(said) else {
        return Ok(());
    };
    for i in 0..items.len() {
        find_in_item(alloc, &items[i], i, found)?;
    }
    Ok(())
}

/// Puts what has no effect in `limits` behind the others.
fn find_in_limits(alloc: Global, value: &Value, found: &mut Vec<Oddity>) -> Result<(), AllocError> {
    let Some(limits) = member(value, "limits") else {
        return Ok(());
    };
    find_unknown(alloc, limits, Some(Place::Limits), &NAMES, found)?;
    if member(limits, "trail").is_some() {
        found.push(Oddity { what: What::Trail })?;
    }
    Ok(())
}

/// What has no effect in a value.
fn oddities_in(alloc: Global, value: &Value) -> Result<Vec<Oddity>, AllocError> {
    let mut found = Vec::new(alloc);
    find_unknown(alloc, value, None, &MEMBERS, &mut found)?;
    find_in_limits(alloc, value, &mut found)?;
    find_in_tokens(alloc, value, &mut found)?;
    Ok(found)
}

/// What the bytes of a file say that has no effect: members of names that aren't known, at the top, in `limits` and in
/// the items of `tokens`, ids that no ven ever has, and a limit of the trail. None are found in what is no JSON object.
pub fn oddities(alloc: Global, bytes: &[u8]) -> Result<Vec<Oddity>, AllocError> {
    match read_value(alloc, bytes) {
        Ok(value) => oddities_in(alloc, &value),
        Err(Fault::OutOfMemory) => Err(AllocError),
        Err(_) => Ok(Vec::new(alloc)),
    }
}
