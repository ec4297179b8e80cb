//! What the log is told of the objects on a page: of each version once. No contract says anything of it.
use crate::naming::kind_name;
use adr_objects::{Body, Found, Kind};
use adr_schema::{Defect, Element, PassedOver, read_element, shown_id, targets_passed_over};
use adr_text::{list, read_value};
use log::{Level, Log, debug, log_enabled, warn};
use serde_json::Value;
use std::alloc::{AllocError, Global};
use std::collections::BTreeSet;

/// How many versions are remembered at most. Past them each may be told again.
const MOST_TOLD: usize = 200_000;

/// What was told of objects, by numbers that are made of their kind, id and moment.
#[derive(Drop)]
pub(crate) struct ObjectLog {
    alloc: Global,
    versions: BTreeSet<u64>,
    /// Events of which a version was read.
    read: BTreeSet<u64>,
}

// A number made of bytes and of another number (FNV-1a).
fn number_of(before: u64, bytes: &[u8]) -> u64 {
    let mut number = before;
    for byte in bytes {
        number = (number ^ *byte as u64).wrapping_mul(0x0000_0100_0000_01b3);
    }
    number
}

fn number_of_id(kind: Kind, id: &str) -> u64 {
    let kind = number_of(0xcbf2_9ce4_8422_2325, kind_name(kind).as_bytes());
    number_of(kind, id.as_bytes())
}

// Of two versions of one moment one can be read and the other not.
fn number_of_version(found: &Found) -> u64 {
    let id = number_of_id(found.kind, found.id.as_id().as_str());
    let moment = number_of(id, &found.moment.nanos().to_be_bytes());
    let reason = match &found.body {
        Body::Opaque(reason) => reason.number(),
        Body::Program(_) | Body::Event(_) => 0,
    };
    number_of(moment, &[reason])
}

// The values on a page; none where it is no list.
fn values_on(value: &Value) -> &[Value] {
    match list(value) {
        Ok(values) => values,
        Err(_) => &[],
    }
}

fn tell_skipped<R: Log>(rt: &R, kind: Kind, id: Option<&str>, defect: Defect) {
    let kind = kind_name(kind);
    match id {
        Some(id) => debug!(rt; target: "object", kind, id; "skipped: {defect}"),
        None => debug!(rt; target: "object", kind; "skipped: {defect}"),
    }
}

fn tell_unread<R: Log>(rt: &R, found: &Found, defect: Defect, was_read: bool) {
    let (kind, id) = (kind_name(found.kind), found.id.as_id().as_str());
    if was_read {
        warn!(rt; target: "object", kind, id; "unread, where an earlier version was read: {defect}");
    } else {
        debug!(rt; target: "object", kind, id; "unread: {defect}");
    }
}

fn tell_targets<R: Log>(rt: &R, found: &Found, passed: &PassedOver) {
    let (kind, id) = (kind_name(found.kind), found.id.as_id().as_str());
    for target in &passed.targets {
        debug!(rt; target: "object", kind, id; "target {} is passed over: {}", target.number, target.type_name);
    }
    if passed.to_everybody {
        warn!(rt; target: "object", kind, id; "all targets are passed over: the event goes to everybody");
    }
}

impl ObjectLog {
    /// Nothing was told yet.
    pub(crate) fn new(alloc: Global) -> ObjectLog {
        ObjectLog {
            alloc,
            versions: BTreeSet::new(alloc),
            read: BTreeSet::new(alloc),
        }
    }

    // Whether one of these versions was not told of.
    fn has_new(&self, found: &[Found]) -> bool {
        found.iter().any(|version| !self.versions.contains(&number_of_version(version)))
    }

    // Notes that a number is told of, and gives whether it was not before.
    fn note(&mut self, number: u64) -> Result<bool, AllocError> {
        if MOST_TOLD <= self.versions.len() {
            self.versions.clear();
        }
        Ok(self.versions.insert(number)?)
    }

    // An element that is skipped has no version: it is told of once for each of its faults.
    fn skipped<R: Log>(
        &mut self,
        rt: &R,
        kind: Kind,
        value: &Value,
        defect: Defect,
    ) -> Result<(), AllocError> {
        let id = shown_id(self.alloc, value)?;
        let id = id.as_ref().map(|id| id.as_str());
        let words = format!(in self.alloc; "{defect}")?;
        let number = number_of(number_of_id(kind, id.unwrap_or("")), words.as_bytes());
        if self.note(number)? {
            tell_skipped(rt, kind, id, defect);
        }
        Ok(())
    }

    fn unread<R: Log>(&mut self, rt: &R, found: &Found, defect: Defect) -> Result<(), AllocError> {
        if self.note(number_of_version(found))? {
            let id = number_of_id(found.kind, found.id.as_id().as_str());
            let was_read = self.read.remove(&id);
            tell_unread(rt, found, defect, was_read);
        }
        Ok(())
    }

    fn event_read<R: Log>(
        &mut self,
        rt: &R,
        found: &Found,
        value: &Value,
    ) -> Result<(), AllocError> {
        if MOST_TOLD <= self.read.len() {
            self.read.clear();
        }
        let id = number_of_id(found.kind, found.id.as_id().as_str());
        self.read.insert(id)?;
        tell_targets(rt, found, &targets_passed_over(self.alloc, value)?);
        Ok(())
    }

    // A version that is read, and stands on the page as this value.
    fn version<R: Log>(&mut self, rt: &R, found: &Found, value: &Value) -> Result<(), AllocError> {
        if self.note(number_of_version(found))? && found.kind == Kind::Event {
            self.event_read(rt, found, value)?;
        }
        Ok(())
    }

    fn element<R: Log>(&mut self, rt: &R, kind: Kind, value: &Value) -> Result<(), AllocError> {
        match &read_element(self.alloc, kind, value)? {
            Element::Read(found) => self.version(rt, found, value),
            Element::Unread(found, defect) => self.unread(rt, found, *defect),
            Element::Skipped(defect) => self.skipped(rt, kind, value, *defect),
        }
    }

    fn elements<R: Log>(&mut self, rt: &R, kind: Kind, values: &[Value]) -> Result<(), AllocError> {
        for value in values {
            self.element(rt, kind, value)?;
        }
        Ok(())
    }

    /// Tells of the versions on a page with these bytes, and of its elements that are none. The bytes are read again only
    /// where there is something new. Where memory is wanting, the rest isn't told.
    pub(crate) fn page<R: Log>(
        &mut self,
        rt: &R,
        kind: Kind,
        found: &[Found],
        skipped: u64,
        body: &[u8],
    ) {
        if !log_enabled!(rt; target: "object", Level::Warn) {
            return;
        }
        if skipped == 0 && !self.has_new(found) {
            return;
        }
        if let Ok(value) = read_value(self.alloc, body) {
            let _ = self.elements(rt, kind, values_on(&value));
        }
    }
}
