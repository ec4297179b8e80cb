//! Whether two images hold the same state.
use crate::portfolio::is_same_portfolio;
use crate::same_outbox::is_same_outbox;
use adr_machine::Desk;
use adr_objects::Stamps;
use adr_same::Same;
use adr_state::{Base, Image, Mark, MirrorKey, Polled, State, ViewKey};
use adr_text::{Refusal, Table};

fn is_same_mark(mark: &Mark, other: &Mark) -> bool {
    match (mark, other) {
        (Mark::Live(moment, body), Mark::Live(later, version)) => {
            moment == later && body.is_same(version)
        }
        (Mark::Dead, Mark::Dead) => true,
        _ => false,
    }
}

fn has_mark(mirror: &Table<MirrorKey, Mark>, key: &MirrorKey, mark: &Mark) -> bool {
    match mirror.get(key) {
        Some(other) => is_same_mark(mark, other),
        None => false,
    }
}

fn is_same_mirror(mirror: &Table<MirrorKey, Mark>, other: &Table<MirrorKey, Mark>) -> bool {
    mirror.len() == other.len() && mirror.iter().all(|(key, mark)| has_mark(other, key, mark))
}

fn is_within(keys: &Polled, others: &Polled) -> bool {
    keys.iter().all(|key| others.contains(key))
}

fn is_same_scan(scan: &Option<Polled>, other: &Option<Polled>) -> bool {
    match (scan, other) {
        (Some(keys), Some(others)) => is_within(keys, others) && is_within(others, keys),
        (None, None) => true,
        _ => false,
    }
}

/// Whether both hold the same mirror, the same scan, the same vens, resources, shares, reports and subscriptions, and the
/// same serial.
fn is_same_base(base: &Base, other: &Base) -> bool {
    is_same_mirror(&base.mirror, &other.mirror)
        && is_same_scan(&base.scan, &other.scan)
        && is_same_portfolio(base, other)
}

fn are_same_stamps(stamps: &Table<ViewKey, Stamps>, others: &Table<ViewKey, Stamps>) -> bool {
    stamps.len() == others.len()
        && stamps
            .iter()
            .all(|(key, stamps)| others.get(key) == Some(stamps))
}

/// Whether both hold the same base, the same stamps of what is shown, and the same outbox.
fn is_same(state: &State, other: &State) -> bool {
    is_same_base(&state.base, &other.base)
        && are_same_stamps(&state.stamps, &other.stamps)
        && is_same_outbox(&state.outbox, &other.outbox)
}

/// Whether a desk holds the state of an image.
pub fn holds<D: Desk>(desk: &mut D, image: &Image) -> Result<bool, Refusal> {
    let other = desk.image()?;
    Ok(is_same(image.state(), other.state()))
}
