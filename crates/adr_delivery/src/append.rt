//! Entries are dropped with their subscription, and further ones are appended.
ghost use Rattle.std.specs.Prelude.{◌≡◌, ◌≤◌, length, filter, OnOk};
ghost use Rattle.adr_delivery.specs.Outboxes.{has_addressee, kept_for, with_entries, check_room, appended};

use crate::entry::Entry;
use crate::outbox::Outbox;
use adr_objects::Number;
use adr_text::{Refusal, Rows, Table};
use std::alloc::AllocError;

/// Whether it goes to the utility, or to one of the subscriptions that are there.
fn has_addressee<S: Drop>(subscriptions: &Table<Number, S>, number: Number, entry: &Entry) -> bool
    ensures { result ≡ has_addressee subscriptions.now (number, entry.now) }
{
    let destination = entry.addressee.destination();
    destination.get() == 0 || subscriptions.get(&destination).is_some()
}

/// Refuses so many further entries where numbers are wanting for them (`Exhausted`), and then where they would be more
/// than may wait (`OutboxFull`). For none there is always room. `last` is the last number that was drawn, `most` the
/// largest that may be.
pub fn check_room(
    most: u64,
    pending: u64,
    last: u64,
    waiting: usize,
    further: usize,
) -> Result<(), Refusal>
    ensures { result ≡ check_room most pending last waiting further }
{
    if further == 0 {
        return Ok(());
    }
    if most < last || most - last < further as u64 {
        return Err(Refusal::Exhausted);
    }
    let waiting = waiting as u64;
    if pending < waiting || pending - waiting < further as u64 {
        return Err(Refusal::OutboxFull);
    }
    Ok(())
}

/// Keeps the entries of subscriptions that are there, and those for the utility.
fn keep_addressed<S: Drop>(waiting: &mut Table<Number, Entry>, subscriptions: &Table<Number, S>)
    ensures kept { waiting.new ≡ filter (has_addressee subscriptions.now) waiting.old }
    ensures fewer { length waiting.new ≤ length waiting.old }
{
    waiting.retain(|number, entry| has_addressee(subscriptions, *number, entry));
}

impl Outbox {
    /// Drops the entries of subscriptions that are not there.
    pub fn keep_for<S: Drop>(&mut self, subscriptions: &Table<Number, S>)
        ensures { self.new ≡ kept_for subscriptions.now self.old }
    {
        let before = self.entries.len();
        keep_addressed(&mut self.entries, subscriptions);
        let gone = before - self.entries.len();
        self.counts.dropped = self.counts.dropped.plus(gone as u64);
    }

    /// Appends entries, each under its number. Where memory runs out the outbox is left anyhow.
    pub fn append(&mut self, entries: Rows<(Number, Entry)>) -> Result<(), AllocError>
        ensures { OnOk result (self.new ≡ appended entries self.old) }
    {
        self.counts.made = self.counts.made.plus(entries.len() as u64);
        put_each(&mut self.entries, entries.into_vec())
    }
}

/// Puts each entry at its number.
fn put_each(
    waiting: &mut Table<Number, Entry>,
    entries: Vec<(Number, Entry)>,
) -> Result<(), AllocError>
    ensures { OnOk result (waiting.new ≡ with_entries entries.items waiting.old) }
{
    for (number, entry) in entries {
        waiting.put(number, entry)?;
    }
    Ok(())
}
