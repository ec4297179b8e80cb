//! The outbox: the entries that wait, what the utility was sent, and how many entries there were.
ghost use Rattle.std.specs.Prelude.{◌≡◌, IfOk};
ghost use Rattle.std.specs.Option.{option_copied};
ghost use Rattle.adr_delivery.specs.Counts.{no_counts};
ghost use Rattle.adr_delivery.specs.Outboxes.{no_entries, counts_of, remote_for};

use crate::addressee::Addressee;
use crate::entry::Entry;
use crate::tally::Tally;
use adr_objects::{Number, OutboxCounts};
use adr_text::{ObjectId, Table};
use std::alloc::{AllocError, Global};

/// How many entries were made from the first on, and of how many of them each thing came.
#[derive(Clone, Copy, PartialEq, Eq)]
pub struct EntryCounts {
    pub made: Tally,
    pub sent: Tally,
    pub given_up: Tally,
    /// Those that went with their subscription.
    pub dropped: Tally,
}

impl EntryCounts {
    /// Those before the first entry.
    pub fn none() -> EntryCounts
        ensures { result ≡ no_counts }
    {
        EntryCounts {
            made: Tally::zero(),
            sent: Tally::zero(),
            given_up: Tally::zero(),
            dropped: Tally::zero(),
        }
    }
}

/// The entries that wait, by their numbers; the utility's ids of the reports that it was sent, by their upstream events;
/// and how many entries there were.
#[derive(Clone)]
pub struct Outbox {
    pub entries: Table<Number, Entry>,
    pub remotes: Table<ObjectId, ObjectId>,
    pub counts: EntryCounts,
}

impl Drop for Outbox {
    fn drop(self) {
        let Outbox {
            entries: _,
            remotes: _,
            counts: _,
        } = self;
    }
}

impl Outbox {
    /// No entries yet.
    pub fn new(alloc: Global) -> Outbox
        ensures { result ≡ no_entries }
    {
        Outbox {
            entries: Table::new(alloc),
            remotes: Table::new(alloc),
            counts: EntryCounts::none(),
        }
    }

    /// The same outbox again.
    pub fn copy(&self) -> Result<Outbox, AllocError>
        ensures { IfOk result (λ outbox. outbox ≡ self.now) }
    {
        self.clone()
    }

    /// The utility's id of the report that tells of the same event, where it was sent one.
    pub fn remote(&self, addressee: &Addressee) -> Option<&ObjectId>
        ensures { option_copied result ≡ remote_for addressee.now self.now }
    {
        self.remotes.get(addressee.event()?)
    }

    /// How many entries were made, sent, given up and dropped, and how many wait.
    pub fn counts(&self) -> OutboxCounts
        ensures { result ≡ counts_of self.now }
    {
        OutboxCounts {
            made: self.counts.made.get(),
            sent: self.counts.sent.get(),
            given_up: self.counts.given_up.get(),
            dropped: self.counts.dropped.get(),
            pending: self.entries.len() as u64,
        }
    }
}
