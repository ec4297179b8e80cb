//! Tables that keep nothing are visited, event by event and then roll-up by roll-up, in a transaction that is dropped then:
//! each shown event and each roll-up is told by one entry, and kept again.
ghost use Rattle.std.specs.Prelude.{◌≡◌, ◌∷◌, [], IfOk};
ghost use Rattle.adr_delivery.specs.declared.addressee.Addressee.TheVariants.{Utility};
ghost use Rattle.adr_delivery.specs.Entries.{fresh};
ghost use Rattle.adr_subscription.specs.declared.words.OperationKind.TheVariants.{Post};
ghost use Rattle.upkeep_rows.specs.Told.{told_once};

use crate::compared::{differs_kept, is_kept};
use crate::held::Held;
use crate::pages::event_text;
use adr_db::read_meta;
use adr_db_shown::{read_rollup, read_shown_of, remove_rollup, remove_shown};
use adr_db_state::remove_stamps;
use adr_delivery::{Addressee, Entry};
use adr_kept_view::{RollupChange, ShownChange};
use adr_listeners::Hearers;
use adr_objects::Number;
use adr_state::{Limits, ViewKey};
use adr_subscription::{FreeText, OperationKind, Sub};
use adr_text::{Moment, ObjectId, Refusal, Table};
use adr_visit::{Tells, Visit, visit_events, visit_rollups};
use sqlite::{Alter, Transaction};
use std::alloc::{AllocError, Global};

/// Tells each change of an event by one entry to the utility.
struct Once;

// The one entry.
fn entry_once(alloc: Global, event: &ObjectId) -> Result<Vec<Entry>, AllocError>
    ensures { IfOk result (λ entries. entries.items ≡ fresh (Utility event.now) Post [] ∷ []) }
{
    let entry = Entry::new(
        Addressee::Utility(event.copy(alloc)?),
        OperationKind::Post,
        FreeText::new(alloc, "")?,
    );
    Ok(vec![in alloc; entry]?)
}

impl Tells<ObjectId, ShownChange> for Once {
    ghost told = { told_once };

    fn hearers(&self, _change: &ShownChange) -> Hearers {
        Hearers::Nobody
    }

    fn entries(
        &self,
        alloc: Global,
        _subs: &Table<Number, Sub>,
        event: &ObjectId,
        _change: &ShownChange,
    ) -> Result<Vec<Entry>, AllocError> {
        entry_once(alloc, event)
    }
}

impl Tells<ObjectId, RollupChange> for Once {
    ghost told = { told_once };

    fn hearers(&self, _change: &RollupChange) -> Hearers {
        Hearers::Nobody
    }

    fn entries(
        &self,
        alloc: Global,
        _subs: &Table<Number, Sub>,
        event: &ObjectId,
        _change: &RollupChange,
    ) -> Result<Vec<Entry>, AllocError> {
        entry_once(alloc, event)
    }
}

// What is kept of an event and of its roll-up goes, with the stamps.
fn forget<S: Alter>(
    alloc: Global,
    tx: &mut Transaction<'_, S>,
    event: &ObjectId,
) -> Result<(), Refusal> {
    if read_rollup(alloc, tx, event)?.is_some() {
        remove_rollup(tx, event)?;
        remove_stamps(tx, &ViewKey::Rollup(event.copy(alloc)?))?;
    }
    for row in read_shown_of(alloc, tx, event)?.into_vec() {
        let (key, _) = row;
        remove_shown(tx, &key)?;
        remove_stamps(tx, &ViewKey::Event(key.event.copy(alloc)?, key.resource))?;
    }
    Ok(())
}

fn events_of(alloc: Global, count: u64) -> Result<Vec<ObjectId>, Refusal> {
    let mut events = Vec::new(alloc);
    for number in 0..count {
        let text = event_text(alloc, number)?;
        events.push(ObjectId::new(alloc, text.as_str())?)?;
    }
    Ok(events)
}

// How many events are shown, each to each of its resources, and how many roll-ups there are.
fn kept_count(held: &Held) -> u64 {
    held.view.iter().filter(|(key, _)| is_kept(key)).count() as u64
}

// Whether what is kept of each of them is what is shown.
fn are_kept<S: Alter>(
    alloc: Global,
    tx: &mut Transaction<'_, S>,
    held: &Held,
    events: &[ObjectId],
) -> Result<bool, Refusal> {
    for event in events {
        if differs_kept(alloc, tx, held, event)?.is_some() {
            return Ok(false);
        }
    }
    Ok(true)
}

/// Visits the events of those numbers, and answers whether each that is shown, and each roll-up, is told once and kept.
pub fn visit_all<S: Alter>(
    alloc: Global,
    tx: &mut Transaction<'_, S>,
    held: &Held,
    limits: &Limits,
    count: u64,
    now: Moment,
) -> Result<bool, Refusal> {
    let events = events_of(alloc, count)?;
    for event in &events {
        forget(alloc, tx, event)?;
    }
    let mut meta = read_meta(tx)?;
    let before = meta.pending;
    let mut visit = Visit::new(alloc, limits, &meta);
    visit_events(
        alloc, tx, &Once, limits, &mut meta, &mut visit, &events, now,
    )?;
    visit_rollups(
        alloc, tx, &Once, limits, &mut meta, &mut visit, &events, now,
    )?;
    visit.close()?;
    let told = meta.pending.wrapping_sub(before);
    let is_counted = told == visit.changes() && told == kept_count(held);
    Ok(is_counted && are_kept(alloc, tx, held, &events)?)
}
