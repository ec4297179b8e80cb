//! What is touched is refreshed, and what is told of it.
use crate::held::Held;
use crate::objects::{ObjectsTold, refresh_programs, refresh_reports};
use crate::touched::Touched;
use adr_db_portfolio::Sharers;
use adr_kept_view::{RollupChange, ShownChange};
use adr_state::ViewKey;
use adr_text::{Moment, ObjectId, Refusal, Rows};
use adr_upkeep::{refresh, refresh_rollup, refresh_rollup_sharing, refresh_sharing};
use adr_view::Change;
use sqlite::{Alter, Transaction};
use std::alloc::{AllocError, Global};
use std::collections::BTreeSet;

/// What is told of programs, of upstream events, of reports and of roll-ups, of events and roll-ups behind the id of the
/// event.
#[derive(Drop)]
pub struct Told {
    pub programs: ObjectsTold,
    pub shown: Vec<(ObjectId, ShownChange)>,
    pub reports: ObjectsTold,
    pub rollups: Vec<(ObjectId, RollupChange)>,
}

fn note_changes(
    alloc: Global,
    told: &mut Vec<(ObjectId, ShownChange)>,
    event: &ObjectId,
    changes: Rows<ShownChange>,
) -> Result<(), AllocError> {
    for change in changes.into_vec() {
        told.push((event.copy(alloc)?, change))?;
    }
    Ok(())
}

// What is shown of an event: one that is touched alone is refreshed for itself.
fn refresh_event<S: Alter>(
    alloc: Global,
    tx: &mut Transaction<'_, S>,
    sharers: &mut Sharers,
    event: &ObjectId,
    is_alone: bool,
    now: Moment,
) -> Result<Rows<ShownChange>, Refusal> {
    if is_alone {
        refresh(alloc, tx, event, now)
    } else {
        refresh_sharing(alloc, tx, sharers, event, now)
    }
}

// What is shown of each event is refreshed, in the order of their ids.
fn refresh_events<S: Alter>(
    alloc: Global,
    tx: &mut Transaction<'_, S>,
    events: &BTreeSet<ObjectId>,
    now: Moment,
) -> Result<Vec<(ObjectId, ShownChange)>, Refusal> {
    let mut told = Vec::new(alloc);
    let mut sharers = Sharers::none(alloc);
    let is_alone = events.len() == 1;
    for event in events {
        let changes = refresh_event(alloc, tx, &mut sharers, event, is_alone, now)?;
        note_changes(alloc, &mut told, event, changes)?;
    }
    Ok(told)
}

// The roll-up of an event, in the same way.
fn refresh_one_rollup<S: Alter>(
    alloc: Global,
    tx: &mut Transaction<'_, S>,
    sharers: &mut Sharers,
    event: &ObjectId,
    is_alone: bool,
    now: Moment,
) -> Result<Option<RollupChange>, Refusal> {
    if is_alone {
        refresh_rollup(alloc, tx, event, now)
    } else {
        refresh_rollup_sharing(alloc, tx, sharers, event, now)
    }
}

fn refresh_rollups<S: Alter>(
    alloc: Global,
    tx: &mut Transaction<'_, S>,
    events: &BTreeSet<ObjectId>,
    now: Moment,
) -> Result<Vec<(ObjectId, RollupChange)>, Refusal> {
    let mut told = Vec::new(alloc);
    let mut sharers = Sharers::none(alloc);
    let is_alone = events.len() == 1;
    for event in events {
        let change = refresh_one_rollup(alloc, tx, &mut sharers, event, is_alone, now)?;
        if let Some(change) = change {
            told.push((event.copy(alloc)?, change))?;
        }
    }
    Ok(told)
}

/// Refreshes the programs that are touched, what is kept of the events, the reports, and then the roll-ups of the events.
pub fn refresh_touched<S: Alter>(
    alloc: Global,
    tx: &mut Transaction<'_, S>,
    before: &Held,
    touched: &Touched,
    now: Moment,
) -> Result<Told, Refusal> {
    let programs = refresh_programs(alloc, tx, before, &touched.programs, now)?;
    let shown = refresh_events(alloc, tx, &touched.events, now)?;
    let reports = refresh_reports(alloc, tx, before, &touched.reports, now)?;
    let rollups = refresh_rollups(alloc, tx, &touched.events, now)?;
    Ok(Told {
        programs,
        shown,
        reports,
        rollups,
    })
}

// The changes at keys of their own.
fn add_objects(changes: &mut Vec<Change>, told: &ObjectsTold) -> Result<(), AllocError> {
    for (key, change) in told {
        changes.push(Change {
            key: key.clone()?,
            operation: change.operation,
        })?;
    }
    Ok(())
}

impl Told {
    /// The changes that are told, as changes of the view.
    pub fn changes(&self, alloc: Global) -> Result<Vec<Change>, AllocError> {
        let mut changes = Vec::new(alloc);
        add_objects(&mut changes, &self.programs)?;
        for (event, change) in &self.shown {
            changes.push(Change {
                key: ViewKey::Event(event.copy(alloc)?, change.resource),
                operation: change.operation,
            })?;
        }
        add_objects(&mut changes, &self.reports)?;
        for (event, change) in &self.rollups {
            changes.push(Change {
                key: ViewKey::Rollup(event.copy(alloc)?),
                operation: change.operation,
            })?;
        }
        Ok(changes)
    }
}
