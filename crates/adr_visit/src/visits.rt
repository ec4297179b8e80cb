//! The visit.
ghost use Rattle.std.specs.Prelude.{IfErr};
ghost use Rattle.adr_sql.specs.Calls.{LeavesLent};
ghost use Rattle.adr_db.specs.Calls.{IsOfStore};
ghost use Rattle.adr_kept_view.specs.Objects.{as_object};
ghost use Rattle.adr_kept_view.specs.Refreshed.{as_shown, as_rolled_up};
ghost use Rattle.adr_visit.specs.Visits.{TellsAll, VisitsOne, VisitsEach};

use crate::heard::read_for;
use crate::kept_up::{AsObject, AsRolledUp, AsShown, KeptUp};
use crate::tells::{Tells, entries_of};
use crate::visit::{Visit, with_more};
use adr_db::Meta;
use adr_kept_view::{ObjectChange, OldObject, RollupChange, ShownChange};
use adr_state::Limits;
use adr_text::{Moment, ObjectId, Refusal};
use sqlite::{Alter, Transaction};
use std::alloc::Global;

// The changes of an item are told to the subscriptions that may hear of them, and counted.
fn tell<S: Alter, I, C, T: Tells<I, C>>(
    alloc: Global,
    tx: &mut Transaction<'_, S>,
    teller: &T,
    limits: &Limits,
    meta: &mut Meta,
    visit: &mut Visit,
    item: &I,
    changes: &[C],
) -> Result<(), Refusal>
    ensures lent { LeavesLent S.Store tx.old.conn tx.new.conn result }
    ensures tells { TellsAll S.Store tx.old.conn.now tx.new.conn.now (T.told teller.now) limits.now item.now changes.now visit.old visit.new meta.old meta.new result }
    ensures refused { IfErr result IsOfStore }
{
    visit.many = with_more(visit.many, changes.len())?;
    read_for(alloc, tx, teller, &mut visit.listeners, changes)?;
    let entries = entries_of(alloc, teller, &visit.listeners.subs, item, changes)?;
    visit.room.add(alloc, tx, limits, meta, &entries)
}

// One item is refreshed, and its changes are told and let go. Where there is none, nothing else is read.
fn visit_one<S: Alter, I, C: Drop, P: KeptUp<I, C>, T: Tells<I, C>>(
    alloc: Global,
    tx: &mut Transaction<'_, S>,
    teller: &T,
    limits: &Limits,
    meta: &mut Meta,
    visit: &mut Visit,
    item: &I,
    now: Moment,
) -> Result<(), Refusal>
    ensures lent { LeavesLent S.Store tx.old.conn tx.new.conn result }
    ensures visits { VisitsOne S.Store tx.old.conn.now tx.new.conn.now P.part (T.told teller.now) limits.now item.now now visit.old visit.new meta.old meta.new result }
    ensures refused { IfErr result IsOfStore }
{
    let changes = P::refresh(alloc, tx, &mut visit.sharers, item, now)?;
    if changes.is_empty() {
        return Ok(());
    }
    tell(
        alloc,
        tx,
        teller,
        limits,
        meta,
        visit,
        item,
        changes.as_slice(),
    )
}

// So is each of them, one after another.
fn visit_each<S: Alter, I, C: Drop, P: KeptUp<I, C>, T: Tells<I, C>>(
    alloc: Global,
    tx: &mut Transaction<'_, S>,
    teller: &T,
    limits: &Limits,
    meta: &mut Meta,
    visit: &mut Visit,
    items: &[I],
    now: Moment,
) -> Result<(), Refusal>
    ensures lent { LeavesLent S.Store tx.old.conn tx.new.conn result }
    ensures visits { VisitsEach S.Store tx.old.conn.now tx.new.conn.now P.part (T.told teller.now) limits.now items.now now visit.old visit.new meta.old meta.new result }
    ensures refused { IfErr result IsOfStore }
{
    'items: for item in items {
        visit_one::<S, I, C, P, T>(alloc, tx, teller, limits, meta, visit, item, now)?;
    }
    Ok(())
}

/// Refreshes what tables keep of upstream events, one after another, and tells the changes of each before the next: so at
/// most one event's rows are held. The entries are appended while there are numbers and room for all that came, and are
/// only counted behind the first that lacks one, so that in the end the visit knows which is wanting. The numbers of the
/// node are handed in, and are left as the caller has to put them.
pub fn visit_events<S: Alter, T: Tells<ObjectId, ShownChange>>(
    alloc: Global,
    tx: &mut Transaction<'_, S>,
    teller: &T,
    limits: &Limits,
    meta: &mut Meta,
    visit: &mut Visit,
    events: &[ObjectId],
    now: Moment,
) -> Result<(), Refusal>
    ensures lent { LeavesLent S.Store tx.old.conn tx.new.conn result }
    ensures visits { VisitsEach S.Store tx.old.conn.now tx.new.conn.now as_shown (T.told teller.now) limits.now events.now now visit.old visit.new meta.old meta.new result }
    ensures refused { IfErr result IsOfStore }
{
    visit_each::<S, ObjectId, ShownChange, AsShown, T>(
        alloc, tx, teller, limits, meta, visit, events, now,
    )
}

/// The same of the roll-ups of upstream events.
pub fn visit_rollups<S: Alter, T: Tells<ObjectId, RollupChange>>(
    alloc: Global,
    tx: &mut Transaction<'_, S>,
    teller: &T,
    limits: &Limits,
    meta: &mut Meta,
    visit: &mut Visit,
    events: &[ObjectId],
    now: Moment,
) -> Result<(), Refusal>
    ensures lent { LeavesLent S.Store tx.old.conn tx.new.conn result }
    ensures visits { VisitsEach S.Store tx.old.conn.now tx.new.conn.now as_rolled_up (T.told teller.now) limits.now events.now now visit.old visit.new meta.old meta.new result }
    ensures refused { IfErr result IsOfStore }
{
    visit_each::<S, ObjectId, RollupChange, AsRolledUp, T>(
        alloc, tx, teller, limits, meta, visit, events, now,
    )
}

/// The same of programs and reports, of which what stood there before a command is handed in.
pub fn visit_objects<S: Alter, T: Tells<OldObject, ObjectChange>>(
    alloc: Global,
    tx: &mut Transaction<'_, S>,
    teller: &T,
    limits: &Limits,
    meta: &mut Meta,
    visit: &mut Visit,
    objects: &[OldObject],
    now: Moment,
) -> Result<(), Refusal>
    ensures lent { LeavesLent S.Store tx.old.conn tx.new.conn result }
    ensures visits { VisitsEach S.Store tx.old.conn.now tx.new.conn.now as_object (T.told teller.now) limits.now objects.now now visit.old visit.new meta.old meta.new result }
    ensures refused { IfErr result IsOfStore }
{
    visit_each::<S, OldObject, ObjectChange, AsObject, T>(
        alloc, tx, teller, limits, meta, visit, objects, now,
    )
}
