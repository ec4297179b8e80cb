//! What a report touches that is put or goes.
ghost use Rattle.std.specs.Prelude.{◌≡◌, ◌++◌, option_to_list, option_and_then, IfOk, IfErr};
ghost use Rattle.std.specs.Option.{option_copied};
ghost use Rattle.adr_sql.specs.Calls.{LeavesLent};
ghost use Rattle.adr_state.specs.Keys.{id_cmp};
ghost use Rattle.adr_db.specs.BaseCalls.{FindsOn};
ghost use Rattle.adr_db.specs.Calls.{IsOfStore};
ghost use Rattle.adr_kept_view.specs.declared.object.ObjectKey.TheVariants as object;
ghost use Rattle.adr_touched.specs.Touched.{StoodAt, event_of, set_of, CoversReport};

use crate::ordered::in_order;
use crate::stood::object_at;
use crate::touched::Touched;
use adr_kept_view::{ObjectKey, OldObject};
use adr_objects::Number;
use adr_state::push_some;
use adr_text::{ObjectId, Refusal, Rows};
use adr_view::Content;
use sqlite::{Alter, Transaction};
use std::alloc::{AllocError, Global};

/// What stands at the key of a report.
pub fn stood_report<S: Alter>(
    alloc: Global,
    tx: &mut Transaction<'_, S>,
    report: Number,
) -> Result<OldObject, Refusal>
    ensures lent { LeavesLent S.Store tx.old.conn tx.new.conn result }
    ensures finds { FindsOn S.Store tx.old.conn.now tx.new.conn.now (StoodAt (object.Report report)) result }
    ensures refused { IfErr result IsOfStore }
{
    object_at(alloc, tx, ObjectKey::Report(report))
}

// The event that a report is on, by what is shown of it.
fn event_of(alloc: Global, content: &Option<Content>) -> Result<Option<ObjectId>, AllocError>
    ensures { IfOk result (λ event. event ≡ option_and_then event_of content.now) }
{
    match content {
        Some(Content::Report(body)) => Ok(Some(body.head.event.copy(alloc)?)),
        _ => Ok(None),
    }
}

// The same id again, where there is one.
fn copy(alloc: Global, id: Option<&ObjectId>) -> Result<Option<ObjectId>, AllocError>
    ensures { IfOk result (λ copy. copy ≡ option_copied id.entry) }
{
    match id {
        Some(id) => Ok(Some(id.copy(alloc)?)),
        None => Ok(None),
    }
}

// The events, where there are some, in order, each once.
fn events_of(
    alloc: Global,
    old: Option<ObjectId>,
    new: Option<ObjectId>,
) -> Result<Rows<ObjectId>, AllocError>
    ensures { IfOk result (λ events. events ≡ set_of id_cmp (option_to_list old ++ option_to_list new)) }
{
    let mut events = Vec::new(alloc);
    push_some(&mut events, old)?;
    push_some(&mut events, new)?;
    in_order(alloc, Rows::from_vec(events))
}

// The roll-ups of the event of a report that stood there, and of the one that is put.
fn rollups_of(
    alloc: Global,
    old: &OldObject,
    event: Option<&ObjectId>,
) -> Result<Rows<ObjectId>, AllocError>
    ensures { IfOk result (λ rollups. rollups ≡ set_of id_cmp (option_to_list (option_and_then event_of old.now.content) ++ option_to_list (option_copied event.entry))) }
{
    let before = event_of(alloc, &old.content)?;
    let after = copy(alloc, event)?;
    events_of(alloc, before, after)
}

/// What a report touches of which this stood at its key: itself, and the roll-ups of the event that it was on, and of the
/// one that it is on where it is put.
pub fn touched_by_report(
    alloc: Global,
    old: OldObject,
    event: Option<&ObjectId>,
) -> Result<Touched, AllocError>
    ensures { IfOk result (CoversReport old (option_copied event.entry)) }
{
    let rollups = rollups_of(alloc, &old, event)?;
    let mut reports = Rows::new(alloc);
    reports.push(old)?;
    Ok(Touched {
        programs: Rows::new(alloc),
        events: Rows::new(alloc),
        reports,
        rollups,
    })
}
