//! One shown event, by its id.
ghost use Rattle.std.specs.Prelude.{◌≡◌, [], ◌∷◌, IfErr};
ghost use Rattle.adr_text.specs.declared.refusal.Refusal.TheVariants.{Forbidden, NotFound};
ghost use Rattle.adr_state.specs.ShownIds.{resource_named};
ghost use Rattle.adr_sql.specs.Calls.{LeavesLent};
ghost use Rattle.adr_db.specs.Calls.{Finds, IsOfStore, IsOneOf};
ghost use Rattle.adr_db.specs.BaseCalls.{Refuses};
ghost use Rattle.adr_reports.specs.Decided.{FindsOr};
ghost use Rattle.adr_pages.specs.Objects.{event_shown, event_told, event_kept};

use crate::objects::event_at;
use adr_db::ShownKey;
use adr_objects::Number;
use adr_queries::{Answer, Object, told};
use adr_reports::resource_named;
use adr_state::{id_in, id_parts};
use adr_text::{ObjectId, Refusal};
use adr_view::{Sight, sees_ven};
use sqlite::{Alter, Transaction};
use std::alloc::Global;

// What a resource is shown of the event that this text names.
fn event_shown<S: Alter>(
    alloc: Global,
    tx: &mut Transaction<'_, S>,
    resource: Number,
    text: &str,
) -> Result<Option<Object>, Refusal>
    ensures lent { LeavesLent S.Store tx.old.conn tx.new.conn result }
    ensures finds { Finds S.Store tx.old.conn.now tx.new.conn.now (λ kept found. found ≡ event_shown kept resource text.now) result }
    ensures refused { IfErr result IsOfStore }
{
    match id_in(alloc, text)? {
        Some(event) => event_at(alloc, tx, ShownKey { event, resource }),
        None => Ok(None),
    }
}

// What is told of an event, by the two parts of its id.
fn event_told<S: Alter>(
    alloc: Global,
    tx: &mut Transaction<'_, S>,
    sight: Sight,
    resource: &str,
    event: &str,
) -> Result<Answer, Refusal>
    ensures lent { LeavesLent S.Store tx.old.conn tx.new.conn result }
    ensures finds { FindsOr S.Store tx.old.conn.now tx.new.conn.now (λ kept. event_told kept sight event.now (resource_named kept.portfolio resource.now)) result }
    ensures refuses { Refuses S.Store tx.old.conn.now tx.new.conn.now (λ kept. event_told kept sight event.now (resource_named kept.portfolio resource.now)) result }
    ensures refused { IfErr result (IsOneOf (Forbidden ∷ NotFound ∷ [])) }
{
    let Some((number, resource)) = resource_named(alloc, tx, resource)? else {
        return Err(Refusal::NotFound);
    };
    if !sees_ven(sight, resource.ven) {
        return Err(Refusal::Forbidden);
    }
    told(event_shown(alloc, tx, number, event)?)
}

/// The event of an id, which names a resource before its first `-` and the utility's event behind it, for who sees this much:
/// `Forbidden` where the resource is out of sight, and `NotFound` where no such event is shown. Its row is read by its key, and
/// nothing else of what is shown.
pub fn event<S: Alter>(
    alloc: Global,
    tx: &mut Transaction<'_, S>,
    sight: Sight,
    id: &ObjectId,
) -> Result<Answer, Refusal>
    ensures lent { LeavesLent S.Store tx.old.conn tx.new.conn result }
    ensures finds { FindsOr S.Store tx.old.conn.now tx.new.conn.now (λ kept. event_kept kept sight id.now) result }
    ensures refuses { Refuses S.Store tx.old.conn.now tx.new.conn.now (λ kept. event_kept kept sight id.now) result }
    ensures refused { IfErr result (IsOneOf (Forbidden ∷ NotFound ∷ [])) }
{
    match id_parts(id) {
        (resource, Some(event)) => event_told(alloc, tx, sight, resource, event),
        (_, None) => Err(Refusal::NotFound),
    }
}
