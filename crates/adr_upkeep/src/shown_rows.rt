//! What is shown of an upstream event, row by row, of whose program those who share may be known.
ghost use Rattle.std.specs.Prelude.{◌≡◌, IfErr};
ghost use Rattle.adr_sql.specs.Calls.{LeavesLent};
ghost use Rattle.adr_db.specs.Calls.{IsOfStore};
ghost use Rattle.adr_db.specs.BaseCalls.{FindsOn};
ghost use Rattle.adr_view.specs.Views.{event_rows, shown_of};
ghost use Rattle.adr_upkeep.specs.Sharing.{FindsSharing};
ghost use Rattle.adr_upkeep.specs.Shown.{IsShown};

use adr_db_mirror::read_known;
use adr_db_portfolio::Sharers;
use adr_objects::EventBody;
use adr_state::ViewKey;
use adr_text::{ObjectId, Refusal, Rows};
use adr_view::{Content, carries, event_body, event_key, rows_for};
use sqlite::{Alter, Transaction};
use std::alloc::Global;

// What is shown of an event whose body was read.
fn event_rows<S: Alter>(
    alloc: Global,
    tx: &mut Transaction<'_, S>,
    sharers: &mut Sharers,
    id: &ObjectId,
    event: &EventBody,
) -> Result<Rows<(ViewKey, Content)>, Refusal>
    ensures lent { LeavesLent S.Store tx.old.conn tx.new.conn result }
    ensures finds { FindsSharing S.Store tx.old.conn.now tx.new.conn.now sharers.old sharers.new (λ base rows. rows ≡ event_rows base id.now event.now) result }
    ensures refused { IfErr result IsOfStore }
{
    if !carries(event) {
        return Ok(Rows::new(alloc));
    }
    let ps = sharers.participants(alloc, tx, id, event)?;
    Ok(rows_for(alloc, id, event, ps.as_slice())?)
}

/// What is shown of an upstream event: for each of its participants, in the order of their numbers, its key with its
/// content. Those who share in its program are read unless they are known.
pub(crate) fn shown_by<S: Alter>(
    alloc: Global,
    tx: &mut Transaction<'_, S>,
    sharers: &mut Sharers,
    event: &ObjectId,
) -> Result<Rows<(ViewKey, Content)>, Refusal>
    ensures lent { LeavesLent S.Store tx.old.conn tx.new.conn result }
    ensures finds { FindsSharing S.Store tx.old.conn.now tx.new.conn.now sharers.old sharers.new (λ base rows. rows ≡ shown_of base event.now) result }
    ensures refused { IfErr result IsOfStore }
{
    let key = event_key(event)?;
    let known = read_known(alloc, tx, &key)?;
    match event_body(known.as_ref()) {
        Some(body) => event_rows(alloc, tx, sharers, event, body),
        None => Ok(Rows::new(alloc)),
    }
}

/// What is shown of an upstream event: for each of its participants, in the order of their numbers, its key
/// with its content; nothing where the event is not live, has no event body that was read, carries no
/// setpoint, or has no participant. It costs a look-up of a resource and a ven for each share in the event's
/// program, or for each that is kept for the event where it is frozen.
pub fn shown<S: Alter>(
    alloc: Global,
    tx: &mut Transaction<'_, S>,
    event: &ObjectId,
) -> Result<Rows<(ViewKey, Content)>, Refusal>
    ensures lent { LeavesLent S.Store tx.old.conn tx.new.conn result }
    ensures finds { FindsOn S.Store tx.old.conn.now tx.new.conn.now (IsShown event.now) result }
    ensures refused { IfErr result IsOfStore }
{
    let mut sharers = Sharers::none(alloc);
    shown_by(alloc, tx, &mut sharers, event)
}
