//! The roll-up of an upstream event, of whose program those who share may be known.
ghost use Rattle.std.specs.Prelude.{◌≡◌, map, IfOk, IfErr};
ghost use Rattle.adr_sql.specs.Calls.{LeavesLent};
ghost use Rattle.adr_db.specs.Calls.{Finds, IsOfStore};
ghost use Rattle.adr_db_portfolio.specs.KnownSharers.{FindsOf};
ghost use Rattle.adr_view.specs.Rollups.{rollup_of, rollup_at};

use adr_db_mirror::read_known;
use adr_db_portfolio::{Sharers, read_reports_of};
use adr_objects::{EventBody, Number, Rollup};
use adr_state::Report;
use adr_text::{ObjectId, Refusal, Rows};
use adr_view::{event_body, event_key, reporters, rollup_for};
use sqlite::{Alter, Transaction};
use std::alloc::{AllocError, Global};

// Reports without their numbers.
fn without_numbers(alloc: Global, rows: Rows<(Number, Report)>) -> Result<Vec<Report>, AllocError>
    ensures { IfOk result (λ reports. reports.items ≡ map (λ r. r.1) rows) }
{
    let mut reports = Vec::new(alloc);
    'rows: for row in rows.into_vec() {
        reports.push(row.1)?;
    }
    Ok(reports)
}

// The roll-up of an event whose body was read.
fn event_rollup<S: Alter>(
    alloc: Global,
    tx: &mut Transaction<'_, S>,
    sharers: &mut Sharers,
    id: &ObjectId,
    event: &EventBody,
) -> Result<Option<Rollup>, Refusal>
    ensures lent { LeavesLent S.Store tx.old.conn tx.new.conn result }
    ensures finds { FindsOf S.Store tx.old.conn.now tx.new.conn.now sharers.old sharers.new (λ kept rollup. rollup ≡ rollup_of kept.portfolio id.now event.now) result }
    ensures refused { IfErr result IsOfStore }
{
    let ps = sharers.participants(alloc, tx, id, event)?;
    let rows = read_reports_of(alloc, tx, id)?;
    let reports = without_numbers(alloc, rows)?;
    let rs = reporters(alloc, &reports, ps.as_slice())?;
    Ok(rollup_for(alloc, event, &rs)?)
}

/// The roll-up of an upstream event over its participants. Those who share in its program are read unless they are known.
pub(crate) fn rollup_by<S: Alter>(
    alloc: Global,
    tx: &mut Transaction<'_, S>,
    sharers: &mut Sharers,
    event: &ObjectId,
) -> Result<Option<Rollup>, Refusal>
    ensures lent { LeavesLent S.Store tx.old.conn tx.new.conn result }
    ensures finds { FindsOf S.Store tx.old.conn.now tx.new.conn.now sharers.old sharers.new (λ kept rollup. rollup ≡ rollup_at kept.mirror kept.portfolio event.now) result }
    ensures refused { IfErr result IsOfStore }
{
    let key = event_key(event)?;
    let known = read_known(alloc, tx, &key)?;
    match event_body(known.as_ref()) {
        Some(body) => event_rollup(alloc, tx, sharers, event, body),
        None => Ok(None),
    }
}

/// The roll-up of an upstream event over its participants: for each interval that carries a setpoint the
/// sum of the latest values, in the utility's unit, and the names of those that have none. There is one
/// where the event is live, its body was read, and a participant has a value in such an interval. It costs
/// a look-up of a resource and a ven for each share in the event's program, or for each that is kept for
/// the event where it is frozen, and one of its intervals for each report on the event; no report on
/// another event is read.
pub fn rollup<S: Alter>(
    alloc: Global,
    tx: &mut Transaction<'_, S>,
    event: &ObjectId,
) -> Result<Option<Rollup>, Refusal>
    ensures lent { LeavesLent S.Store tx.old.conn tx.new.conn result }
    ensures finds { Finds S.Store tx.old.conn.now tx.new.conn.now (λ kept rollup. rollup ≡ rollup_at kept.mirror kept.portfolio event.now) result }
    ensures refused { IfErr result IsOfStore }
{
    let mut sharers = Sharers::none(alloc);
    rollup_by(alloc, tx, &mut sharers, event)
}
