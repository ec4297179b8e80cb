//! The refresh of the roll-up of an upstream event.
ghost use Rattle.std.specs.Prelude.{◌≡◌, Some, IfErr, OnOk};
ghost use Rattle.std.specs.Option.{option_copied};
ghost use Rattle.adr_state.specs.declared.keys.ViewKey.TheVariants as key;
ghost use Rattle.adr_sql.specs.Calls.{LeavesLent};
ghost use Rattle.adr_shown.specs.RollupTexts.{kept_rollup_text};
ghost use Rattle.adr_db.specs.Kept.{with_rollup, with_stamps};
ghost use Rattle.adr_db.specs.Calls.{LeavesKept, Turns, IsOfStore};
ghost use Rattle.adr_kept_view.specs.Columns.{rollup_columns as columns_of};
ghost use Rattle.adr_kept_view.specs.Rollups.{kept_with};
ghost use Rattle.adr_upkeep.specs.Calls.{RefreshesRollup, RefreshesRollupSharing};
ghost use Rattle.adr_upkeep.specs.Rolled.{operation_of, told_of, ReadsRolled};

use crate::columns::rollup_columns;
use crate::rolled_up::rollup_by;
use crate::stamps::stamps_put;
use adr_db::RollupColumns;
use adr_db_portfolio::Sharers;
use adr_db_shown::{put_rollup, read_rollup, remove_rollup};
use adr_db_state::{put_stamps, read_stamps_of, remove_stamps};
use adr_kept_view::RollupChange;
use adr_objects::{Rollup, Stamps};
use adr_shown::write_rolled_up;
use adr_state::{ViewKey, fresh};
use adr_text::{Moment, ObjectId, Refusal};
use adr_view::Operation;
use sqlite::{Alter, Transaction};
use std::alloc::Global;

// Puts what is kept of a roll-up, whose text this is, with its stamps.
fn put<S: Alter>(
    alloc: Global,
    tx: &mut Transaction<'_, S>,
    event: &ObjectId,
    place: &ViewKey,
    rollup: &Rollup,
    text: &str,
    stamps: Stamps,
) -> Result<(), Refusal>
    requires { text.now ≡ kept_rollup_text event.now rollup.now }
    ensures lent { LeavesLent S.Store tx.old.conn tx.new.conn result }
    ensures leaves { LeavesKept S.Store tx.old.conn.now tx.new.conn.now (λ kept. with_stamps place.now stamps (with_rollup event.now (columns_of event.now rollup.now) kept)) result }
    ensures refused { IfErr result IsOfStore }
{
    let columns = rollup_columns(alloc, rollup, text)?;
    put_rollup(tx, event, &columns)?;
    put_stamps(tx, place, stamps)
}

// A roll-up differs from what is kept, or stays.
fn differ<S: Alter>(
    alloc: Global,
    tx: &mut Transaction<'_, S>,
    event: &ObjectId,
    place: &ViewKey,
    now: Moment,
    columns: &RollupColumns,
    stamps: Option<&Stamps>,
    rollup: &Rollup,
) -> Result<Option<Operation>, Refusal>
    requires { place.now ≡ key.Rollup event.now }
    ensures lent { LeavesLent S.Store tx.old.conn tx.new.conn result }
    ensures turns { Turns S.Store tx.old.conn.now tx.new.conn.now (kept_with event.now now (Some columns.now) (option_copied stamps.entry) (Some rollup.now)) (λ kept told. told ≡ operation_of event.now (Some columns.now) (Some rollup.now)) result }
    ensures reads { OnOk result (ReadsRolled event.now (Some rollup.now)) }
    ensures refused { IfErr result IsOfStore }
{
    let text = write_rolled_up(alloc, event, rollup)?;
    if columns.body.as_str() == text.as_str() {
        return Ok(None);
    }
    let stamps = stamps_put(now, stamps);
    put(alloc, tx, event, place, rollup, text.as_str(), stamps)?;
    Ok(Some(Operation::Put))
}

// What becomes of a roll-up, by what is kept of it, its stamps, and what it is now: that is written, and answered is what
// is told of it.
fn turn_rollup<S: Alter>(
    alloc: Global,
    tx: &mut Transaction<'_, S>,
    event: &ObjectId,
    place: &ViewKey,
    now: Moment,
    old: Option<&RollupColumns>,
    stamps: Option<&Stamps>,
    new: Option<&Rollup>,
) -> Result<Option<Operation>, Refusal>
    requires { place.now ≡ key.Rollup event.now }
    ensures lent { LeavesLent S.Store tx.old.conn tx.new.conn result }
    ensures turns { Turns S.Store tx.old.conn.now tx.new.conn.now (kept_with event.now now (option_copied old.entry) (option_copied stamps.entry) (option_copied new.entry)) (λ kept told. told ≡ operation_of event.now (option_copied old.entry) (option_copied new.entry)) result }
    ensures reads { OnOk result (ReadsRolled event.now (option_copied new.entry)) }
    ensures refused { IfErr result IsOfStore }
{
    match (old, new) {
        (None, None) => Ok(None),
        (Some(_), None) => {
            remove_rollup(tx, event)?;
            remove_stamps(tx, place)?;
            Ok(None)
        }
        (None, Some(rollup)) => {
            let text = write_rolled_up(alloc, event, rollup)?;
            put(alloc, tx, event, place, rollup, text.as_str(), fresh(now))?;
            Ok(Some(Operation::Post))
        }
        (Some(columns), Some(rollup)) => {
            differ(alloc, tx, event, place, now, columns, stamps, rollup)
        }
    }
}

// What is told of a roll-up, where something is.
fn told(operation: Option<Operation>, rollup: Option<Rollup>) -> Option<RollupChange>
    ensures { result ≡ told_of operation rollup }
{
    match (operation, rollup) {
        (Some(operation), Some(rollup)) => Some(RollupChange { operation, rollup }),
        _ => None,
    }
}

/// What tables keep of the roll-up of an upstream event is compared with what it is now: one that appears or differs is put,
/// with its stamps; one that goes is removed with them, which is no change; and one that stays is left alone. Answered is
/// exactly the change, if there is one, with what is told of it. Those who share in its program are read unless they are
/// known, and known then, as `refresh_sharing` has it.
pub fn refresh_rollup_sharing<S: Alter>(
    alloc: Global,
    tx: &mut Transaction<'_, S>,
    sharers: &mut Sharers,
    event: &ObjectId,
    now: Moment,
) -> Result<Option<RollupChange>, Refusal>
    ensures lent { LeavesLent S.Store tx.old.conn tx.new.conn result }
    ensures refreshes { RefreshesRollupSharing S.Store tx.old.conn.now tx.new.conn.now event.now now sharers.old sharers.new result }
    ensures refused { IfErr result IsOfStore }
{
    let place = ViewKey::Rollup(event.copy(alloc)?);
    let old = read_rollup(alloc, tx, event)?;
    let stamps = read_stamps_of(tx, &place)?;
    let new = rollup_by(alloc, tx, sharers, event)?;
    let operation = turn_rollup(
        alloc,
        tx,
        event,
        &place,
        now,
        old.as_ref(),
        stamps.as_ref(),
        new.as_ref(),
    )?;
    Ok(told(operation, new))
}

/// The same of one event alone.
pub fn refresh_rollup<S: Alter>(
    alloc: Global,
    tx: &mut Transaction<'_, S>,
    event: &ObjectId,
    now: Moment,
) -> Result<Option<RollupChange>, Refusal>
    ensures lent { LeavesLent S.Store tx.old.conn tx.new.conn result }
    ensures refreshes { RefreshesRollup S.Store tx.old.conn.now tx.new.conn.now event.now now result }
    ensures refused { IfErr result IsOfStore }
{
    let mut sharers = Sharers::none(alloc);
    refresh_rollup_sharing(alloc, tx, &mut sharers, event, now)
}
