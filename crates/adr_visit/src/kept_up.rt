//! What of the view is kept up.
ghost use Rattle.std.specs.Prelude.{◌≡◌, IfOk, IfErr};
ghost use Rattle.std.specs.Option.{option_to_list};
ghost use Rattle.adr_sql.specs.Calls.{LeavesLent};
ghost use Rattle.adr_db.specs.Calls.{IsOfStore};
ghost use Rattle.adr_kept_view.specs.Objects.{as_object};
ghost use Rattle.adr_kept_view.specs.Refreshed.{Part, as_shown, as_rolled_up};
ghost use Rattle.adr_upkeep.specs.Calls.{RefreshesSharing};

use adr_db_portfolio::Sharers;
use adr_kept_view::{ObjectChange, OldObject, RollupChange, ShownChange};
use adr_state::push_some;
use adr_text::{Moment, ObjectId, Refusal, Rows};
use adr_upkeep::{refresh_object, refresh_rollup_sharing, refresh_sharing};
use sqlite::{Alter, Transaction};
use std::alloc::{AllocError, Global};

/// A part of the view that is refreshed item by item.
pub(crate) trait KeptUp<I, C: Drop> {
    ghost part: { Part I C };

    /// Refreshes an item, and answers its changes.
    fn refresh<S: Alter>(
        alloc: Global,
        tx: &mut Transaction<'_, S>,
        sharers: &mut Sharers,
        item: &I,
        now: Moment,
    ) -> Result<Rows<C>, Refusal>
        ensures lent { LeavesLent S.Store tx.old.conn tx.new.conn result }
        ensures refreshes { RefreshesSharing S.Store tx.old.conn.now tx.new.conn.now part item.now now sharers.old sharers.new result }
        ensures refused { IfErr result IsOfStore };
}

// The one change, if there is one.
fn rows_of<C: Drop>(alloc: Global, change: Option<C>) -> Result<Rows<C>, AllocError>
    ensures { IfOk result (λ rows. rows ≡ option_to_list change) }
{
    let mut rows = Vec::new(alloc);
    push_some(&mut rows, change)?;
    Ok(Rows::from_vec(rows))
}

/// Programs and reports.
pub(crate) struct AsObject;

impl KeptUp<OldObject, ObjectChange> for AsObject {
    ghost part = { as_object };

    fn refresh<S: Alter>(
        alloc: Global,
        tx: &mut Transaction<'_, S>,
        _sharers: &mut Sharers,
        item: &OldObject,
        now: Moment,
    ) -> Result<Rows<ObjectChange>, Refusal> {
        let change = refresh_object(alloc, tx, item, now)?;
        Ok(rows_of(alloc, change)?)
    }
}

/// What the participants of upstream events are shown.
pub(crate) struct AsShown;

impl KeptUp<ObjectId, ShownChange> for AsShown {
    ghost part = { as_shown };

    fn refresh<S: Alter>(
        alloc: Global,
        tx: &mut Transaction<'_, S>,
        sharers: &mut Sharers,
        event: &ObjectId,
        now: Moment,
    ) -> Result<Rows<ShownChange>, Refusal> {
        refresh_sharing(alloc, tx, sharers, event, now)
    }
}

/// The roll-ups of upstream events, of each of which at most one change is told.
pub(crate) struct AsRolledUp;

impl KeptUp<ObjectId, RollupChange> for AsRolledUp {
    ghost part = { as_rolled_up };

    fn refresh<S: Alter>(
        alloc: Global,
        tx: &mut Transaction<'_, S>,
        sharers: &mut Sharers,
        event: &ObjectId,
        now: Moment,
    ) -> Result<Rows<RollupChange>, Refusal> {
        let change = refresh_rollup_sharing(alloc, tx, sharers, event, now)?;
        Ok(rows_of(alloc, change)?)
    }
}
