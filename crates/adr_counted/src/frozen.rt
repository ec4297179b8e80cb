//! An event frozen, counted by the pairs that are kept for it.
ghost use Rattle.std.specs.Prelude.{◌≡◌, length, filter, IfErr, OnOk};
ghost use Rattle.adr_state.specs.Frozen.{is_of_event};
ghost use Rattle.adr_state.specs.Portfolios.{Freeze};
ghost use Rattle.adr_sql.specs.Calls.{LeavesLent};
ghost use Rattle.adr_db.specs.Calls.{Finds, LeavesKept, IsOfStore};
ghost use Rattle.adr_db.specs.BaseCalls.{Counts};
ghost use Rattle.adr_db.specs.Kept.{with_portfolio};
ghost use Rattle.adr_db_portfolio.specs.Frozen.{with_frozen_share};
ghost use Rattle.adr_counted.specs.Frozen.{IsRecounted, CanBeFrozen, with_pairs_put, frozen_now};

use crate::counts::left;
use adr_db::Meta;
use adr_db_portfolio as tables;
use adr_objects::Number;
use adr_state::{FrozenKey, Weight};
use adr_text::{ObjectId, Refusal};
use sqlite::{Alter, Transaction};
use std::alloc::Global;

// How many shares are kept for the event.
fn kept_for<S: Alter>(
    alloc: Global,
    tx: &mut Transaction<'_, S>,
    event: &ObjectId,
) -> Result<u64, Refusal>
    ensures lent { LeavesLent S.Store tx.old.conn tx.new.conn result }
    ensures finds { Finds S.Store tx.old.conn.now tx.new.conn.now (λ kept many. many ≡ length (filter (is_of_event event.now) kept.portfolio.frozen_shares)) result }
    ensures refused { IfErr result IsOfStore }
{
    let shares = tables::read_frozen_in(alloc, tx, event)?;
    Ok(shares.len() as u64)
}

// So many frozen shares go, and so many come.
fn recount(meta: &mut Meta, gone: u64, come: usize) -> Result<(), Refusal>
    ensures counts { OnOk result (IsRecounted gone come meta.old meta.new) }
    ensures refused { IfErr result IsOfStore }
{
    let others = left(meta.frozen, gone)?;
    // No table holds as many as would pass a u64.
    meta.frozen = others.checked_add(come as u64).ok_or(Refusal::Store)?;
    Ok(())
}

// The weight of a resource is kept for the event.
fn put_pair<S: Alter>(
    tx: &mut Transaction<'_, S>,
    event: &ObjectId,
    resource: Number,
    weight: Weight,
) -> Result<(), Refusal>
    ensures lent { LeavesLent S.Store tx.old.conn tx.new.conn result }
    ensures leaves { LeavesKept S.Store tx.old.conn.now tx.new.conn.now (with_portfolio (with_frozen_share (record { event = event.now; resource = resource }) weight)) result }
    ensures refused { IfErr result IsOfStore }
{
    let key = FrozenKey {
        event: event.clone()?,
        resource,
    };
    tables::put_frozen_share(tx, &key, weight)
}

// So is that of each of these, one after another.
fn put_pairs<S: Alter>(
    tx: &mut Transaction<'_, S>,
    event: &ObjectId,
    pairs: &[(Number, Weight)],
) -> Result<(), Refusal>
    ensures lent { LeavesLent S.Store tx.old.conn tx.new.conn result }
    ensures leaves { LeavesKept S.Store tx.old.conn.now tx.new.conn.now (with_portfolio (with_pairs_put event.now pairs.now)) result }
    ensures refused { IfErr result IsOfStore }
{
    'pairs: for pair in pairs {
        put_pair(tx, event, pair.0, pair.1)?;
    }
    Ok(())
}

// The event is one of those that are frozen, and these pairs are all that is kept for it.
fn keep<S: Alter>(
    tx: &mut Transaction<'_, S>,
    event: &ObjectId,
    pairs: &[(Number, Weight)],
) -> Result<(), Refusal>
    ensures lent { LeavesLent S.Store tx.old.conn tx.new.conn result }
    ensures leaves { LeavesKept S.Store tx.old.conn.now tx.new.conn.now (with_portfolio (frozen_now event.now pairs.now)) result }
    ensures refused { IfErr result IsOfStore }
{
    tables::remove_frozen_shares(tx, event)?;
    put_pairs(tx, event, pairs)?;
    tables::put_frozen(tx, event)
}

/// Freezes the event, which is not frozen yet, with these pairs of a resource's number and its weight, which stand in the
/// order of the numbers, each once. What was kept for it goes. It costs a put for each pair.
pub fn freeze<S: Alter>(
    alloc: Global,
    tx: &mut Transaction<'_, S>,
    meta: &mut Meta,
    event: &ObjectId,
    pairs: &[(Number, Weight)],
) -> Result<(), Refusal>
    ensures lent { LeavesLent S.Store tx.old.conn tx.new.conn result }
    ensures counts { Counts S.Store tx.old.conn.now tx.new.conn.now (Freeze event.now pairs.now) (CanBeFrozen event.now pairs.now) meta.old meta.new result }
    ensures refused { IfErr result IsOfStore }
{
    let gone = kept_for(alloc, tx, event)?;
    recount(meta, gone, pairs.len())?;
    keep(tx, event, pairs)
}
