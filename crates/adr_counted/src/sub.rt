//! Subscriptions, counted.
ghost use Rattle.std.specs.Prelude.{◌≡◌, ◌+◌, ⊤, true, is_some, if◌then◌else◌, IfErr, OnOk};
ghost use Rattle.std.specs.Ordering.{nat_cmp};
ghost use Rattle.adr_state.specs.Keys.{at};
ghost use Rattle.adr_state.specs.Portfolios.{PutSub, DropSub};
ghost use Rattle.adr_sql.specs.Calls.{LeavesLent};
ghost use Rattle.adr_db.specs.Calls.{IsOfStore};
ghost use Rattle.adr_db.specs.BaseCalls.{Counts};

use crate::counts::with_put;
use crate::gone::{count_gone, one_sub};
use adr_db::Meta;
use adr_db_portfolio as tables;
use adr_objects::Number;
use adr_subscription::Sub;
use adr_text::Refusal;
use sqlite::{Alter, Transaction};
use std::alloc::Global;

// One more, where none is there yet.
fn count_put(meta: &mut Meta, is_there: bool) -> Result<(), Refusal>
    ensures counts { OnOk result (meta.new ≡ record meta.old { subs = if is_there then meta.old.subs else meta.old.subs + 1 }) }
    ensures refused { IfErr result IsOfStore }
{
    meta.subs = with_put(meta.subs, is_there)?;
    Ok(())
}

/// Puts the subscription of a number, of which the caller knows whether it is there.
pub fn put_sub<S: Alter>(
    alloc: Global,
    tx: &mut Transaction<'_, S>,
    meta: &mut Meta,
    id: Number,
    sub: &Sub,
    is_there: bool,
) -> Result<(), Refusal>
    ensures lent { LeavesLent S.Store tx.old.conn tx.new.conn result }
    ensures counts { Counts S.Store tx.old.conn.now tx.new.conn.now (PutSub id sub.now) (λ p. is_there ≡ is_some (at nat_cmp id p.subs)) meta.old meta.new result }
    ensures refused { IfErr result IsOfStore }
{
    count_put(meta, is_there)?;
    tables::put_sub(alloc, tx, id, sub)
}

/// Puts the subscription of a number, which is looked for.
pub fn add_sub<S: Alter>(
    alloc: Global,
    tx: &mut Transaction<'_, S>,
    meta: &mut Meta,
    id: Number,
    sub: &Sub,
) -> Result<(), Refusal>
    ensures lent { LeavesLent S.Store tx.old.conn tx.new.conn result }
    ensures counts { Counts S.Store tx.old.conn.now tx.new.conn.now (PutSub id sub.now) (λ p. ⊤) meta.old meta.new result }
    ensures refused { IfErr result IsOfStore }
{
    let found = tables::read_sub(alloc, tx, id)?;
    put_sub(alloc, tx, meta, id, sub, found.is_some())
}

/// The subscription of a number goes, which is there.
pub fn remove_sub<S: Alter>(
    tx: &mut Transaction<'_, S>,
    meta: &mut Meta,
    id: Number,
) -> Result<(), Refusal>
    ensures lent { LeavesLent S.Store tx.old.conn tx.new.conn result }
    ensures counts { Counts S.Store tx.old.conn.now tx.new.conn.now (DropSub id) (λ p. is_some (at nat_cmp id p.subs) ≡ true) meta.old meta.new result }
    ensures refused { IfErr result IsOfStore }
{
    count_gone(meta, one_sub())?;
    tables::remove_sub(tx, id)
}
