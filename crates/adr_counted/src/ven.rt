//! Vens, counted.
ghost use Rattle.std.specs.Prelude.{◌≡◌, ◌+◌, ⊤, true, is_some, if◌then◌else◌, IfErr, OnOk};
ghost use Rattle.std.specs.Ordering.{nat_cmp};
ghost use Rattle.adr_state.specs.Keys.{at};
ghost use Rattle.adr_state.specs.Portfolios.{PutVen, DropVen};
ghost use Rattle.adr_sql.specs.Calls.{LeavesLent};
ghost use Rattle.adr_db.specs.Calls.{IsOfStore};
ghost use Rattle.adr_db.specs.BaseCalls.{Counts};

use crate::along::gone_with_ven;
use crate::counts::with_put;
use crate::gone::count_gone;
use adr_db::Meta;
use adr_db_portfolio as tables;
use adr_objects::Number;
use adr_state::Ven;
use adr_text::Refusal;
use sqlite::{Alter, Transaction};
use std::alloc::Global;

// One more, where none is there yet.
fn count_put(meta: &mut Meta, is_there: bool) -> Result<(), Refusal>
    ensures counts { OnOk result (meta.new ≡ record meta.old { vens = if is_there then meta.old.vens else meta.old.vens + 1 }) }
    ensures refused { IfErr result IsOfStore }
{
    meta.vens = with_put(meta.vens, is_there)?;
    Ok(())
}

/// Puts the ven of a number, of which the caller knows whether it is there.
pub fn put_ven<S: Alter>(
    tx: &mut Transaction<'_, S>,
    meta: &mut Meta,
    id: Number,
    ven: &Ven,
    is_there: bool,
) -> Result<(), Refusal>
    ensures lent { LeavesLent S.Store tx.old.conn tx.new.conn result }
    ensures counts { Counts S.Store tx.old.conn.now tx.new.conn.now (PutVen id ven.now) (λ p. is_there ≡ is_some (at nat_cmp id p.vens)) meta.old meta.new result }
    ensures refused { IfErr result IsOfStore }
{
    count_put(meta, is_there)?;
    tables::put_ven(tx, id, ven)
}

/// Puts the ven of a number, which is looked for.
pub fn add_ven<S: Alter>(
    alloc: Global,
    tx: &mut Transaction<'_, S>,
    meta: &mut Meta,
    id: Number,
    ven: &Ven,
) -> Result<(), Refusal>
    ensures lent { LeavesLent S.Store tx.old.conn tx.new.conn result }
    ensures counts { Counts S.Store tx.old.conn.now tx.new.conn.now (PutVen id ven.now) (λ p. ⊤) meta.old meta.new result }
    ensures refused { IfErr result IsOfStore }
{
    let found = tables::read_ven(alloc, tx, id)?;
    put_ven(tx, meta, id, ven, found.is_some())
}

/// The ven of a number goes, which is there, and with it its resources, their shares, the reports on them, and its subscriptions.
pub fn remove_ven<S: Alter>(
    alloc: Global,
    tx: &mut Transaction<'_, S>,
    meta: &mut Meta,
    id: Number,
) -> Result<(), Refusal>
    ensures lent { LeavesLent S.Store tx.old.conn tx.new.conn result }
    ensures counts { Counts S.Store tx.old.conn.now tx.new.conn.now (DropVen id) (λ p. is_some (at nat_cmp id p.vens) ≡ true) meta.old meta.new result }
    ensures refused { IfErr result IsOfStore }
{
    let gone = gone_with_ven(alloc, tx, id)?;
    count_gone(meta, gone)?;
    tables::remove_ven(tx, id)
}
