//! Resources, counted.
ghost use Rattle.std.specs.Prelude.{◌≡◌, ◌+◌, ⊤, true, is_some, if◌then◌else◌, IfErr, OnOk};
ghost use Rattle.std.specs.Ordering.{nat_cmp};
ghost use Rattle.adr_state.specs.Keys.{at};
ghost use Rattle.adr_state.specs.Portfolios.{PutResource, DropResource};
ghost use Rattle.adr_sql.specs.Calls.{LeavesLent};
ghost use Rattle.adr_db.specs.Calls.{IsOfStore};
ghost use Rattle.adr_db.specs.BaseCalls.{Counts};

use crate::along::gone_with_resource;
use crate::counts::with_put;
use crate::gone::count_gone;
use adr_db::Meta;
use adr_db_portfolio as tables;
use adr_objects::Number;
use adr_state::Resource;
use adr_text::Refusal;
use sqlite::{Alter, Transaction};
use std::alloc::Global;

// One more, where none is there yet.
fn count_put(meta: &mut Meta, is_there: bool) -> Result<(), Refusal>
    ensures counts { OnOk result (meta.new ≡ record meta.old { resources = if is_there then meta.old.resources else meta.old.resources + 1 }) }
    ensures refused { IfErr result IsOfStore }
{
    meta.resources = with_put(meta.resources, is_there)?;
    Ok(())
}

/// Puts the resource of a number, of which the caller knows whether it is there.
pub fn put_resource<S: Alter>(
    tx: &mut Transaction<'_, S>,
    meta: &mut Meta,
    id: Number,
    resource: &Resource,
    is_there: bool,
) -> Result<(), Refusal>
    ensures lent { LeavesLent S.Store tx.old.conn tx.new.conn result }
    ensures counts { Counts S.Store tx.old.conn.now tx.new.conn.now (PutResource id resource.now) (λ p. is_there ≡ is_some (at nat_cmp id p.resources)) meta.old meta.new result }
    ensures refused { IfErr result IsOfStore }
{
    count_put(meta, is_there)?;
    tables::put_resource(tx, id, resource)
}

/// Puts the resource of a number, which is looked for.
pub fn add_resource<S: Alter>(
    alloc: Global,
    tx: &mut Transaction<'_, S>,
    meta: &mut Meta,
    id: Number,
    resource: &Resource,
) -> Result<(), Refusal>
    ensures lent { LeavesLent S.Store tx.old.conn tx.new.conn result }
    ensures counts { Counts S.Store tx.old.conn.now tx.new.conn.now (PutResource id resource.now) (λ p. ⊤) meta.old meta.new result }
    ensures refused { IfErr result IsOfStore }
{
    let found = tables::read_resource(alloc, tx, id)?;
    put_resource(tx, meta, id, resource, found.is_some())
}

/// The resource of a number goes, which is there, and with it its shares and the reports on it.
pub fn remove_resource<S: Alter>(
    alloc: Global,
    tx: &mut Transaction<'_, S>,
    meta: &mut Meta,
    id: Number,
) -> Result<(), Refusal>
    ensures lent { LeavesLent S.Store tx.old.conn tx.new.conn result }
    ensures counts { Counts S.Store tx.old.conn.now tx.new.conn.now (DropResource id) (λ p. is_some (at nat_cmp id p.resources) ≡ true) meta.old meta.new result }
    ensures refused { IfErr result IsOfStore }
{
    let gone = gone_with_resource(alloc, tx, id)?;
    count_gone(meta, gone)?;
    tables::remove_resource(tx, id)
}
