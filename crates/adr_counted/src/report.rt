//! Reports, counted.
ghost use Rattle.std.specs.Prelude.{◌≡◌, ◌+◌, ⊤, true, is_some, if◌then◌else◌, IfErr, OnOk};
ghost use Rattle.std.specs.Ordering.{nat_cmp};
ghost use Rattle.adr_state.specs.Keys.{at};
ghost use Rattle.adr_state.specs.Portfolios.{PutReport, DropReport};
ghost use Rattle.adr_sql.specs.Calls.{LeavesLent};
ghost use Rattle.adr_db.specs.Calls.{IsOfStore};
ghost use Rattle.adr_db.specs.BaseCalls.{Counts};

use crate::counts::with_put;
use crate::gone::{count_gone, one_report};
use adr_db::Meta;
use adr_db_portfolio as tables;
use adr_objects::Number;
use adr_state::Report;
use adr_text::Refusal;
use sqlite::{Alter, Transaction};
use std::alloc::Global;

// One more, where none is there yet.
fn count_put(meta: &mut Meta, is_there: bool) -> Result<(), Refusal>
    ensures counts { OnOk result (meta.new ≡ record meta.old { reports = if is_there then meta.old.reports else meta.old.reports + 1 }) }
    ensures refused { IfErr result IsOfStore }
{
    meta.reports = with_put(meta.reports, is_there)?;
    Ok(())
}

/// Puts the report of a number, of which the caller knows whether it is there.
pub fn put_report<S: Alter>(
    tx: &mut Transaction<'_, S>,
    meta: &mut Meta,
    id: Number,
    report: &Report,
    is_there: bool,
) -> Result<(), Refusal>
    ensures lent { LeavesLent S.Store tx.old.conn tx.new.conn result }
    ensures counts { Counts S.Store tx.old.conn.now tx.new.conn.now (PutReport id report.now) (λ p. is_there ≡ is_some (at nat_cmp id p.reports)) meta.old meta.new result }
    ensures refused { IfErr result IsOfStore }
{
    count_put(meta, is_there)?;
    tables::put_report(tx, id, report)
}

/// Puts the report of a number, which is looked for.
pub fn add_report<S: Alter>(
    alloc: Global,
    tx: &mut Transaction<'_, S>,
    meta: &mut Meta,
    id: Number,
    report: &Report,
) -> Result<(), Refusal>
    ensures lent { LeavesLent S.Store tx.old.conn tx.new.conn result }
    ensures counts { Counts S.Store tx.old.conn.now tx.new.conn.now (PutReport id report.now) (λ p. ⊤) meta.old meta.new result }
    ensures refused { IfErr result IsOfStore }
{
    let found = tables::read_report(alloc, tx, id)?;
    put_report(tx, meta, id, report, found.is_some())
}

/// The report of a number goes, which is there.
pub fn remove_report<S: Alter>(
    tx: &mut Transaction<'_, S>,
    meta: &mut Meta,
    id: Number,
) -> Result<(), Refusal>
    ensures lent { LeavesLent S.Store tx.old.conn tx.new.conn result }
    ensures counts { Counts S.Store tx.old.conn.now tx.new.conn.now (DropReport id) (λ p. is_some (at nat_cmp id p.reports) ≡ true) meta.old meta.new result }
    ensures refused { IfErr result IsOfStore }
{
    count_gone(meta, one_report())?;
    tables::remove_report(tx, id)
}
