//! What a ven touches that is put or goes.
ghost use Rattle.std.specs.Prelude.{IfErr};
ghost use Rattle.adr_sql.specs.Calls.{LeavesLent};
ghost use Rattle.adr_state.specs.BaseChanges.{ChangePortfolio};
ghost use Rattle.adr_state.specs.Portfolios.{DropVen, is_of_ven};
ghost use Rattle.adr_refresh.specs.Touched.{reports_by};
ghost use Rattle.adr_db.specs.BaseCalls.{FindsOn};
ghost use Rattle.adr_db.specs.Calls.{Finds, IsOfStore};
ghost use Rattle.adr_touched.specs.Touched.{ReportsStood, Covers, CoversVen};

use crate::events::events_of_ven;
use crate::ordered::ids_of;
use crate::reports::reports_of_ven;
use crate::stood::reports_at;
use crate::touched::{Touched, with_rollups};
use adr_kept_view::OldObject;
use adr_objects::{Kind, Number};
use adr_text::{Refusal, Rows};
use sqlite::{Alter, Transaction};
use std::alloc::Global;

/// What a ven touches that is put: the live events of the programs in which a resource of it has a share and those in which a
/// share of one is frozen, and their roll-ups.
pub fn touched_by_ven<S: Alter>(
    alloc: Global,
    tx: &mut Transaction<'_, S>,
    ven: Number,
) -> Result<Touched, Refusal>
    ensures lent { LeavesLent S.Store tx.old.conn tx.new.conn result }
    ensures finds { FindsOn S.Store tx.old.conn.now tx.new.conn.now (CoversVen ven) result }
    ensures refused { IfErr result IsOfStore }
{
    let keys = events_of_ven(alloc, tx, ven)?;
    let events = ids_of(alloc, Kind::Event, keys.as_slice())?;
    Ok(with_rollups(alloc, Rows::new(alloc), events, Rows::new(alloc))?)
}

// What stands at the keys of the reports on the resources of a ven.
fn reports_with<S: Alter>(
    alloc: Global,
    tx: &mut Transaction<'_, S>,
    ven: Number,
) -> Result<Rows<OldObject>, Refusal>
    ensures lent { LeavesLent S.Store tx.old.conn tx.new.conn result }
    ensures finds { Finds S.Store tx.old.conn.now tx.new.conn.now (λ kept olds. ReportsStood (reports_by (is_of_ven ven kept.portfolio.resources) kept.portfolio) kept olds) result }
    ensures refused { IfErr result IsOfStore }
{
    let numbers = reports_of_ven(alloc, tx, ven)?;
    reports_at(alloc, tx, numbers)
}

/// What a ven touches that goes: those, and the reports on its resources.
pub fn touched_as_ven_goes<S: Alter>(
    alloc: Global,
    tx: &mut Transaction<'_, S>,
    ven: Number,
) -> Result<Touched, Refusal>
    ensures lent { LeavesLent S.Store tx.old.conn tx.new.conn result }
    ensures finds { FindsOn S.Store tx.old.conn.now tx.new.conn.now (Covers (ChangePortfolio (DropVen ven))) result }
    ensures refused { IfErr result IsOfStore }
{
    let keys = events_of_ven(alloc, tx, ven)?;
    let reports = reports_with(alloc, tx, ven)?;
    let events = ids_of(alloc, Kind::Event, keys.as_slice())?;
    Ok(with_rollups(alloc, Rows::new(alloc), events, reports)?)
}
