//! What a resource touches that is put or goes.
ghost use Rattle.std.specs.Prelude.{◌==◌, IfErr};
ghost use Rattle.adr_sql.specs.Calls.{LeavesLent};
ghost use Rattle.adr_state.specs.BaseChanges.{ChangePortfolio};
ghost use Rattle.adr_state.specs.Portfolios.{DropResource};
ghost use Rattle.adr_refresh.specs.Touched.{reports_by};
ghost use Rattle.adr_db.specs.BaseCalls.{FindsOn};
ghost use Rattle.adr_db.specs.Calls.{Finds, IsOfStore};
ghost use Rattle.adr_touched.specs.Touched.{ReportsStood, Covers, CoversResource};

use crate::events::events_of_resource;
use crate::ordered::ids_of;
use crate::stood::reports_at;
use crate::touched::{Touched, with_rollups};
use adr_db_portfolio::read_reports_on;
use adr_kept_view::OldObject;
use adr_objects::{Kind, Number};
use adr_text::{Refusal, Rows};
use sqlite::{Alter, Transaction};
use std::alloc::Global;

/// What a resource touches that is put: the live events of the programs in which it has a share and those in which a share of
/// it is frozen, and their roll-ups.
pub fn touched_by_resource<S: Alter>(
    alloc: Global,
    tx: &mut Transaction<'_, S>,
    resource: Number,
) -> Result<Touched, Refusal>
    ensures lent { LeavesLent S.Store tx.old.conn tx.new.conn result }
    ensures finds { FindsOn S.Store tx.old.conn.now tx.new.conn.now (CoversResource resource) result }
    ensures refused { IfErr result IsOfStore }
{
    let keys = events_of_resource(alloc, tx, resource)?;
    let events = ids_of(alloc, Kind::Event, keys.as_slice())?;
    Ok(with_rollups(alloc, Rows::new(alloc), events, Rows::new(alloc))?)
}

// What stands at the keys of the reports on a resource.
fn reports_on<S: Alter>(
    alloc: Global,
    tx: &mut Transaction<'_, S>,
    resource: Number,
) -> Result<Rows<OldObject>, Refusal>
    ensures lent { LeavesLent S.Store tx.old.conn tx.new.conn result }
    ensures finds { Finds S.Store tx.old.conn.now tx.new.conn.now (λ kept olds. ReportsStood (reports_by (λ m. m == resource) kept.portfolio) kept olds) result }
    ensures refused { IfErr result IsOfStore }
{
    let numbers = read_reports_on(alloc, tx, resource)?;
    reports_at(alloc, tx, numbers)
}

/// What a resource touches that goes: those, and the reports on it.
pub fn touched_as_resource_goes<S: Alter>(
    alloc: Global,
    tx: &mut Transaction<'_, S>,
    resource: Number,
) -> Result<Touched, Refusal>
    ensures lent { LeavesLent S.Store tx.old.conn tx.new.conn result }
    ensures finds { FindsOn S.Store tx.old.conn.now tx.new.conn.now (Covers (ChangePortfolio (DropResource resource))) result }
    ensures refused { IfErr result IsOfStore }
{
    let keys = events_of_resource(alloc, tx, resource)?;
    let reports = reports_on(alloc, tx, resource)?;
    let events = ids_of(alloc, Kind::Event, keys.as_slice())?;
    Ok(with_rollups(alloc, Rows::new(alloc), events, reports)?)
}
