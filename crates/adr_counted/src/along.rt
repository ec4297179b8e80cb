//! What goes along with a resource and with a ven, counted by what the indexes of the tables tell.
ghost use Rattle.std.specs.Prelude.{◌≡◌, ◌+◌, true, is_some, IfOk, IfErr};
ghost use Rattle.std.specs.Ordering.{nat_cmp};
ghost use Rattle.adr_state.specs.Keys.{at};
ghost use Rattle.adr_state.specs.Portfolios.{without_ven, without_resource};
ghost use Rattle.adr_sql.specs.Calls.{LeavesLent};
ghost use Rattle.adr_db.specs.Calls.{Finds, IsOfStore};
ghost use Rattle.adr_counted.specs.Gone.{IsGone};
ghost use Rattle.adr_counted.specs.Along.{shares_of, reports_on, frozen_of, along_each};

use crate::gone::Gone;
use adr_db_portfolio::{
    read_frozen_of, read_reports_on, read_resources_of, read_shares_of, read_subs_of,
};
use adr_objects::Number;
use adr_text::Refusal;
use sqlite::{Alter, Transaction};
use std::alloc::Global;

/// How many shares, reports and frozen shares go along with resources.
#[derive(Clone, Copy)]
pub(crate) struct Along {
    pub shares: u64,
    pub reports: u64,
    pub frozen: u64,
}

// Both together.
fn together(a: Along, b: Along) -> Result<Along, Refusal>
    ensures sum { IfOk result (λ all. all ≡ record { shares = a.shares + b.shares; reports = a.reports + b.reports; frozen = a.frozen + b.frozen }) }
    ensures refused { IfErr result IsOfStore }
{
    Ok(Along {
        shares: a.shares.checked_add(b.shares).ok_or(Refusal::Store)?,
        reports: a.reports.checked_add(b.reports).ok_or(Refusal::Store)?,
        frozen: a.frozen.checked_add(b.frozen).ok_or(Refusal::Store)?,
    })
}

// What goes along with one resource.
fn along_one<S: Alter>(
    alloc: Global,
    tx: &mut Transaction<'_, S>,
    resource: Number,
) -> Result<Along, Refusal>
    ensures lent { LeavesLent S.Store tx.old.conn tx.new.conn result }
    ensures finds { Finds S.Store tx.old.conn.now tx.new.conn.now (λ kept along. along ≡ record { shares = shares_of kept.portfolio resource; reports = reports_on kept.portfolio resource; frozen = frozen_of kept.portfolio resource }) result }
    ensures refused { IfErr result IsOfStore }
{
    let shares = read_shares_of(alloc, tx, resource)?;
    let reports = read_reports_on(alloc, tx, resource)?;
    let frozen = read_frozen_of(alloc, tx, resource)?;
    Ok(Along {
        shares: shares.len() as u64,
        reports: reports.len() as u64,
        frozen: frozen.len() as u64,
    })
}

// What goes along with each of these resources.
fn along_each<S: Alter>(
    alloc: Global,
    tx: &mut Transaction<'_, S>,
    resources: &[Number],
) -> Result<Along, Refusal>
    ensures lent { LeavesLent S.Store tx.old.conn tx.new.conn result }
    ensures finds { Finds S.Store tx.old.conn.now tx.new.conn.now (λ kept along. along ≡ along_each kept.portfolio resources.now) result }
    ensures refused { IfErr result IsOfStore }
{
    let mut all = Along {
        shares: 0,
        reports: 0,
        frozen: 0,
    };
    'resources: for resource in resources {
        let one = along_one(alloc, tx, *resource)?;
        all = together(all, one)?;
    }
    Ok(all)
}

/// How many go with the resource of a number.
pub(crate) fn gone_with_resource<S: Alter>(
    alloc: Global,
    tx: &mut Transaction<'_, S>,
    resource: Number,
) -> Result<Gone, Refusal>
    ensures lent { LeavesLent S.Store tx.old.conn tx.new.conn result }
    ensures finds { Finds S.Store tx.old.conn.now tx.new.conn.now (λ kept gone. is_some (at nat_cmp resource kept.portfolio.resources) ≡ true → IsGone gone kept.portfolio (without_resource resource kept.portfolio)) result }
    ensures refused { IfErr result IsOfStore }
{
    let along = along_one(alloc, tx, resource)?;
    Ok(Gone {
        vens: 0,
        resources: 1,
        shares: along.shares,
        reports: along.reports,
        subs: 0,
        frozen: along.frozen,
    })
}

/// How many go with the ven of a number.
pub(crate) fn gone_with_ven<S: Alter>(
    alloc: Global,
    tx: &mut Transaction<'_, S>,
    ven: Number,
) -> Result<Gone, Refusal>
    ensures lent { LeavesLent S.Store tx.old.conn tx.new.conn result }
    ensures finds { Finds S.Store tx.old.conn.now tx.new.conn.now (λ kept gone. is_some (at nat_cmp ven kept.portfolio.vens) ≡ true → IsGone gone kept.portfolio (without_ven ven kept.portfolio)) result }
    ensures refused { IfErr result IsOfStore }
{
    let resources = read_resources_of(alloc, tx, ven)?;
    let along = along_each(alloc, tx, resources.as_slice())?;
    let subs = read_subs_of(alloc, tx, ven)?;
    Ok(Gone {
        vens: 1,
        resources: resources.len() as u64,
        shares: along.shares,
        reports: along.reports,
        subs: subs.len() as u64,
        frozen: along.frozen,
    })
}
