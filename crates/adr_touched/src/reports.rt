//! The reports that go with a ven.
ghost use Rattle.std.specs.Prelude.{◌==◌, IfErr};
ghost use Rattle.std.specs.List.{list_any};
ghost use Rattle.adr_sql.specs.Calls.{LeavesLent};
ghost use Rattle.adr_state.specs.Portfolios.{is_of_ven};
ghost use Rattle.adr_refresh.specs.Touched.{reports_by};
ghost use Rattle.adr_db.specs.Calls.{Finds, IsOfStore};
ghost use Rattle.adr_touched.specs.Answers.{HasEach};

use adr_db_portfolio::{read_reports_on, read_resources_of};
use adr_objects::Number;
use adr_text::{Refusal, Rows};
use sqlite::{Alter, Transaction};
use std::alloc::Global;

// The numbers of the reports on each of these resources.
fn reports_of_resources<S: Alter>(
    alloc: Global,
    tx: &mut Transaction<'_, S>,
    resources: Rows<Number>,
) -> Result<Rows<Number>, Refusal>
    ensures lent { LeavesLent S.Store tx.old.conn tx.new.conn result }
    ensures finds { Finds S.Store tx.old.conn.now tx.new.conn.now (λ kept numbers. HasEach numbers (reports_by (λ m. list_any (λ n. m == n) resources) kept.portfolio)) result }
    ensures refused { IfErr result IsOfStore }
{
    let mut all = Vec::new(alloc);
    'resources: for resource in resources.into_vec() {
        let mut numbers = read_reports_on(alloc, tx, resource)?.into_vec();
        all.append(&mut numbers)?;
    }
    Ok(Rows::from_vec(all))
}

/// The numbers of the reports on the resources of a ven, resource by resource.
pub fn reports_of_ven<S: Alter>(
    alloc: Global,
    tx: &mut Transaction<'_, S>,
    ven: Number,
) -> Result<Rows<Number>, Refusal>
    ensures lent { LeavesLent S.Store tx.old.conn tx.new.conn result }
    ensures finds { Finds S.Store tx.old.conn.now tx.new.conn.now (λ kept numbers. HasEach numbers (reports_by (is_of_ven ven kept.portfolio.resources) kept.portfolio)) result }
    ensures refused { IfErr result IsOfStore }
{
    let resources = read_resources_of(alloc, tx, ven)?;
    reports_of_resources(alloc, tx, resources)
}
