//! The numbers of the reports on a resource.
ghost use Rattle.std.specs.Prelude.{◌≡◌, ◌==◌, filter, map, IfErr};
ghost use Rattle.adr_state.specs.Portfolios.{reported_on};
ghost use Rattle.adr_sql.specs.Calls.{LeavesLent};
ghost use Rattle.adr_db.specs.Calls.{Finds, IsOfStore};
ghost use Rattle.adr_db.specs.Kept.{at_most};

use adr_db::cells::{number, row_limit};
use adr_db::reading::all_of;
use adr_objects::Number;
use adr_text::{Refusal, Rows};
use sqlite::{Alter, Transaction};
use std::alloc::Global;

const READ_ON: &str = "SELECT id FROM report WHERE resource = ?1 ORDER BY id LIMIT ?2";

/// The numbers of the reports on a resource, in their order: of the first ones, where there is a limit. Nothing else of them
/// is read, and no row behind the last of them.
pub(crate) fn read_numbers_on<S: Alter>(
    alloc: Global,
    tx: &mut Transaction<'_, S>,
    resource: Number,
    most: Option<u32>,
) -> Result<Rows<Number>, Refusal>
    ensures lent { LeavesLent S.Store tx.old.conn tx.new.conn result }
    ensures finds { Finds S.Store tx.old.conn.now tx.new.conn.now (λ kept numbers. numbers ≡ map (λ r. r.0) (at_most most (filter (λ r. reported_on r == resource) kept.portfolio.reports))) result }
    ensures refused { IfErr result IsOfStore }
{
    let n = number(resource.get())?;
    all_of(alloc, tx, READ_ON, &[n, row_limit(most)])
}
