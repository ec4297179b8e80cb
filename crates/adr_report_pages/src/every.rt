//! All reports, whose rows are lent one after another.
ghost use Rattle.std.specs.Prelude.{IsTrue, ◌≡◌, take, drop, IfOk, OnOk, IfErr};
ghost use Rattle.sqlite.specs.Held.{state};
ghost use Rattle.sqlite.specs.State.{HasCleanDisk};
ghost use Rattle.adr_view.specs.declared.sight.Sight.TheVariants.{All};
ghost use Rattle.adr_db.specs.Calls.{IsOfStore};
ghost use Rattle.adr_db.specs.Kept.{Kept, Keeps};
ghost use Rattle.adr_lent.specs.Lent.{Stands};
ghost use Rattle.adr_report_pages.specs.Columns.{columns_in_sight, wanted_among};

use crate::wanted::ByColumns;
use adr_db::ReportColumns;
use adr_db::statement::refusal_of;
use adr_lent::{lend_reports, lent_page};
use adr_objects::Number;
use adr_queries::{Page, ReportFilter};
use adr_text::{Refusal, Rows};
use sqlite::{Alter, Connection, Error};
use std::alloc::Global;

/// The columns of the reports that are wanted, by number: after the first ones, at most so many. No row is read past the last
/// one that is needed, and no interval.
pub fn every_page<S: Alter>(
    alloc: Global,
    conn: &mut Connection<S>,
    filter: &ReportFilter,
    page: Page,
) -> Result<Rows<(Number, ReportColumns)>, Refusal>
    ensures finds { HasCleanDisk (state S.Store conn.new) → IfOk result (λ rows. (kept : Kept) → Keeps kept (state S.Store conn.old)
        → (rows ≡ take page.limit (drop page.skip (wanted_among filter.now (columns_in_sight kept All)))) × Keeps kept (state S.Store conn.new)) }
    ensures was_open { HasCleanDisk (state S.Store conn.new) → OnOk result (IsTrue (state S.Store conn.old).is_open) }
    ensures stands { Stands S.Store conn.old conn.new }
    ensures refused { IfErr result IsOfStore }
{
    let mut rows = match lend_reports(conn) {
        Ok(rows) => rows,
        Err(error) => return Err(refusal_of(error)),
    };
    let wanting = ByColumns { filter };
    lent_page::<(Number, ReportColumns), ByColumns<'_>, S>(alloc, &mut rows, &wanting, page)
}
