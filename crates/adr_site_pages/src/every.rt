//! All vens and all subscriptions, whose rows are lent one after another.
ghost use Rattle.std.specs.Prelude.{IsTrue, ◌≡◌, take, drop, IfOk, OnOk, IfErr};
ghost use Rattle.sqlite.specs.Held.{state};
ghost use Rattle.sqlite.specs.State.{HasCleanDisk};
ghost use Rattle.adr_db.specs.Calls.{IsOfStore};
ghost use Rattle.adr_db.specs.Kept.{Kept, Keeps};
ghost use Rattle.adr_lent.specs.Lent.{Stands};
ghost use Rattle.adr_site_pages.specs.Sites.{wanted_among};

use crate::wanted::{ByBody, Every};
use adr_db::statement::refusal_of;
use adr_lent::{lend_subs, lend_vens, lent_page};
use adr_objects::Number;
use adr_queries::{Page, ReportFilter};
use adr_state::Ven;
use adr_subscription::Sub;
use adr_text::{Refusal, Rows};
use sqlite::{Alter, Connection, Error};
use std::alloc::Global;

/// The vens, by number: after the first ones, at most so many. No row is read past the last one that is needed.
pub fn vens_page<S: Alter>(
    alloc: Global,
    conn: &mut Connection<S>,
    page: Page,
) -> Result<Rows<(Number, Ven)>, Refusal>
    ensures finds { HasCleanDisk (state S.Store conn.new) → IfOk result (λ rows. (kept : Kept) → Keeps kept (state S.Store conn.old)
        → (rows ≡ take page.limit (drop page.skip kept.portfolio.vens)) × Keeps kept (state S.Store conn.new)) }
    ensures was_open { HasCleanDisk (state S.Store conn.new) → OnOk result (IsTrue (state S.Store conn.old).is_open) }
    ensures stands { Stands S.Store conn.old conn.new }
    ensures refused { IfErr result IsOfStore }
{
    let mut rows = match lend_vens(conn) {
        Ok(rows) => rows,
        Err(error) => return Err(refusal_of(error)),
    };
    lent_page::<(Number, Ven), Every, S>(alloc, &mut rows, &Every, page)
}

/// The subscriptions that are wanted, by number: after the first ones, at most so many. No row is read past the last one that
/// is needed.
pub fn subs_page<S: Alter>(
    alloc: Global,
    conn: &mut Connection<S>,
    filter: &ReportFilter,
    page: Page,
) -> Result<Rows<(Number, Sub)>, Refusal>
    ensures finds { HasCleanDisk (state S.Store conn.new) → IfOk result (λ rows. (kept : Kept) → Keeps kept (state S.Store conn.old)
        → (rows ≡ take page.limit (drop page.skip (wanted_among filter.now kept.portfolio.subs))) × Keeps kept (state S.Store conn.new)) }
    ensures was_open { HasCleanDisk (state S.Store conn.new) → OnOk result (IsTrue (state S.Store conn.old).is_open) }
    ensures stands { Stands S.Store conn.old conn.new }
    ensures refused { IfErr result IsOfStore }
{
    let mut rows = match lend_subs(conn) {
        Ok(rows) => rows,
        Err(error) => return Err(refusal_of(error)),
    };
    let wanting = ByBody { filter };
    lent_page::<(Number, Sub), ByBody<'_>, S>(alloc, &mut rows, &wanting, page)
}
