//! A page of what is kept of shown events.
ghost use Rattle.std.specs.Prelude.{IsTrue, ◌≡◌, true, take, drop, filter, IfOk, OnOk, IfErr};
ghost use Rattle.sqlite.specs.Held.{state};
ghost use Rattle.sqlite.specs.State.{HasCleanDisk};
ghost use Rattle.adr_db.specs.Calls.{IsOfStore};
ghost use Rattle.adr_db.specs.Kept.{Kept, Keeps};
ghost use Rattle.adr_lent.specs.Lent.{Stands};
ghost use Rattle.adr_lent.specs.Pages.{kept_for, wants_row, wanted_among};
ghost use Rattle.adr_lent.specs.Picks.{picks, picked_part};

use crate::cut::{Wanting, lent_page};
use crate::picked::{Picked, shown_to, wanted};
use crate::shown::lend_picked;
use adr_db::statement::refusal_of;
use adr_db::{ShownColumns, ShownKey};
use adr_objects::Number;
use adr_queries::{EventFilter, Page, wants};
use adr_text::{Refusal, Rows};
use sqlite::{Alter, Connection};
use std::alloc::Global;

/// By the columns alone: the text of the object is not read.
impl Wanting<(ShownKey, ShownColumns)> for EventFilter {
    ghost wanted = { λ f entry. wants_row f entry.1 };

    fn is_wanted(&self, entry: &(ShownKey, ShownColumns)) -> bool {
        let columns = &entry.1;
        wants(
            self,
            &columns.program,
            &columns.ven_name,
            &columns.resource_name,
        )
    }
}

/// Where no other rows are lent than those that are wanted.
struct Each;

impl<T> Wanting<T> for Each {
    ghost wanted = { λ each value. true };

    fn is_wanted(&self, _: &T) -> bool {
        true
    }
}

// The page of those that are wanted of the ones that are picked, or of a part of these.
fn page_in<W: Wanting<(ShownKey, ShownColumns)>, S: Alter>(
    alloc: Global,
    conn: &mut Connection<S>,
    picked: &Picked,
    part: Option<Page>,
    wanting: &W,
    page: Page,
) -> Result<Rows<(ShownKey, ShownColumns)>, Refusal>
    ensures finds { HasCleanDisk (state S.Store conn.new) → IfOk result (λ rows. (kept : Kept) → Keeps kept (state S.Store conn.old)
        → (rows ≡ take page.limit (drop page.skip (filter (W.wanted wanting.now) (picked_part picked.now part kept)))) × Keeps kept (state S.Store conn.new)) }
    ensures was_open { HasCleanDisk (state S.Store conn.new) → OnOk result (IsTrue (state S.Store conn.old).is_open) }
    ensures stands { Stands S.Store conn.old conn.new }
    ensures refused { IfErr result IsOfStore }
{
    let mut rows = match lend_picked(conn, picked, part) {
        Ok(rows) => rows,
        Err(error) => return Err(refusal_of(error)),
    };
    lent_page::<(ShownKey, ShownColumns), W, S>(alloc, &mut rows, wanting, page)
}

// The page of those that are picked: its rows alone are lent.
fn page_of<S: Alter>(
    alloc: Global,
    conn: &mut Connection<S>,
    picked: &Picked,
    page: Page,
) -> Result<Rows<(ShownKey, ShownColumns)>, Refusal>
    ensures finds { HasCleanDisk (state S.Store conn.new) → IfOk result (λ rows. (kept : Kept) → Keeps kept (state S.Store conn.old)
        → (rows ≡ take page.limit (drop page.skip (filter (picks picked.now) kept.shown))) × Keeps kept (state S.Store conn.new)) }
    ensures was_open { HasCleanDisk (state S.Store conn.new) → OnOk result (IsTrue (state S.Store conn.old).is_open) }
    ensures stands { Stands S.Store conn.old conn.new }
    ensures refused { IfErr result IsOfStore }
{
    let first = Page {
        skip: 0,
        limit: page.limit,
    };
    page_in::<Each, S>(alloc, conn, picked, Some(page), &Each, first)
}

// The page of those that are wanted, each of which is looked at.
fn page_among<S: Alter>(
    alloc: Global,
    conn: &mut Connection<S>,
    ven: Option<Number>,
    filter: &EventFilter,
    page: Page,
) -> Result<Rows<(ShownKey, ShownColumns)>, Refusal>
    ensures finds { HasCleanDisk (state S.Store conn.new) → IfOk result (λ rows. (kept : Kept) → Keeps kept (state S.Store conn.old)
        → (rows ≡ take page.limit (drop page.skip (wanted_among filter.now (kept_for ven kept.shown)))) × Keeps kept (state S.Store conn.new)) }
    ensures was_open { HasCleanDisk (state S.Store conn.new) → OnOk result (IsTrue (state S.Store conn.old).is_open) }
    ensures stands { Stands S.Store conn.old conn.new }
    ensures refused { IfErr result IsOfStore }
{
    let picked = shown_to(ven);
    page_in::<EventFilter, S>(alloc, conn, &picked, None, filter, page)
}

/// What is kept of the shown events that are wanted, of all or of those of one ven, in the order of their keys: after the
/// first ones, at most so many. No row is read past the last one that is needed, and no text of an object is looked at. Where
/// what is asked for stands in one column, the statement looks for it.
pub fn shown_page<S: Alter>(
    alloc: Global,
    conn: &mut Connection<S>,
    ven: Option<Number>,
    filter: &EventFilter,
    page: Page,
) -> Result<Rows<(ShownKey, ShownColumns)>, Refusal>
    ensures finds { HasCleanDisk (state S.Store conn.new) → IfOk result (λ rows. (kept : Kept) → Keeps kept (state S.Store conn.old)
        → (rows ≡ take page.limit (drop page.skip (wanted_among filter.now (kept_for ven kept.shown)))) × Keeps kept (state S.Store conn.new)) }
    ensures was_open { HasCleanDisk (state S.Store conn.new) → OnOk result (IsTrue (state S.Store conn.old).is_open) }
    ensures stands { Stands S.Store conn.old conn.new }
    ensures refused { IfErr result IsOfStore }
{
    let Some(picked) = wanted(alloc, &ven, filter)? else {
        return page_among(alloc, conn, ven, filter, page);
    };
    page_of(alloc, conn, &picked, page)
}
