//! What a ven is told, by numbers: itself, its resources and its subscriptions.
ghost use Rattle.std.specs.Prelude.{◌≡◌, take, drop, IfOk, IfErr};
ghost use Rattle.adr_view.specs.declared.sight.Sight.TheVariants.{Of};
ghost use Rattle.adr_sql.specs.Calls.{LeavesLent};
ghost use Rattle.adr_db.specs.Calls.{Finds, IsOfStore};
ghost use Rattle.adr_site_pages.specs.Sites.{vens_seen, resources_under, subs_seen, wanted_among};

use crate::by_number::page_at;
use crate::wanted::{ByBody, Every};
use adr_db_portfolio::{read_resources_of, read_subs_of};
use adr_objects::Number;
use adr_queries::{Page, ReportFilter};
use adr_state::{Resource, Ven};
use adr_subscription::Sub;
use adr_text::{Refusal, Rows};
use sqlite::{Alter, Transaction};
use std::alloc::{AllocError, Global};

/// The page of the vens that a ven sees, which is itself, where it is there. No other ven is read.
pub fn own_vens_page<S: Alter>(
    alloc: Global,
    tx: &mut Transaction<'_, S>,
    ven: Number,
    page: Page,
) -> Result<Rows<(Number, Ven)>, Refusal>
    ensures lent { LeavesLent S.Store tx.old.conn tx.new.conn result }
    ensures finds { Finds S.Store tx.old.conn.now tx.new.conn.now (λ kept rows. rows ≡ take page.limit (drop page.skip (vens_seen (Of ven) kept.portfolio))) result }
    ensures refused { IfErr result IsOfStore }
{
    page_at::<Ven, Every, S>(alloc, tx, &[ven], &Every, page)
}

// The numbers behind the first ones.
fn behind(alloc: Global, numbers: Rows<Number>, skip: u32) -> Result<Vec<Number>, AllocError>
    ensures { IfOk result (λ later. later.items ≡ drop skip numbers) }
{
    numbers
        .into_vec()
        .into_iter()
        .skip(skip as usize)
        .collect(alloc)
}

/// The resources of a ven, by number: after the first ones, at most so many. Their numbers are read, and then the rows of those
/// that are told; no other resource is read.
pub fn resources_page<S: Alter>(
    alloc: Global,
    tx: &mut Transaction<'_, S>,
    ven: Number,
    page: Page,
) -> Result<Rows<(Number, Resource)>, Refusal>
    ensures lent { LeavesLent S.Store tx.old.conn tx.new.conn result }
    ensures finds { Finds S.Store tx.old.conn.now tx.new.conn.now (λ kept rows. rows ≡ take page.limit (drop page.skip (resources_under ven kept.portfolio))) result }
    ensures refused { IfErr result IsOfStore }
{
    let numbers = read_resources_of(alloc, tx, ven)?;
    let later = behind(alloc, numbers, page.skip)?;
    let part = Page {
        skip: 0,
        limit: page.limit,
    };
    page_at::<Resource, Every, S>(alloc, tx, &later, &Every, part)
}

/// The subscriptions of a ven that are wanted, by number: after the first ones, at most so many. Their numbers are read, and then
/// the rows one after another, as far as the page needs them; of others nothing is read.
pub fn own_subs_page<S: Alter>(
    alloc: Global,
    tx: &mut Transaction<'_, S>,
    ven: Number,
    filter: &ReportFilter,
    page: Page,
) -> Result<Rows<(Number, Sub)>, Refusal>
    ensures lent { LeavesLent S.Store tx.old.conn tx.new.conn result }
    ensures finds { Finds S.Store tx.old.conn.now tx.new.conn.now (λ kept rows. rows ≡ take page.limit (drop page.skip (wanted_among filter.now (subs_seen (Of ven) kept.portfolio)))) result }
    ensures refused { IfErr result IsOfStore }
{
    let numbers = read_subs_of(alloc, tx, ven)?;
    let wanting = ByBody { filter };
    page_at::<Sub, ByBody<'_>, S>(alloc, tx, numbers.as_slice(), &wanting, page)
}
