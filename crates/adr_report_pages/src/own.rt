//! The reports on the resources of a ven, by their numbers.
ghost use Rattle.std.specs.Prelude.{◌≡◌, ◌≤◌, ◌+◌, length, map, filter, take, drop, option_to_list, None, IfSome, OnOk, IfErr};
ghost use Rattle.std.specs.List.{filter_map};
ghost use Rattle.std.specs.Ordering.{nat_cmp};
ghost use Rattle.adr_state.specs.Keys.{with_rows};
ghost use Rattle.adr_view.specs.declared.sight.Sight.TheVariants.{Of};
ghost use Rattle.adr_sql.specs.Calls.{LeavesLent};
ghost use Rattle.adr_db.specs.Calls.{Finds, IsOfStore};
ghost use Rattle.adr_db.specs.Images.{image_kept};
ghost use Rattle.adr_queries.specs.Reported.{sees_report};
ghost use Rattle.adr_report_pages.specs.Cuts.{CutsOn};
ghost use Rattle.adr_report_pages.specs.Firsts.{HaveFirst};
ghost use Rattle.adr_report_pages.specs.Columns.{with_resource, on_any, entry_at, columns_in_sight, wanted_among};

use crate::by_key::read_numbers_on;
use crate::wanted::ByColumns;
use adr_db::ReportColumns;
use adr_db_portfolio::{read_columns, read_resources_of};
use adr_lent::offer;
use adr_objects::Number;
use adr_queries::{Page, ReportFilter};
use adr_text::{Refusal, Rows, Table};
use sqlite::{Alter, Transaction};
use std::alloc::{AllocError, Global};

// Puts the numbers of reports on a resource among others, each in its place in their order.
fn put_numbers(
    numbers: &mut Table<Number, Number>,
    more: Rows<Number>,
    resource: Number,
) -> Result<(), AllocError>
    ensures { OnOk result (numbers.new ≡ with_rows nat_cmp numbers.old (map (λ n. (n, resource)) more)) }
{
    'numbers: for number in more.into_vec() {
        numbers.put(number, resource)?;
    }
    Ok(())
}

// How many of the reports on each resource a page needs at most: where all are wanted, so many as it and those before it have.
fn most_of(filter: &ReportFilter, page: Page) -> Option<u32>
    ensures { IfSome result (λ most. (filter.now.programs ≡ None) × (filter.now.clients ≡ None) × (most ≡ page.skip + page.limit)) }
{
    match (&filter.programs, &filter.clients) {
        (None, None) => page.skip.checked_add(page.limit),
        _ => None,
    }
}

// The numbers of the reports on these resources, in their order, each with that of its resource: of the first ones on each,
// where there is a limit. Nothing else of a report is read.
fn numbers_on<S: Alter>(
    alloc: Global,
    tx: &mut Transaction<'_, S>,
    resources: Rows<Number>,
    most: Option<u32>,
) -> Result<Table<Number, Number>, Refusal>
    ensures lent { LeavesLent S.Store tx.old.conn tx.new.conn result }
    ensures finds { Finds S.Store tx.old.conn.now tx.new.conn.now (λ kept numbers. HaveFirst most (λ r. on_any resources (with_resource r)) kept.portfolio.reports numbers) result }
    ensures refused { IfErr result IsOfStore }
{
    let mut numbers = Table::new(alloc);
    'resources: for resource in resources.into_vec() {
        let more = read_numbers_on(alloc, tx, resource, most)?;
        put_numbers(&mut numbers, more, resource)?;
    }
    Ok(numbers)
}

// The numbers of the reports on the resources of a ven, in their order, each with that of its resource: of the first ones, and
// of others on the same resources, where there is a limit.
fn own_numbers<S: Alter>(
    alloc: Global,
    tx: &mut Transaction<'_, S>,
    ven: Number,
    most: Option<u32>,
) -> Result<Table<Number, Number>, Refusal>
    ensures lent { LeavesLent S.Store tx.old.conn tx.new.conn result }
    ensures finds { Finds S.Store tx.old.conn.now tx.new.conn.now (λ kept numbers. HaveFirst most (sees_report (image_kept kept).base (Of ven)) kept.portfolio.reports numbers) result }
    ensures refused { IfErr result IsOfStore }
{
    let resources = read_resources_of(alloc, tx, ven)?;
    numbers_on(alloc, tx, resources, most)
}

// The report of a number, where there is one, is passed over or put, as it is wanted.
fn offer_at<S: Alter>(
    alloc: Global,
    tx: &mut Transaction<'_, S>,
    filter: &ReportFilter,
    number: Number,
    left: &mut u32,
    found: &mut Vec<(Number, ReportColumns)>,
) -> Result<(), Refusal>
    ensures lent { LeavesLent S.Store tx.old.conn tx.new.conn result }
    ensures cuts { Finds S.Store tx.old.conn.now tx.new.conn.now (λ kept done. CutsOn filter.now (option_to_list (entry_at number kept)) found.old.items left.old found.new.items left.new) result }
    ensures most { OnOk result (length found.new.items ≤ length found.old.items + 1) }
    ensures refused { IfErr result IsOfStore }
{
    let Some(columns) = read_columns(alloc, tx, number)? else {
        return Ok(());
    };
    Ok(offer(&ByColumns { filter }, (number, columns), left, found)?)
}

// The page of the reports of these numbers that are wanted. Their columns are read one after another, as far as the page needs
// them.
fn page_at<S: Alter>(
    alloc: Global,
    tx: &mut Transaction<'_, S>,
    numbers: &Table<Number, Number>,
    filter: &ReportFilter,
    page: Page,
) -> Result<Rows<(Number, ReportColumns)>, Refusal>
    ensures lent { LeavesLent S.Store tx.old.conn tx.new.conn result }
    ensures finds { Finds S.Store tx.old.conn.now tx.new.conn.now (λ kept rows. rows ≡ take page.limit (drop page.skip (wanted_among filter.now (filter_map (λ e. entry_at e.0 kept) numbers.now)))) result }
    ensures refused { IfErr result IsOfStore }
{
    let mut found = Vec::new(alloc);
    let mut left = page.skip;
    for (number, _resource) in numbers.iter() {
        if found.len() >= page.limit as usize {
            return Ok(Rows::from_vec(found));
        }
        offer_at(alloc, tx, filter, *number, &mut left, &mut found)?;
    }
    Ok(Rows::from_vec(found))
}

/// The columns of the reports on the resources of a ven that are wanted, by number: after the first ones, at most so many. Of
/// those on its resources the numbers are read, and then the columns one after another, as far as the page needs them; where
/// all are wanted no more numbers on each resource than the page can need. Of others nothing is read, and no interval.
pub fn own_page<S: Alter>(
    alloc: Global,
    tx: &mut Transaction<'_, S>,
    ven: Number,
    filter: &ReportFilter,
    page: Page,
) -> Result<Rows<(Number, ReportColumns)>, Refusal>
    ensures lent { LeavesLent S.Store tx.old.conn tx.new.conn result }
    ensures finds { Finds S.Store tx.old.conn.now tx.new.conn.now (λ kept rows. rows ≡ take page.limit (drop page.skip (wanted_among filter.now (columns_in_sight kept (Of ven))))) result }
    ensures refused { IfErr result IsOfStore }
{
    let most = most_of(filter, page);
    let numbers = own_numbers(alloc, tx, ven, most)?;
    page_at(alloc, tx, &numbers, filter, page)
}
