//! Values by their numbers, each by its own row, and a page of them.
ghost use Rattle.std.specs.Prelude.{◌≡◌, ◌≤◌, ◌+◌, length, filter, take, drop, option_to_list, OnOk, IfErr};
ghost use Rattle.adr_sql.specs.Calls.{LeavesLent};
ghost use Rattle.adr_db.specs.Calls.{Finds, IsOfStore};
ghost use Rattle.adr_site_pages.specs.ByNumbers.{AtNumber, CutsOn, entries_at, entry_at};
ghost use Rattle.adr_site_pages.specs.Sites.{ven_kept, resource_kept, sub_kept};

use adr_db_portfolio::{read_resource, read_sub, read_ven};
use adr_lent::{Wanting, offer};
use adr_objects::Number;
use adr_queries::Page;
use adr_state::{Resource, Ven};
use adr_subscription::Sub;
use adr_text::{Refusal, Rows};
use sqlite::{Alter, Transaction};
use std::alloc::Global;

/// What is kept behind numbers, each in a row of its own.
pub(crate) trait ByNumber: Drop {
    ghost kept_at: { AtNumber Self };

    /// That of a number, where there is one. No other row is read.
    fn read_at<S: Alter>(
        alloc: Global,
        tx: &mut Transaction<'_, S>,
        number: Number,
    ) -> Result<Option<Self>, Refusal>
        ensures lent { LeavesLent S.Store tx.old.conn tx.new.conn result }
        ensures finds { Finds S.Store tx.old.conn.now tx.new.conn.now (λ kept found. found ≡ kept_at number kept) result }
        ensures refused { IfErr result IsOfStore };
}

impl ByNumber for Ven {
    ghost kept_at = { ven_kept };

    fn read_at<S: Alter>(
        alloc: Global,
        tx: &mut Transaction<'_, S>,
        number: Number,
    ) -> Result<Option<Ven>, Refusal> {
        read_ven(alloc, tx, number)
    }
}

impl ByNumber for Resource {
    ghost kept_at = { resource_kept };

    fn read_at<S: Alter>(
        alloc: Global,
        tx: &mut Transaction<'_, S>,
        number: Number,
    ) -> Result<Option<Resource>, Refusal> {
        read_resource(alloc, tx, number)
    }
}

impl ByNumber for Sub {
    ghost kept_at = { sub_kept };

    fn read_at<S: Alter>(
        alloc: Global,
        tx: &mut Transaction<'_, S>,
        number: Number,
    ) -> Result<Option<Sub>, Refusal> {
        read_sub(alloc, tx, number)
    }
}

// That of a number, where there is one, is passed over or put, as it is wanted.
fn offer_at<T: ByNumber, W: Wanting<(Number, T)>, S: Alter>(
    alloc: Global,
    tx: &mut Transaction<'_, S>,
    wanting: &W,
    number: Number,
    left: &mut u32,
    found: &mut Vec<(Number, T)>,
) -> Result<(), Refusal>
    ensures lent { LeavesLent S.Store tx.old.conn tx.new.conn result }
    ensures cuts { Finds S.Store tx.old.conn.now tx.new.conn.now (λ kept done. CutsOn (W.wanted wanting.now) (option_to_list (entry_at T.kept_at number kept)) found.old.items left.old found.new.items left.new) result }
    ensures most { OnOk result (length found.new.items ≤ length found.old.items + 1) }
    ensures refused { IfErr result IsOfStore }
{
    let Some(value) = T::read_at(alloc, tx, number)? else {
        return Ok(());
    };
    Ok(offer(wanting, (number, value), left, found)?)
}

/// The page of what is kept at these numbers that is wanted. The rows are read one after another, as far as the page needs
/// them.
pub(crate) fn page_at<T: ByNumber, W: Wanting<(Number, T)>, S: Alter>(
    alloc: Global,
    tx: &mut Transaction<'_, S>,
    numbers: &[Number],
    wanting: &W,
    page: Page,
) -> Result<Rows<(Number, T)>, Refusal>
    ensures lent { LeavesLent S.Store tx.old.conn tx.new.conn result }
    ensures finds { Finds S.Store tx.old.conn.now tx.new.conn.now (λ kept rows. rows ≡ take page.limit (drop page.skip (filter (W.wanted wanting.now) (entries_at T.kept_at numbers.now kept)))) result }
    ensures refused { IfErr result IsOfStore }
{
    let mut found = Vec::new(alloc);
    let mut left = page.skip;
    'numbers: for number in numbers {
        if found.len() >= page.limit as usize {
            return Ok(Rows::from_vec(found));
        }
        offer_at::<T, W, S>(alloc, tx, wanting, *number, &mut left, &mut found)?;
    }
    Ok(Rows::from_vec(found))
}
