//! A page of what is wanted of the rows of a query, cut as they are lent.
ghost use Rattle.std.specs.Prelude.{◌≡◌, ◌≤◌, ◌+◌, ℕ, Bool, List, [], ◌∷◌, ◌++◌, length, filter, IfOk, OnOk, IfErr};
ghost use Rattle.sqlite.specs.Held.{state};
ghost use Rattle.sqlite.specs.State.{HasCleanDisk};
ghost use Rattle.adr_db.specs.Calls.{IsOfStore};
ghost use Rattle.adr_lent.specs.Lent.{Stands};
ghost use Rattle.adr_lent.specs.Pages.{IsCut, LendsPage};

use crate::stream::next_of;
use adr_db::reading::FromRow;
use adr_queries::Page;
use adr_text::{Refusal, Rows};
use sqlite::{Alter, Rows as LentRows};
use std::alloc::{AllocError, Global};

/// Which values are wanted.
pub trait Wanting<T> {
    ghost wanted: { Self → T → Bool };

    fn is_wanted(&self, value: &T) -> bool
        ensures { result ≡ wanted self.now value.now };
}

/// What is wanted is passed over while some are left to skip, and else put.
pub fn offer<T: Drop, W: Wanting<T>>(
    wanting: &W,
    value: T,
    left: &mut u32,
    found: &mut Vec<T>,
) -> Result<(), AllocError>
    ensures cut { OnOk result ((skip : ℕ) (so_far : List T) → IsCut skip so_far found.old.items left.old → IsCut skip (so_far ++ filter (W.wanted wanting.now) (value ∷ [])) found.new.items left.new) }
    ensures most { OnOk result (length found.new.items ≤ length found.old.items + 1) }
{
    if !wanting.is_wanted(&value) {
        return Ok(());
    }
    if *left > 0 {
        *left -= 1;
        return Ok(());
    }
    Ok(found.push(value)?)
}

/// The rows that are wanted of a query at its start, read: after the first ones, at most so many. No row is lent past the last
/// one that the page needs.
pub fn lent_page<T: FromRow, W: Wanting<T>, S: Alter>(
    alloc: Global,
    rows: &mut LentRows<'_, S>,
    wanting: &W,
    page: Page,
) -> Result<Rows<T>, Refusal>
    ensures same_reference { rows.new.conn.ghost_name ≡ rows.old.conn.ghost_name }
    ensures lends { HasCleanDisk (state S.Store rows.new.conn.now) → IfOk result (LendsPage S.Store T.reads (W.wanted wanting.now) page rows.old.conn.now rows.new.conn.now) }
    ensures stands { Stands S.Store rows.old.conn.now rows.new.conn.now }
    ensures refused { IfErr result IsOfStore }
{
    let mut found = Vec::new(alloc);
    let mut left = page.skip;
    'rows: for _ in 0..u64::MAX {
        if found.len() >= page.limit as usize {
            return Ok(Rows::from_vec(found));
        }
        let Some(value) = next_of::<T, S>(alloc, rows)? else {
            return Ok(Rows::from_vec(found));
        };
        offer(wanting, value, &mut left, &mut found)?;
    }
    Err(Refusal::Store)
}
