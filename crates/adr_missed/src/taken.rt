//! The first rows of a query whose rows are lent.
ghost use Rattle.std.specs.Prelude.{◌≡◌, IfOk, IfErr};
ghost use Rattle.sqlite.specs.Held.{state};
ghost use Rattle.sqlite.specs.State.{HasCleanDisk};
ghost use Rattle.adr_db.specs.Calls.{IsOfStore};
ghost use Rattle.adr_lent.specs.Lent.{Stands};
ghost use Rattle.adr_missed.specs.Taken.{is_enough, LendsFirst};

use adr_db::reading::FromRow;
use adr_lent::next_of;
use adr_text::{Refusal, Rows};
use sqlite::{Alter, Rows as LentRows};
use std::alloc::Global;

// Whether no more are wanted.
fn is_enough(limit: Option<u32>, count: usize) -> bool
    ensures { result ≡ is_enough limit count }
{
    match limit {
        Some(most) => count >= most as usize,
        None => false,
    }
}

/// The rows of a query at its start, read: all of them, or with a limit at most so many. No row is lent past the last one that
/// is wanted.
pub(crate) fn first_of<T: FromRow, S: Alter>(
    alloc: Global,
    rows: &mut LentRows<'_, S>,
    limit: Option<u32>,
) -> Result<Rows<T>, Refusal>
    ensures same_reference { rows.new.conn.ghost_name ≡ rows.old.conn.ghost_name }
    ensures lends { HasCleanDisk (state S.Store rows.new.conn.now) → IfOk result (LendsFirst S.Store T.reads limit rows.old.conn.now rows.new.conn.now) }
    ensures stands { Stands S.Store rows.old.conn.now rows.new.conn.now }
    ensures refused { IfErr result IsOfStore }
{
    let mut found = Vec::new(alloc);
    'rows: for _ in 0..u64::MAX {
        if is_enough(limit, found.len()) {
            return Ok(Rows::from_vec(found));
        }
        let Some(x) = next_of::<T, S>(alloc, rows)? else {
            return Ok(Rows::from_vec(found));
        };
        found.push(x)?;
    }
    Err(Refusal::Store)
}
