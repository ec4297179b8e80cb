//! The table `head`: the number of the first entry of each destination. It follows from the entries that wait, and is set
//! right behind each of them that comes or goes.
ghost use Rattle.std.specs.Prelude.{◌≡◌, ◌==◌, false, Some, None, IfErr};
ghost use Rattle.std.specs.Option.{option_map_or};
ghost use Rattle.adr_sql.specs.Calls.{LeavesLent};
ghost use Rattle.adr_db.specs.Rows.{number_row, head_row};
ghost use Rattle.adr_db.specs.Refusals.{RefusesToPut, RefusesToShow, CannotReadFirst};
ghost use Rattle.adr_db.specs.Admitted.{IsNumber, ReadsNumber};
ghost use Rattle.adr_db.specs.Calls.{ChangesHeads, FindsBesideHeads, IsOfStore};
ghost use Rattle.adr_db_outbox.specs.Refused.{RefusesToSet, RefusesToSetSome};
ghost use Rattle.adr_db_outbox.specs.Heads.{first_at, with_head, set_right, set_right_where, set_right_both};

use adr_db::cells::number;
use adr_db::reading::first_number;
use adr_db::statement::run;
use adr_objects::Number;
use adr_text::Refusal;
use sqlite::{Alter, Transaction};

const PUT: &str =
    "INSERT INTO head (dest, entry) VALUES (?1, ?2) ON CONFLICT (dest) DO UPDATE SET dest = excluded.dest, entry = excluded.entry";

const REMOVE: &str = "DELETE FROM head WHERE dest = ?1";

const READ_FIRST: &str = "SELECT id FROM outbox WHERE dest = ?1 ORDER BY id LIMIT 1";

// Puts the number of the first entry of a destination.
fn put_head<S: Alter>(
    tx: &mut Transaction<'_, S>,
    dest: Number,
    entry: Number,
) -> Result<(), Refusal>
    ensures lent { LeavesLent S.Store tx.old.conn tx.new.conn result }
    ensures changes { ChangesHeads S.Store tx.old.conn.now tx.new.conn.now (λ kept. kept) (λ kept heads. with_head dest (Some entry) heads) result }
    ensures refused { IfErr result IsOfStore }
    ensures fails { RefusesToPut S.Store tx.old.conn.now tx.new.conn.now PUT.now (head_row (dest, entry)) result }
{
    run(tx, PUT, &[number(dest.get())?, number(entry.get())?])
}

// A destination to which no entry goes has no number.
fn remove_head<S: Alter>(tx: &mut Transaction<'_, S>, dest: Number) -> Result<(), Refusal>
    ensures lent { LeavesLent S.Store tx.old.conn tx.new.conn result }
    ensures changes { ChangesHeads S.Store tx.old.conn.now tx.new.conn.now (λ kept. kept) (λ kept heads. with_head dest None heads) result }
    ensures refused { IfErr result IsOfStore }
    ensures fails { RefusesToPut S.Store tx.old.conn.now tx.new.conn.now REMOVE.now (number_row dest) result }
{
    run(tx, REMOVE, &[number(dest.get())?])
}

// The number of the first entry that goes to a destination, from the table `outbox`.
fn read_first<S: Alter>(
    tx: &mut Transaction<'_, S>,
    dest: Number,
) -> Result<Option<Number>, Refusal>
    ensures lent { LeavesLent S.Store tx.old.conn tx.new.conn result }
    ensures finds { FindsBesideHeads S.Store tx.old.conn.now tx.new.conn.now (λ kept first. first ≡ first_at dest kept) result }
    ensures refused { IfErr result IsOfStore }
    ensures fails { RefusesToShow S.Store tx.old.conn.now tx.new.conn.now READ_FIRST.now (number_row dest) (CannotReadFirst IsNumber ReadsNumber) result }
{
    first_number(tx, READ_FIRST, &[number(dest.get())?])
}

// Sets right what a destination has.
fn set_head<S: Alter>(tx: &mut Transaction<'_, S>, dest: Number) -> Result<(), Refusal>
    ensures lent { LeavesLent S.Store tx.old.conn tx.new.conn result }
    ensures changes { ChangesHeads S.Store tx.old.conn.now tx.new.conn.now (λ kept. kept) (set_right dest) result }
    ensures refused { IfErr result IsOfStore }
    ensures fails { RefusesToSet S.Store tx.old.conn.now tx.new.conn.now dest result }
{
    let first = read_first(tx, dest)?;
    match first {
        Some(entry) => put_head(tx, dest, entry),
        None => remove_head(tx, dest),
    }
}

/// Sets right what a destination has, where there is one.
pub(crate) fn set_head_where<S: Alter>(
    tx: &mut Transaction<'_, S>,
    dest: Option<Number>,
) -> Result<(), Refusal>
    ensures lent { LeavesLent S.Store tx.old.conn tx.new.conn result }
    ensures changes { ChangesHeads S.Store tx.old.conn.now tx.new.conn.now (λ kept. kept) (set_right_where dest) result }
    ensures refused { IfErr result IsOfStore }
    ensures fails { RefusesToSetSome S.Store tx.old.conn.now tx.new.conn.now result }
{
    match dest {
        Some(dest) => set_head(tx, dest),
        None => Ok(()),
    }
}

// Whether that destination is this one.
fn is_same(left: &Option<Number>, reached: Number) -> bool
    ensures { result ≡ option_map_or (λ dest. dest == reached) left.now false }
{
    match left {
        Some(dest) => dest.get() == reached.get(),
        None => false,
    }
}

/// Sets right what the destinations have of the entry that was at a number, if there was one, and of the one that is there
/// now. Where they are one destination, its first entry has the number that it had.
pub(crate) fn set_both_heads<S: Alter>(
    tx: &mut Transaction<'_, S>,
    left: Option<Number>,
    reached: Number,
) -> Result<(), Refusal>
    ensures lent { LeavesLent S.Store tx.old.conn tx.new.conn result }
    ensures changes { ChangesHeads S.Store tx.old.conn.now tx.new.conn.now (λ kept. kept) (set_right_both left reached) result }
    ensures refused { IfErr result IsOfStore }
    ensures fails { RefusesToSetSome S.Store tx.old.conn.now tx.new.conn.now result }
{
    if is_same(&left, reached) {
        return Ok(());
    }
    set_head_where(tx, left)?;
    set_head(tx, reached)
}
