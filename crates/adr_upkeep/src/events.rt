//! The refresh of what is shown of an upstream event.
ghost use Rattle.std.specs.Prelude.{◌≡◌, All, IfOk, IfErr, OnOk};
ghost use Rattle.std.specs.Option.{option_copied};
ghost use Rattle.std.specs.Ordering.{nat_cmp};
ghost use Rattle.adr_state.specs.Keys.{at};
ghost use Rattle.adr_sql.specs.Calls.{LeavesLent};
ghost use Rattle.adr_db.specs.Calls.{Turns, IsOfStore};
ghost use Rattle.adr_kept_view.specs.Changes.{with_numbers, numbers_of, changes_found};
ghost use Rattle.adr_kept_view.specs.Laws.{ReadsFound};
ghost use Rattle.adr_kept_view.specs.Refreshed.{as_shown};
ghost use Rattle.adr_upkeep.specs.Calls.{RefreshesAlone, RefreshesSharing};
ghost use Rattle.adr_upkeep.specs.Turned.{kept_with_each};

use crate::found::find;
use crate::turn::turn_one;
use adr_db_portfolio::Sharers;
use adr_kept_view::{Found, ShownChange};
use adr_objects::Number;
use adr_state::push_some;
use adr_text::{Moment, ObjectId, Refusal, Rows, Table};
use sqlite::{Alter, Transaction};
use std::alloc::{AllocError, Global};
use std::collections::BTreeSet;

// What a map has at a number.
fn at_number<'m, V: Drop>(map: &'m Table<Number, V>, number: &Number) -> Option<&'m V>
    ensures { option_copied result ≡ at nat_cmp number.now map.now }
{
    map.get(number)
}

// Adds the numbers of a map.
fn add_numbers<V: Drop>(
    numbers: &mut BTreeSet<Number>,
    map: &Table<Number, V>,
) -> Result<(), AllocError>
    ensures { OnOk result (numbers.new.keys ≡ with_numbers numbers.old.keys map.now) }
{
    for (number, _) in map.iter() {
        numbers.insert(*number)?;
    }
    Ok(())
}

// The resources of which something is kept or shown.
fn numbers_of(alloc: Global, found: &Found) -> Result<BTreeSet<Number>, AllocError>
    ensures { IfOk result (λ numbers. numbers.keys ≡ numbers_of found.now) }
{
    let mut numbers = BTreeSet::new(alloc);
    add_numbers(&mut numbers, &found.kept)?;
    add_numbers(&mut numbers, &found.shown)?;
    Ok(numbers)
}

// What becomes of what each resource is shown is written, and the changes are answered.
fn turn_each<S: Alter>(
    alloc: Global,
    tx: &mut Transaction<'_, S>,
    event: &ObjectId,
    now: Moment,
    found: &Found,
) -> Result<Rows<ShownChange>, Refusal>
    ensures lent { LeavesLent S.Store tx.old.conn tx.new.conn result }
    ensures turns { Turns S.Store tx.old.conn.now tx.new.conn.now (kept_with_each event.now now found.now) (λ kept changes. changes ≡ changes_found kept.portfolio now found.now) result }
    ensures reads { OnOk result (All (ReadsFound found.now) (numbers_of found.now)) }
    ensures refused { IfErr result IsOfStore }
{
    let numbers = numbers_of(alloc, found)?;
    let mut changes = Vec::new(alloc);
    'resources: for resource in &numbers {
        let change = turn_one(
            alloc,
            tx,
            event,
            now,
            *resource,
            at_number(&found.kept, resource),
            at_number(&found.stamps, resource),
            at_number(&found.shown, resource),
        )?;
        push_some(&mut changes, change)?;
    }
    Ok(Rows::from_vec(changes))
}

/// What tables keep of an upstream event is compared with what is shown of it now, by the numbers of the resources: what
/// appears or differs is put, with its stamps, and what goes is removed with them; what stays is left alone. Answered are
/// exactly the changes, in the order of the keys, each with what is told of it. Those who share in its program are read
/// unless they are known, and known then: events of one program, one after another, read them once. That holds only until
/// something else of the portfolio is written.
pub fn refresh_sharing<S: Alter>(
    alloc: Global,
    tx: &mut Transaction<'_, S>,
    sharers: &mut Sharers,
    event: &ObjectId,
    now: Moment,
) -> Result<Rows<ShownChange>, Refusal>
    ensures lent { LeavesLent S.Store tx.old.conn tx.new.conn result }
    ensures refreshes { RefreshesSharing S.Store tx.old.conn.now tx.new.conn.now as_shown event.now now sharers.old sharers.new result }
    ensures refused { IfErr result IsOfStore }
{
    let found = find(alloc, tx, sharers, event)?;
    turn_each(alloc, tx, event, now, &found)
}

/// The same of one event alone.
pub fn refresh<S: Alter>(
    alloc: Global,
    tx: &mut Transaction<'_, S>,
    event: &ObjectId,
    now: Moment,
) -> Result<Rows<ShownChange>, Refusal>
    ensures lent { LeavesLent S.Store tx.old.conn tx.new.conn result }
    ensures refreshes { RefreshesAlone S.Store tx.old.conn.now tx.new.conn.now as_shown event.now now result }
    ensures refused { IfErr result IsOfStore }
{
    let mut sharers = Sharers::none(alloc);
    refresh_sharing(alloc, tx, &mut sharers, event, now)
}
