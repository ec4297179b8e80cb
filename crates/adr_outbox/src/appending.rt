//! Further entries are appended.
ghost use Rattle.std.specs.Prelude.{◌≡◌, ◌⊎◌, ◌+◌, ◌≤◌, ◌<◌, ◌^◌, if◌then◌else◌, length, IfErr, OnOk};
ghost use Rattle.std.specs.BTreeMap.{insert_entry};
ghost use Rattle.std.specs.Ordering.{nat_cmp};
ghost use Rattle.adr_text.specs.declared.refusal.Refusal.TheVariants.{Exhausted, OutboxFull};
ghost use Rattle.adr_delivery.specs.Outboxes.{with_entries};
ghost use Rattle.adr_state.specs.Digits.{most_number};
ghost use Rattle.adr_notices.specs.Committed.{numbered};
ghost use Rattle.adr_sql.specs.Calls.{LeavesLent};
ghost use Rattle.adr_db.specs.Kept.{with_waiting};
ghost use Rattle.adr_db.specs.Calls.{Turns, IsOfStore};
ghost use Rattle.adr_outbox.specs.Turned.{RefusesOutbox};
ghost use Rattle.adr_outbox.specs.Appended.{further, with_drawn, Appends};

use adr_db::Meta;
use adr_db_outbox::{put_entry, read_entry};
use adr_delivery::{Entry, check_room};
use adr_state::{Limits, Serial};
use adr_text::Refusal;
use sqlite::{Alter, Transaction};
use std::alloc::Global;

// The serial after one number more was drawn.
fn after_next(serial: Serial) -> Serial
    requires { serial + 1 ≤ most_number }
    ensures { result ≡ serial + 1 }
{
    let Some(serial) = Serial::at(serial.get() + 1) else {
        unreachable!()
    };
    serial
}

// How many entries wait once one was put, where one stood there or not.
fn waiting_after(pending: u64, is_there: bool) -> u64
    requires { pending + 1 < 2 ^ 64 }
    ensures { result ≡ (if is_there then pending else pending + 1) }
{
    if is_there { pending } else { pending + 1 }
}

/// One entry more, at the number that is drawn for it. It counts as one that waits where none stood at that number.
fn append_one<S: Alter>(
    alloc: Global,
    tx: &mut Transaction<'_, S>,
    meta: &mut Meta,
    entry: &Entry,
) -> Result<(), Refusal>
    requires drawn { meta.old.serial + 1 ≤ most_number }
    requires few { meta.old.pending + 1 < 2 ^ 64 }
    ensures lent { LeavesLent S.Store tx.old.conn tx.new.conn result }
    ensures turns { Turns S.Store tx.old.conn.now tx.new.conn.now (with_waiting (meta.old.serial + 1) entry.now) (λ kept _. meta.old.pending ≡ length kept.entries → meta.new ≡ with_drawn 1 (length (insert_entry nat_cmp kept.entries (meta.old.serial + 1) entry.now)) meta.old) result }
    ensures drawn { OnOk result (meta.new.serial ≡ meta.old.serial + 1) }
    ensures few { OnOk result (meta.new.pending ≤ meta.old.pending + 1) }
    ensures others { OnOk result (meta.new ≡ record meta.old { serial = meta.new.serial; pending = meta.new.pending }) }
    ensures refused { IfErr result IsOfStore }
{
    let number = meta.serial.next();
    let there = read_entry(alloc, tx, number)?;
    put_entry(tx, number, entry)?;
    meta.serial = after_next(meta.serial);
    meta.pending = waiting_after(meta.pending, there.is_some());
    Ok(())
}

/// Entries one after another, each at the number that is drawn next.
fn append_each<S: Alter>(
    alloc: Global,
    tx: &mut Transaction<'_, S>,
    meta: &mut Meta,
    entries: &[Entry],
) -> Result<(), Refusal>
    requires drawn { meta.old.serial + length entries.now ≤ most_number }
    requires few { meta.old.pending + length entries.now < 2 ^ 64 }
    ensures lent { LeavesLent S.Store tx.old.conn tx.new.conn result }
    ensures turns { Turns S.Store tx.old.conn.now tx.new.conn.now (λ kept. record kept { entries = with_entries (numbered meta.old.serial entries.now) kept.entries }) (λ kept _. meta.old.pending ≡ length kept.entries → meta.new ≡ with_drawn (length entries.now) (length (with_entries (numbered meta.old.serial entries.now) kept.entries)) meta.old) result }
    ensures refused { IfErr result IsOfStore }
{
    'entries: for entry in entries {
        append_one(alloc, tx, meta, entry)?;
    }
    Ok(())
}

/// Appends entries, each at the number that is drawn next for it. The numbers of the node are handed in, and are left as the
/// caller has to put them. Refused with `Exhausted` where there are no numbers for all of them, and then with `OutboxFull`
/// where all of them are more than may wait.
pub fn append<S: Alter>(
    alloc: Global,
    tx: &mut Transaction<'_, S>,
    limits: &Limits,
    meta: &mut Meta,
    entries: &[Entry],
) -> Result<(), Refusal>
    ensures lent { LeavesLent S.Store tx.old.conn tx.new.conn result }
    ensures appends { Appends S.Store tx.old.conn.now tx.new.conn.now limits.now entries.now meta.old meta.new result }
    ensures refuses { RefusesOutbox S.Store tx.old.conn.now tx.new.conn.now (further limits.now meta.old.serial entries.now) meta.old result }
    ensures refused { IfErr result (λ refusal. IsOfStore refusal ⊎ ((refusal ≡ Exhausted) ⊎ (refusal ≡ OutboxFull))) }
{
    check_room(
        limits.serial.get(),
        limits.pending.get(),
        meta.serial.get(),
        meta.pending as usize,
        entries.len(),
    )?;
    meta.counts.made = meta.counts.made.plus(entries.len() as u64);
    append_each(alloc, tx, meta, entries)
}
