//! What comes of a lease: the entry was sent, or its delivery failed.
ghost use Rattle.std.specs.Prelude.{◌≡◌, ◌⊎◌, Ok, IfErr, OnOk};
ghost use Rattle.std.specs.Option.{option_copied};
ghost use Rattle.adr_text.specs.declared.refusal.Refusal.TheVariants.{LeaseLost};
ghost use Rattle.adr_delivery.specs.Outboxes.{entry_leased, with_remote, without_remote, sent, failed};
ghost use Rattle.adr_sql.specs.Calls.{LeavesLent};
ghost use Rattle.adr_db.specs.Calls.{Finds, LeavesKept, IsOfStore};
ghost use Rattle.adr_db.specs.BaseCalls.{Refuses};
ghost use Rattle.adr_outbox.specs.Turned.{TurnsOutbox, RefusesOutbox};
ghost use Rattle.adr_outbox.specs.Told.{done};
ghost use Rattle.adr_outbox.specs.Settled.{with_lease, after_failed, counted_failed};

use adr_db::Meta;
use adr_db_outbox::{put_entry, put_remote, read_entry, remove_entry, remove_remote};
use adr_delivery::{Addressee, Entry};
use adr_objects::Number;
use adr_text::{Moment, ObjectId, Refusal};
use sqlite::{Alter, Transaction};
use std::alloc::Global;

// The entry that was found, where it has the lease of that number; else `LeaseLost`.
fn with_lease(lease: u64, found: Option<Entry>) -> Result<Entry, Refusal>
    ensures gives { result ≡ with_lease lease found }
    ensures refused { IfErr result (λ refusal. refusal ≡ LeaseLost) }
{
    let Some(entry) = found else {
        return Err(Refusal::LeaseLost);
    };
    if !entry.delivery.has_lease(lease) {
        return Err(Refusal::LeaseLost);
    }
    Ok(entry)
}

// The entry of that number, where it has the lease of that number; else `LeaseLost`.
fn entry_leased<S: Alter>(
    alloc: Global,
    tx: &mut Transaction<'_, S>,
    number: Number,
    lease: u64,
) -> Result<Entry, Refusal>
    ensures lent { LeavesLent S.Store tx.old.conn tx.new.conn result }
    ensures finds { Finds S.Store tx.old.conn.now tx.new.conn.now (λ kept entry. entry_leased number lease kept.entries ≡ Ok entry) result }
    ensures refuses { Refuses S.Store tx.old.conn.now tx.new.conn.now (λ kept. entry_leased number lease kept.entries) result }
    ensures refused { IfErr result (λ refusal. IsOfStore refusal ⊎ (refusal ≡ LeaseLost)) }
{
    let found = read_entry(alloc, tx, number)?;
    with_lease(lease, found)
}

// Notes the utility's id of the report that the entry told it, if there is one.
fn note_remote<S: Alter>(
    tx: &mut Transaction<'_, S>,
    addressee: &Addressee,
    remote: Option<&ObjectId>,
) -> Result<(), Refusal>
    ensures lent { LeavesLent S.Store tx.old.conn tx.new.conn result }
    ensures leaves { LeavesKept S.Store tx.old.conn.now tx.new.conn.now (λ kept. record kept { remotes = with_remote addressee.now (option_copied remote.entry) kept.remotes }) result }
    ensures refused { IfErr result IsOfStore }
{
    match (addressee, remote) {
        (Addressee::Utility(event), Some(remote)) => put_remote(tx, event, remote),
        _ => Ok(()),
    }
}

// Forgets the utility's id of the report, where that is asked for.
fn forget_remote<S: Alter>(
    tx: &mut Transaction<'_, S>,
    addressee: &Addressee,
    forget: bool,
) -> Result<(), Refusal>
    ensures lent { LeavesLent S.Store tx.old.conn tx.new.conn result }
    ensures leaves { LeavesKept S.Store tx.old.conn.now tx.new.conn.now (λ kept. record kept { remotes = without_remote addressee.now forget kept.remotes }) result }
    ensures refused { IfErr result IsOfStore }
{
    match (addressee, forget) {
        (Addressee::Utility(event), true) => remove_remote(tx, event),
        _ => Ok(()),
    }
}

/// The entry of that number was sent under the lease of that number, and leaves; the utility's id of what it was sent is
/// noted. The numbers of the node are handed in, and are left as the caller has to put them. Refused with `LeaseLost` where
/// it has no such lease.
pub fn sent<S: Alter>(
    alloc: Global,
    tx: &mut Transaction<'_, S>,
    meta: &mut Meta,
    number: Number,
    lease: u64,
    remote: Option<&ObjectId>,
) -> Result<(), Refusal>
    ensures lent { LeavesLent S.Store tx.old.conn tx.new.conn result }
    ensures turns { TurnsOutbox S.Store tx.old.conn.now tx.new.conn.now (λ o. done (sent number lease (option_copied remote.entry) o)) meta.old meta.new result }
    ensures refuses { RefusesOutbox S.Store tx.old.conn.now tx.new.conn.now (sent number lease (option_copied remote.entry)) meta.old result }
    ensures refused { IfErr result (λ refusal. IsOfStore refusal ⊎ (refusal ≡ LeaseLost)) }
{
    let entry = entry_leased(alloc, tx, number, lease)?;
    note_remote(tx, &entry.addressee, remote)?;
    remove_entry(tx, number)?;
    meta.pending = meta.pending.saturating_sub(1);
    meta.counts.sent = meta.counts.sent.plus(1);
    Ok(())
}

// The entry, which stands at that number, waits for its next time, or is given up.
fn after_failure<S: Alter>(
    tx: &mut Transaction<'_, S>,
    meta: &mut Meta,
    now: Moment,
    number: Number,
    entry: &Entry,
) -> Result<(), Refusal>
    ensures lent { LeavesLent S.Store tx.old.conn tx.new.conn result }
    ensures leaves { LeavesKept S.Store tx.old.conn.now tx.new.conn.now (after_failed now number entry.now) result }
    ensures counted { OnOk result (meta.new ≡ counted_failed now entry.now meta.old) }
    ensures refused { IfErr result IsOfStore }
{
    match entry.delivery.after_failure(now) {
        Some(delivery) => put_entry(tx, number, &entry.with_delivery(delivery)?),
        None => {
            meta.pending = meta.pending.saturating_sub(1);
            meta.counts.given_up = meta.counts.given_up.plus(1);
            remove_entry(tx, number)
        }
    }
}

/// The entry of that number failed under the lease of that number: it is due again after a wait, or, where it failed for
/// the eighth time, leaves. The utility's id of what it was to be sent is forgotten where that is asked for. The numbers of
/// the node are handed in, and are left as the caller has to put them. Refused with `LeaseLost` where it has no such lease.
pub fn failed<S: Alter>(
    alloc: Global,
    tx: &mut Transaction<'_, S>,
    meta: &mut Meta,
    now: Moment,
    number: Number,
    lease: u64,
    forget: bool,
) -> Result<(), Refusal>
    ensures lent { LeavesLent S.Store tx.old.conn tx.new.conn result }
    ensures turns { TurnsOutbox S.Store tx.old.conn.now tx.new.conn.now (λ o. done (failed now number lease forget o)) meta.old meta.new result }
    ensures refuses { RefusesOutbox S.Store tx.old.conn.now tx.new.conn.now (failed now number lease forget) meta.old result }
    ensures refused { IfErr result (λ refusal. IsOfStore refusal ⊎ (refusal ≡ LeaseLost)) }
{
    let entry = entry_leased(alloc, tx, number, lease)?;
    after_failure(tx, meta, now, number, &entry)?;
    forget_remote(tx, &entry.addressee, forget)
}
