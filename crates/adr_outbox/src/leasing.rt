//! The next entry is leased.
ghost use Rattle.std.specs.Prelude.{◌≡◌, ◌⊎◌, IfErr};
ghost use Rattle.adr_text.specs.declared.refusal.Refusal.TheVariants.{Exhausted};
ghost use Rattle.adr_text.specs.Refusals.{IsRefusalOf};
ghost use Rattle.adr_delivery.specs.Deliveries.{leased};
ghost use Rattle.adr_delivery.specs.Outboxes.{remote_for};
ghost use Rattle.adr_sql.specs.Calls.{LeavesLent};
ghost use Rattle.adr_db.specs.declared.meta.Meta.{Meta as MetaOf};
ghost use Rattle.adr_db.specs.Images.{outbox_of};
ghost use Rattle.adr_db.specs.Calls.{Finds, IsOfStore};
ghost use Rattle.adr_outbox.specs.Turned.{TurnsOutbox, RefusesOutbox};
ghost use Rattle.adr_outbox.specs.Told.{job_leased};
ghost use Rattle.adr_outbox.specs.Leased.{LeasesEntry};

use adr_db_outbox::{put_entry, read_next, read_remote};
use adr_delivery::{Addressee, Entry, Job, job_for};
use adr_objects::Number;
use adr_text::{Moment, ObjectId, Refusal};
use sqlite::{Alter, Transaction};
use std::alloc::Global;

// The utility's id of the report that tells of the same event, where it was sent one.
fn remote_for<S: Alter>(
    alloc: Global,
    tx: &mut Transaction<'_, S>,
    addressee: &Addressee,
) -> Result<Option<ObjectId>, Refusal>
    ensures lent { LeavesLent S.Store tx.old.conn tx.new.conn result }
    ensures finds { Finds S.Store tx.old.conn.now tx.new.conn.now (λ kept found. (numbers : MetaOf) → found ≡ remote_for addressee.now (outbox_of numbers kept)) result }
    ensures refused { IfErr result IsOfStore }
{
    match addressee.event() {
        Some(event) => read_remote(alloc, tx, event),
        None => Ok(None),
    }
}

// The entry, which stands at that number, has one lease more, and is told as what is to be sent of it.
fn lease_entry<S: Alter>(
    alloc: Global,
    tx: &mut Transaction<'_, S>,
    most: u64,
    now: Moment,
    number: Number,
    entry: &Entry,
) -> Result<Job, Refusal>
    ensures lent { LeavesLent S.Store tx.old.conn tx.new.conn result }
    ensures leases { LeasesEntry S.Store tx.old.conn.now tx.new.conn.now most now number entry.now result }
    ensures refuses { IfErr result (λ refusal. IsRefusalOf refusal (leased most now entry.now.delivery)) }
    ensures refused { IfErr result (λ refusal. IsOfStore refusal ⊎ (refusal ≡ Exhausted)) }
{
    let leased = entry.with_delivery(entry.delivery.leased(most, now)?)?;
    put_entry(tx, number, &leased)?;
    let remote = remote_for(alloc, tx, &leased.addressee)?;
    Ok(job_for(alloc, number, &leased, remote.as_ref())?)
}

/// Leases the next entry, if there is one, for 30 seconds from now, and answers what is to be sent of it. Refused with
/// `Exhausted` where it had `most` leases.
pub fn lease<S: Alter>(
    alloc: Global,
    tx: &mut Transaction<'_, S>,
    most: u64,
    now: Moment,
) -> Result<Option<Job>, Refusal>
    ensures lent { LeavesLent S.Store tx.old.conn tx.new.conn result }
    ensures turns { (numbers : MetaOf) → TurnsOutbox S.Store tx.old.conn.now tx.new.conn.now (job_leased most now) numbers numbers result }
    ensures refuses { (numbers : MetaOf) → RefusesOutbox S.Store tx.old.conn.now tx.new.conn.now (job_leased most now) numbers result }
    ensures refused { IfErr result (λ refusal. IsOfStore refusal ⊎ (refusal ≡ Exhausted)) }
{
    match read_next(alloc, tx, now)? {
        Some(next) => Ok(Some(lease_entry(alloc, tx, most, now, next.0, &next.1)?)),
        None => Ok(None),
    }
}
