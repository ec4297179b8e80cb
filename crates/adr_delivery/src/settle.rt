//! What comes of a lease: the entry was sent, or its delivery failed.
ghost use Rattle.std.specs.Prelude.{◌≡◌, ◌≢◌, Ok, Err, IfOk, IfErr, OnErr, OnOk};
ghost use Rattle.std.specs.Option.{option_copied};
ghost use Rattle.adr_text.specs.declared.refusal.Refusal.TheVariants.{Store};
ghost use Rattle.adr_text.specs.Refusals.{IsRefusalOf};
ghost use Rattle.adr_delivery.specs.Outboxes.{entry_leased, with_remote, without_remote, sent, failed, failed_at};

use crate::addressee::Addressee;
use crate::entry::Entry;
use crate::outbox::Outbox;
use adr_objects::Number;
use adr_text::{Moment, ObjectId, Refusal, Table};
use std::alloc::AllocError;

/// The entry of that number, where it has the lease of that number; else `LeaseLost`.
fn entry_leased(
    entries: &Table<Number, Entry>,
    number: Number,
    lease: u64,
) -> Result<Entry, Refusal>
    ensures ok { IfOk result (λ entry. entry_leased number lease entries.now ≡ Ok entry) }
    ensures refused { IfErr result (λ refusal. IsRefusalOf refusal (entry_leased number lease entries.now)) }
    ensures no_store { result ≢ Err Store }
{
    let Some(entry) = entries.get(&number) else {
        return Err(Refusal::LeaseLost);
    };
    if !entry.delivery.has_lease(lease) {
        return Err(Refusal::LeaseLost);
    }
    Ok(entry.copy()?)
}

impl Outbox {
    /// Notes the utility's id of the report that the entry told it, if there is one.
    fn note_remote(
        &mut self,
        addressee: &Addressee,
        remote: Option<&ObjectId>,
    ) -> Result<(), AllocError>
        ensures ok { OnOk result (self.new ≡ record self.old { remotes = with_remote addressee.now (option_copied remote.entry) self.old.remotes }) }
        ensures unchanged { OnErr result (self.new ≡ self.old) }
    {
        match (addressee, remote) {
            (Addressee::Utility(event), Some(remote)) => {
                self.remotes.put(event.clone()?, remote.clone()?)
            }
            _ => Ok(()),
        }
    }

    /// Forgets the utility's id of the report, where that is asked for.
    fn forget_remote(&mut self, addressee: &Addressee, forget: bool)
        ensures { self.new ≡ record self.old { remotes = without_remote addressee.now forget self.old.remotes } }
    {
        match (addressee, forget) {
            (Addressee::Utility(event), true) => {
                self.remotes.remove(event);
            }
            _ => {}
        }
    }

    /// The entry of that number was sent under the lease of that number, and leaves; the utility's id of what it was sent
    /// is noted. Refused with `LeaseLost` where it has no such lease.
    pub fn sent(
        &mut self,
        number: Number,
        lease: u64,
        remote: Option<&ObjectId>,
    ) -> Result<(), Refusal>
        ensures ok { OnOk result (sent number lease (option_copied remote.entry) self.old ≡ Ok self.new) }
        ensures refused { IfErr result (λ refusal. IsRefusalOf refusal (sent number lease (option_copied remote.entry) self.old)) }
        ensures no_store { result ≢ Err Store }
        ensures unchanged { OnErr result (self.new ≡ self.old) }
    {
        let entry = entry_leased(&self.entries, number, lease)?;
        self.note_remote(&entry.addressee, remote)?;
        self.entries.remove(&number);
        self.counts.sent = self.counts.sent.plus(1);
        Ok(())
    }

    /// The entry, which stands at that number, waits for its next time, or is given up.
    fn after_failure(
        &mut self,
        now: Moment,
        number: Number,
        entry: &Entry,
    ) -> Result<(), AllocError>
        ensures ok { OnOk result (self.new ≡ failed_at now number entry.now self.old) }
        ensures unchanged { OnErr result (self.new ≡ self.old) }
    {
        match entry.delivery.after_failure(now) {
            Some(delivery) => {
                let waiting = entry.with_delivery(delivery)?;
                self.entries.put(number, waiting)?;
            }
            None => {
                self.entries.remove(&number);
                self.counts.given_up = self.counts.given_up.plus(1);
            }
        }
        Ok(())
    }

    /// The entry of that number failed under the lease of that number: it is due again after a wait, or, where it failed
    /// for the eighth time, leaves. The utility's id of what it was to be sent is forgotten where that is asked for.
    /// Refused with `LeaseLost` where it has no such lease.
    pub fn failed(
        &mut self,
        now: Moment,
        number: Number,
        lease: u64,
        forget: bool,
    ) -> Result<(), Refusal>
        ensures ok { OnOk result (failed now number lease forget self.old ≡ Ok self.new) }
        ensures refused { IfErr result (λ refusal. IsRefusalOf refusal (failed now number lease forget self.old)) }
        ensures no_store { result ≢ Err Store }
        ensures unchanged { OnErr result (self.new ≡ self.old) }
    {
        let entry = entry_leased(&self.entries, number, lease)?;
        self.after_failure(now, number, &entry)?;
        self.forget_remote(&entry.addressee, forget);
        Ok(())
    }
}
