//! The next entry is leased.
ghost use Rattle.std.specs.Prelude.{◌≡◌, ◌≢◌, Ok, Err, IfOk, IfErr, OnErr};
ghost use Rattle.adr_text.specs.declared.refusal.Refusal.TheVariants.{Store};
ghost use Rattle.adr_text.specs.Refusals.{IsRefusalOf};
ghost use Rattle.adr_delivery.specs.Outboxes.{lease_next};

use crate::entry::Entry;
use crate::outbox::Outbox;
use adr_objects::Number;
use adr_text::{Moment, Refusal};
use std::alloc::Global;

impl Outbox {
    /// Leases the next entry, if there is one, for 30 seconds from now, and answers it with its lease. Refused with
    /// `Exhausted` where it had `most` leases.
    pub fn lease(
        &mut self,
        alloc: Global,
        most: u64,
        now: Moment,
    ) -> Result<Option<(Number, Entry)>, Refusal>
        ensures ok { IfOk result (λ next. lease_next most now self.old ≡ Ok (next, self.new)) }
        ensures refused { IfErr result (λ refusal. IsRefusalOf refusal (lease_next most now self.old)) }
        ensures no_store { result ≢ Err Store }
        ensures unchanged { OnErr result (self.new ≡ self.old) }
    {
        let Some((number, mut entry)) = self.next(alloc, now)? else {
            return Ok(None);
        };
        entry.delivery = entry.delivery.leased(most, now)?;
        let told = entry.copy()?;
        self.entries.put(number, entry)?;
        Ok(Some((number, told)))
    }
}
