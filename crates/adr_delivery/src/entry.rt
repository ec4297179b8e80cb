//! Entries of the outbox.
ghost use Rattle.std.specs.Prelude.{◌≡◌, IfOk};
ghost use Rattle.adr_delivery.specs.Entries.{fresh};

use crate::addressee::Addressee;
use crate::delivery::Delivery;
use adr_subscription::{FreeText, OperationKind};
use std::alloc::AllocError;

/// One message that waits to be sent.
#[derive(Clone)]
pub struct Entry {
    pub addressee: Addressee,
    /// What was done to the object that it tells of (OpenADR 3.0, operation).
    pub operation: OperationKind,
    /// The bytes of the request's body, a JSON text.
    pub body: FreeText,
    pub delivery: Delivery,
}

impl Drop for Entry {
    fn drop(self) {
        let Entry {
            addressee: _,
            operation: _,
            body: _,
            delivery: _,
        } = self;
    }
}

impl Entry {
    /// An entry that was not tried yet.
    pub fn new(addressee: Addressee, operation: OperationKind, body: FreeText) -> Entry
        ensures { result ≡ fresh addressee operation body }
    {
        Entry {
            addressee,
            operation,
            body,
            delivery: Delivery::untried(),
        }
    }

    /// The same entry again.
    pub fn copy(&self) -> Result<Entry, AllocError>
        ensures { IfOk result (λ entry. entry ≡ self.now) }
    {
        self.clone()
    }

    /// The same entry, whose delivery stands like this.
    pub fn with_delivery(&self, delivery: Delivery) -> Result<Entry, AllocError>
        ensures { IfOk result (λ entry. entry ≡ record self.now { delivery = delivery }) }
    {
        let mut entry = self.clone()?;
        entry.delivery = delivery;
        Ok(entry)
    }
}
