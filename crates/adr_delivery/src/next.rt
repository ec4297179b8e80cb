//! Which entry leaves next.
ghost use Rattle.std.specs.Prelude.{◌≡◌, IfOk};
ghost use Rattle.adr_delivery.specs.Next.{next_entry, may_be_next};

use crate::entry::Entry;
use crate::outbox::Outbox;
use adr_objects::Number;
use adr_text::Moment;
use std::alloc::{AllocError, Global};
use std::collections::BTreeSet;

fn may_be_next(seen: &BTreeSet<Number>, now: Moment, entry: &Entry) -> bool
    ensures { result ≡ may_be_next seen.now.keys now entry.now }
{
    entry.delivery.may_leave(now) && !seen.contains(&entry.addressee.destination())
}

impl Outbox {
    /// The first entry that may leave, of those before which none of their destination waits.
    pub(crate) fn next(
        &self,
        alloc: Global,
        now: Moment,
    ) -> Result<Option<(Number, Entry)>, AllocError>
        ensures { IfOk result (λ next. next ≡ next_entry now self.now.entries) }
    {
        let mut seen = BTreeSet::new(alloc);
        for (number, entry) in self.entries.iter() {
            if may_be_next(&seen, now, entry) {
                return Ok(Some((*number, entry.copy()?)));
            }
            seen.insert(entry.addressee.destination())?;
        }
        Ok(None)
    }
}
