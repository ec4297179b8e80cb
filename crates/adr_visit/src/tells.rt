//! How changes are told.
ghost use Rattle.std.specs.Prelude.{◌≡◌, ℕ, List, IfOk};
ghost use Rattle.std.specs.List.{flat_map};
ghost use Rattle.adr_subscription.specs.declared.kept_sub.Sub.{Sub as SubOf};
ghost use Rattle.adr_delivery.specs.declared.entry.Entry.{Entry as EntryOf};
ghost use Rattle.adr_listeners.specs.Hearers.{heard_by};

use adr_delivery::Entry;
use adr_listeners::Hearers;
use adr_objects::Number;
use adr_subscription::Sub;
use adr_text::Table;
use std::alloc::{AllocError, Global};

/// What tells changes of one type, of items of another: those of what is shown of events, say, by the ids of these.
pub trait Tells<I, C> {
    /// The entries by which a change of an item is told, where these are the subscriptions.
    ghost told: { Self → List (ℕ × SubOf) → I → C → List EntryOf };

    /// Whose subscriptions may hear of a change: to others it is not told.
    fn hearers(&self, change: &C) -> Hearers
        ensures { (subs : List (ℕ × SubOf)) (item : I) → told self.now subs item change.now ≡ told self.now (heard_by result subs) item change.now };

    fn entries(
        &self,
        alloc: Global,
        subs: &Table<Number, Sub>,
        item: &I,
        change: &C,
    ) -> Result<Vec<Entry>, AllocError>
        ensures { IfOk result (λ entries. entries.items ≡ told self.now subs.now item.now change.now) };
}

/// The entries of the changes of an item, in their order.
pub(crate) fn entries_of<I, C, T: Tells<I, C>>(
    alloc: Global,
    teller: &T,
    subs: &Table<Number, Sub>,
    item: &I,
    changes: &[C],
) -> Result<Vec<Entry>, AllocError>
    ensures { IfOk result (λ entries. entries.items ≡ flat_map (T.told teller.now subs.now item.now) changes.now) }
{
    let mut all = Vec::new(alloc);
    for change in changes {
        let mut entries = teller.entries(alloc, subs, item, change)?;
        all.append(&mut entries)?;
    }
    Ok(all)
}
