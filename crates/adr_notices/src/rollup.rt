//! The entry by which a roll-up is told.
ghost use Rattle.std.specs.Prelude.{◌≡◌, IfOk};
ghost use Rattle.adr_notices.specs.RollupEntries.{rollup_entry};

use crate::notice::operation_kind;
use adr_delivery::{Addressee, Entry};
use adr_objects::{Rollup, RollupObject};
use adr_subscription::FreeText;
use adr_text::{Name, ObjectId};
use adr_view::Operation;
use adr_written::write_rollup;
use std::alloc::{AllocError, Global};

/// The entry by which the roll-up of an upstream event is told to the utility, under the node's name.
pub fn rollup_entry(
    alloc: Global,
    client: &Name,
    operation: Operation,
    event: &ObjectId,
    rollup: &Rollup,
) -> Result<Entry, AllocError>
    ensures { IfOk result (λ entry. entry ≡ rollup_entry client.now operation event.now rollup.now) }
{
    let object = RollupObject {
        client: client.clone()?,
        event: event.clone()?,
        rollup: rollup.clone()?,
    };
    let text = write_rollup(alloc, &object)?;
    Ok(Entry::new(
        Addressee::Utility(object.event),
        operation_kind(operation),
        FreeText::new(alloc, text.as_str())?,
    ))
}
