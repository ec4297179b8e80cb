//! All that is told of the changes of a command.
ghost use Rattle.std.specs.Prelude.{◌≡◌, IfOk};
ghost use Rattle.adr_notices.specs.Made.{entries_noticed, entries_at, judged_in, entries_of_change, entries_made};

use crate::entries::entries_of;
use crate::notice::{Notice, notice_of};
use crate::rollup::rollup_entry;
use crate::shown::Shown;
use adr_delivery::Entry;
use adr_objects::Number;
use adr_state::ViewKey;
use adr_subscription::Sub;
use adr_text::{Name, Rows, Table};
use adr_view::{Change, Content, Operation};
use std::alloc::{AllocError, Global};

/// The entries by which it is told, where there is something to tell.
fn entries_noticed(
    alloc: Global,
    subs: &Table<Number, Sub>,
    notice: Option<Notice>,
) -> Result<Vec<Entry>, AllocError>
    ensures { IfOk result (λ entries. entries.items ≡ entries_noticed subs.now notice) }
{
    match notice {
        Some(notice) => entries_of(alloc, subs, &notice),
        None => Ok(Vec::new(alloc)),
    }
}

/// The entries by which a change is told of what stands at a key: of a roll-up to the utility alone, and of anything
/// else to the subscriptions that match.
fn entries_at(
    alloc: Global,
    client: &Name,
    subs: &Table<Number, Sub>,
    shown: &Shown,
    operation: Operation,
    key: &ViewKey,
    content: &Content,
) -> Result<Vec<Entry>, AllocError>
    ensures { IfOk result (λ entries. entries.items ≡ entries_at client.now subs.now shown.now operation key.now content.now) }
{
    match (key, content) {
        (ViewKey::Rollup(event), Content::Rollup(rollup)) => {
            let entry = rollup_entry(alloc, client, operation, event, rollup)?;
            Ok(vec![in alloc; entry]?)
        }
        _ => {
            let notice = notice_of(alloc, shown.base(), shown.stamps(), operation, key, content)?;
            entries_noticed(alloc, subs, notice)
        }
    }
}

/// Where a change is judged: what appears or differs as it is after the command, and what goes as it was before.
fn judged_in<'a, 's>(
    operation: Operation,
    before: &'a Shown<'s>,
    after: &'a Shown<'s>,
) -> &'a Shown<'s>
    ensures { result.now ≡ judged_in operation before.now after.now }
{
    match operation {
        Operation::Post | Operation::Put => after,
        Operation::Delete => before,
    }
}

/// The entries by which a change is told to the subscriptions that there are after the command, and to the utility.
pub fn entries_of_change(
    alloc: Global,
    client: &Name,
    subs: &Table<Number, Sub>,
    before: &Shown,
    after: &Shown,
    change: &Change,
) -> Result<Vec<Entry>, AllocError>
    ensures { IfOk result (λ entries. entries.items ≡ entries_of_change client.now subs.now before.now after.now change.now) }
{
    let shown = judged_in(change.operation, before, after);
    match shown.content_at(&change.key) {
        Some(content) => entries_at(
            alloc,
            client,
            subs,
            shown,
            change.operation,
            &change.key,
            content,
        ),
        None => Ok(Vec::new(alloc)),
    }
}

/// The entries by which the changes are told, in their order, and those of one change in the order of the
/// subscriptions' numbers.
pub fn entries_made(
    alloc: Global,
    client: &Name,
    subs: &Table<Number, Sub>,
    before: &Shown,
    after: &Shown,
    changes: &[Change],
) -> Result<Rows<Entry>, AllocError>
    ensures { IfOk result (λ entries. entries ≡ entries_made client.now subs.now before.now after.now changes.now) }
{
    let mut all = Vec::new(alloc);
    for change in changes {
        let mut more = entries_of_change(alloc, client, subs, before, after, change)?;
        all.append(&mut more)?;
    }
    Ok(Rows::from_vec(all))
}
