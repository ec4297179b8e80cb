//! To whom a change is told: the subscriptions that match, and the entry that each of them gets.
ghost use Rattle.std.specs.Prelude.{◌≡◌, option_map, IfOk};
ghost use Rattle.adr_notices.specs.Matching.{is_about, is_in_sight, is_meant, is_for, matching, entry_by, entry_for, entries_of};

use crate::notice::{EventNames, Notice};
use adr_delivery::{Addressee, Entry};
use adr_objects::Number;
use adr_state::push_some;
use adr_subscription::{ObjectKind, Sub, SubIn, SubscriptionItem, is_targeted, item_for};
use adr_text::{ObjectId, Table};
use std::alloc::{AllocError, Global};

/// Whether what is told is about the program, where one is asked for.
fn is_about(program: &Option<ObjectId>, notice: &Notice) -> bool
    ensures { result ≡ is_about program.now notice.now }
{
    match program {
        Some(program) => notice.program == *program,
        None => true,
    }
}

/// Whether the object is in sight of the ven, or, where there is none, of the operator.
fn is_in_sight(owner: Option<Number>, notice: &Notice) -> bool
    ensures { result ≡ is_in_sight owner notice.now }
{
    let Some(owner) = owner else {
        return true;
    };
    if notice.kind == ObjectKind::Program {
        return true;
    }
    match notice.ven {
        Some(ven) => ven == owner,
        None => false,
    }
}

/// Whether the subscription is about the event of those names, where it is an event that is told.
fn is_meant(sub: &SubIn, names: &Option<EventNames>) -> bool
    ensures { result ≡ is_meant sub.now names.now }
{
    match names {
        Some(names) => is_targeted(sub, &names.ven_name, &names.resource_name),
        None => true,
    }
}

fn is_for(sub: &Sub, notice: &Notice) -> bool
    ensures { result ≡ is_for sub.now notice.now }
{
    is_about(&sub.body.program, notice)
        && is_in_sight(sub.owner, notice)
        && is_meant(&sub.body, &notice.names)
}

/// The item by which it is told to a subscription, where that matches.
pub fn matching<'s>(sub: &'s Sub, notice: &Notice) -> Option<&'s SubscriptionItem>
    ensures { option_map (λ item. item.now) result ≡ matching sub.now notice.now }
{
    if !is_for(sub, notice) {
        return None;
    }
    item_for(&sub.body, notice.kind, notice.operation)
}

/// The entry for a subscription, at the address and with the token of an item.
fn entry_by(number: Number, notice: &Notice, item: &SubscriptionItem) -> Result<Entry, AllocError>
    ensures { IfOk result (λ entry. entry ≡ entry_by number notice.now item.now) }
{
    let addressee = Addressee::Subscriber {
        subscription: number,
        address: item.callback_url.clone()?,
        token: item.bearer_token.clone()?,
    };
    Ok(Entry::new(addressee, notice.operation, notice.body.clone()?))
}

/// The entry for the subscription of a number, where it matches.
pub fn entry_for(number: Number, sub: &Sub, notice: &Notice) -> Result<Option<Entry>, AllocError>
    ensures { IfOk result (λ entry. entry ≡ entry_for notice.now (number, sub.now)) }
{
    match matching(sub, notice) {
        Some(item) => Ok(Some(entry_by(number, notice, item)?)),
        None => Ok(None),
    }
}

/// The entries for the subscriptions that match, in the order of their numbers.
pub fn entries_of(
    alloc: Global,
    subs: &Table<Number, Sub>,
    notice: &Notice,
) -> Result<Vec<Entry>, AllocError>
    ensures { IfOk result (λ entries. entries.items ≡ entries_of subs.now notice.now) }
{
    let mut entries = Vec::new(alloc);
    for (number, sub) in subs.iter() {
        push_some(&mut entries, entry_for(*number, sub, notice)?)?;
    }
    Ok(entries)
}
