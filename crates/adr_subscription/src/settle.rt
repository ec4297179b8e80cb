//! The address of each item: one that may be called, as it is kept.
ghost use Rattle.std.specs.Prelude.{◌≡◌, ◌≢◌, Err, length, IfOk};
ghost use Rattle.adr_text.specs.Refusals.{Gives};
ghost use Rattle.adr_text.specs.declared.refusal.Refusal.TheVariants.{Store};
ghost use Rattle.adr_subscription.specs.Callbacks.{settled_address, settled_item, settled_items, settled};

use crate::address::callback_address;
use crate::bounded::Bounded;
use crate::free_text::FreeText;
use crate::item::SubscriptionItem;
use crate::subscription::SubIn;
use adr_text::Refusal;
use std::alloc::Global;

// The address as it is kept.
fn settled_address(alloc: Global, address: &FreeText) -> Result<FreeText, Refusal>
    ensures { Gives (λ kept. kept) result (settled_address address.now) }
{
    let url = callback_address(alloc, address.as_str())?;
    Ok(FreeText::new(alloc, url.as_str())?)
}

fn settled_item(alloc: Global, item: SubscriptionItem) -> Result<SubscriptionItem, Refusal>
    ensures { Gives (λ kept. kept) result (settled_item item) }
{
    let callback_url = settled_address(alloc, &item.callback_url)?;
    Ok(SubscriptionItem {
        objects: item.objects,
        operations: item.operations,
        callback_url,
        bearer_token: item.bearer_token,
    })
}

// Each item in turn, up to the first refusal.
fn settled_items(
    alloc: Global,
    items: Vec<SubscriptionItem>,
) -> Result<Vec<SubscriptionItem>, Refusal>
    ensures items { Gives (λ kept. kept.items) result (settled_items items.items) }
    ensures len { IfOk result (λ kept. length kept.items ≡ length items.items) }
{
    let mut kept = Vec::new(alloc);
    for item in items {
        kept.push(settled_item(alloc, item)?)?;
    }
    Ok(kept)
}

/// The subscription as it is kept, where each of its addresses may be called: a URL of at most 1,024
/// bytes, by `http`, with no user or password, at an IP address or at `localhost`. It is kept as the
/// URL is written. Otherwise `BadShape`.
#[tactic(auto, unfolding(crate::specs::Callbacks::settled))]
pub fn settled(alloc: Global, sub: SubIn) -> Result<SubIn, Refusal>
    ensures gives { Gives (λ kept. kept) result (settled sub) }
    ensures no_store { result ≢ Err Store }
{
    let items = settled_items(alloc, sub.items.into_vec())?;
    Ok(SubIn {
        client_name: sub.client_name,
        program: sub.program,
        items: Bounded::of(items),
        targets: sub.targets,
    })
}
