//! Events whose participants and weights are kept against later edits of shares.
ghost use Rattle.std.specs.Prelude.{◌≡◌, not, map, filter, IfOk, OnOk};
ghost use Rattle.adr_state.specs.Keys.{frozen_cmp, with_rows};
ghost use Rattle.adr_state.specs.Frozen.{is_frozen, frozen_weight, is_of_event, pairs_kept, frozen_row, with_frozen};

use crate::keys::FrozenKey;
use crate::portfolio::{Portfolio, Weight};
use adr_objects::Number;
use adr_text::{ObjectId, Rows, Table};
use std::alloc::{AllocError, Global};

/// Whether the shares of the event are frozen.
pub fn is_frozen(portfolio: &Portfolio, event: &ObjectId) -> bool
    ensures { result ≡ is_frozen portfolio.now event.now }
{
    portfolio.frozen.get(event).is_some()
}

/// The weight that is kept for the resource in the event, where there is one.
pub fn frozen_weight(
    portfolio: &Portfolio,
    event: &ObjectId,
    resource: Number,
) -> Result<Option<Weight>, AllocError>
    ensures { IfOk result (λ weight. weight ≡ frozen_weight portfolio.now event.now resource) }
{
    let key = FrozenKey {
        event: event.clone()?,
        resource,
    };
    Ok(portfolio.frozen_shares.get(&key).copied())
}

/// The pairs that are kept for the event, in the order of the resources' numbers.
pub fn pairs_kept(
    alloc: Global,
    portfolio: &Portfolio,
    event: &ObjectId,
) -> Result<Rows<(Number, Weight)>, AllocError>
    ensures { IfOk result (λ pairs. pairs ≡ pairs_kept portfolio.now event.now) }
{
    let mut pairs = Vec::new(alloc);
    for (key, weight) in portfolio.frozen_shares.iter() {
        if key.event == *event {
            pairs.push((key.resource, *weight))?;
        }
    }
    Ok(Rows::from_vec(pairs))
}

/// Removes what is kept for the event.
fn remove_pairs(shares: &mut Table<FrozenKey, Weight>, event: &ObjectId)
    ensures { shares.new ≡ filter (λ s. not (is_of_event event.now s)) shares.old }
{
    shares.retain(|key, _| key.event != *event)
}

/// Puts pairs for the event, each in its place.
fn put_pairs(
    shares: &mut Table<FrozenKey, Weight>,
    event: &ObjectId,
    pairs: &[(Number, Weight)],
) -> Result<(), AllocError>
    ensures { OnOk result (shares.new ≡ with_rows frozen_cmp shares.old (map (frozen_row event.now) pairs.now)) }
{
    for pair in pairs {
        let key = FrozenKey {
            event: event.clone()?,
            resource: pair.0,
        };
        shares.put(key, pair.1)?;
    }
    Ok(())
}

impl Portfolio {
    /// Freezes the event, with these pairs as what is kept for it. One that is frozen already stays as it is.
    /// Where memory runs out the portfolio is left anyhow.
    pub fn freeze(&mut self, event: &ObjectId, pairs: &[(Number, Weight)]) -> Result<(), AllocError>
        ensures { OnOk result (self.new ≡ with_frozen event.now pairs.now self.old) }
    {
        if is_frozen(self, event) {
            return Ok(());
        }
        remove_pairs(&mut self.frozen_shares, event);
        put_pairs(&mut self.frozen_shares, event, pairs)?;
        self.frozen.put(event.clone()?, ())
    }
}
