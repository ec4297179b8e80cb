//! What is kept for a frozen event, as it is told.
ghost use Rattle.std.specs.Prelude.{◌≡◌, ◌≢◌, Ok, Err, IfOk, IfErr};
ghost use Rattle.adr_text.specs.declared.refusal.Refusal.TheVariants.{Store};
ghost use Rattle.adr_text.specs.Refusals.{IsRefusalOf};
ghost use Rattle.adr_view.specs.Frozen.{frozen_pairs};
ghost use Rattle.adr_queries.specs.Frozen.{frozen_object, frozen_reply};

use crate::answer::Answer;
use crate::role::{Role, is_operator};
use adr_objects::{FrozenObject, Number};
use adr_state::{Base, Portfolio, Weight, is_frozen, pairs_kept};
use adr_text::{ObjectId, Refusal, Rows};
use std::alloc::{AllocError, Global};

/// The weights as plain numbers.
fn plain(alloc: Global, pairs: &[(Number, Weight)]) -> Result<Rows<(Number, u32)>, AllocError>
    ensures { IfOk result (λ all. all ≡ pairs.now) }
{
    let mut all = Vec::new(alloc);
    for pair in pairs {
        all.push((pair.0, pair.1.get()))?;
    }
    Ok(Rows::from_vec(all))
}

/// What is kept for the event of that id, as it is told.
pub fn frozen_object(
    alloc: Global,
    event: &ObjectId,
    pairs: &[(Number, Weight)],
) -> Result<FrozenObject, AllocError>
    ensures { IfOk result (λ object. object ≡ frozen_object event.now pairs.now) }
{
    Ok(FrozenObject {
        event: event.clone()?,
        shares: plain(alloc, pairs)?,
    })
}

/// The pairs that are kept for the event of an id, or `NotFound` where it was never frozen.
fn frozen_pairs(
    alloc: Global,
    event: &ObjectId,
    portfolio: &Portfolio,
) -> Result<Rows<(Number, Weight)>, Refusal>
    ensures ok { IfOk result (λ pairs. frozen_pairs event.now portfolio.now ≡ Ok pairs) }
    ensures refused { IfErr result (λ refusal. IsRefusalOf refusal (frozen_pairs event.now portfolio.now)) }
    ensures no_store { result ≢ Err Store }
{
    if !is_frozen(portfolio, event) {
        return Err(Refusal::NotFound);
    }
    Ok(pairs_kept(alloc, portfolio, event)?)
}

/// What is kept for the event of an id, or `Forbidden` for another role than the operator, and `NotFound` where it was
/// never frozen.
pub(crate) fn frozen_reply(
    alloc: Global,
    base: &Base,
    role: &Role,
    event: &ObjectId,
) -> Result<Answer, Refusal>
    ensures ok { IfOk result (λ answer. frozen_reply base.now role.now event.now ≡ Ok answer) }
    ensures refused { IfErr result (λ refusal. IsRefusalOf refusal (frozen_reply base.now role.now event.now)) }
    ensures no_store { result ≢ Err Store }
{
    if !is_operator(role) {
        return Err(Refusal::Forbidden);
    }
    let pairs = frozen_pairs(alloc, event, &base.portfolio)?;
    Ok(Answer::Frozen(frozen_object(alloc, event, pairs.as_slice())?))
}
