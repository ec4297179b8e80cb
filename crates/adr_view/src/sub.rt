//! Subscriptions by their ids, as they are told, and which are in sight.
ghost use Rattle.std.specs.Prelude.{◌≡◌, ◌≢◌, Ok, Err, IfOk, IfErr};
ghost use Rattle.adr_text.specs.declared.refusal.Refusal.TheVariants.{Store};
ghost use Rattle.adr_text.specs.Refusals.{IsRefusalOf};
ghost use Rattle.adr_state.specs.Subs.{sub_with_id, sub_object};
ghost use Rattle.adr_view.specs.Subs.{sub_in_sight};

use crate::sight::{Sight, sees_owner};
use adr_objects::Number;
use adr_state::{Portfolio, number_in};
use adr_subscription::{Sub, SubObject};
use adr_text::{ObjectId, Refusal};
use std::alloc::AllocError;

/// The subscription of that id, with its number.
fn sub_with_id(id: &ObjectId, portfolio: &Portfolio) -> Result<Option<(Number, Sub)>, AllocError>
    ensures { IfOk result (λ sub. sub ≡ sub_with_id id.now portfolio.now) }
{
    let Some(number) = number_in(b's', id) else {
        return Ok(None);
    };
    match portfolio.subs.get(&number) {
        Some(sub) => Ok(Some((number, sub.clone()?))),
        None => Ok(None),
    }
}

/// The subscription of that id, with its number: `NotFound` where it isn't there, and `Forbidden` where it is
/// another's than who sees this much.
pub fn sub_in_sight(
    sight: Sight,
    id: &ObjectId,
    portfolio: &Portfolio,
) -> Result<(Number, Sub), Refusal>
    ensures ok { IfOk result (λ sub. sub_in_sight sight id.now portfolio.now ≡ Ok sub) }
    ensures refused { IfErr result (λ refusal. IsRefusalOf refusal (sub_in_sight sight id.now portfolio.now)) }
    ensures no_store { result ≢ Err Store }
{
    let Some((number, sub)) = sub_with_id(id, portfolio)? else {
        return Err(Refusal::NotFound);
    };
    if !sees_owner(sight, sub.owner) {
        return Err(Refusal::Forbidden);
    }
    Ok((number, sub))
}

/// A subscription as it is told.
pub fn sub_object(number: Number, sub: &Sub) -> Result<SubObject, AllocError>
    ensures { IfOk result (λ object. object ≡ sub_object (number, sub.now)) }
{
    Ok(SubObject {
        number,
        sub: sub.body.clone()?,
        stamps: sub.stamps,
    })
}
