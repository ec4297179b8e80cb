//! Subscriptions, by who gives the command.
ghost use Rattle.std.specs.Prelude.{◌≡◌, ◌≢◌, Ok, Err, IfOk, IfErr};
ghost use Rattle.adr_text.specs.declared.refusal.Refusal.TheVariants.{Store};
ghost use Rattle.adr_text.specs.Refusals.{IsRefusalOf, Gives};
ghost use Rattle.adr_subscription.specs.Callbacks.{settled};
ghost use Rattle.adr_machine.specs.Edits.{sub_post_decided, sub_put_decided, sub_delete_decided, carried_out_on};

use crate::outcome::Outcome;
use crate::told::of_sub;
use adr_edits::{sub_delete, sub_post, sub_put};
use adr_objects::Number;
use adr_queries::{Role, sight_of};
use adr_state::{Base, Limits};
use adr_subscription::{SubIn, settled};
use adr_text::{Moment, ObjectId, Refusal};
use adr_view::owner_in;
use std::alloc::Global;

/// A copy of the subscription as it is kept, where each of its addresses may be called; otherwise `BadShape`.
pub fn settled_copy(alloc: Global, sub: &SubIn) -> Result<SubIn, Refusal>
    ensures gives { Gives (λ kept. kept) result (settled sub.now) }
    ensures no_store { result ≢ Err Store }
{
    let copy = sub.clone()?;
    settled(alloc, copy)
}

/// A new subscription of who has the role.
pub(crate) fn subscribed(
    alloc: Global,
    limits: &Limits,
    now: Moment,
    number: Number,
    base: &mut Base,
    role: &Role,
    sub: &SubIn,
) -> Result<Outcome, Refusal>
    ensures ok { IfOk result (λ comes. carried_out_on base.old (sub_post_decided limits.now now number role.now sub.now base.old) ≡ Ok (comes, base.new)) }
    ensures refused { IfErr result (λ refusal. IsRefusalOf refusal (sub_post_decided limits.now now number role.now sub.now base.old)) }
    ensures no_store { result ≢ Err Store }
{
    let body = settled_copy(alloc, sub)?;
    let sight = sight_of(base, role)?;
    of_sub(sub_post(
        limits,
        now,
        number,
        owner_in(sight),
        &mut base.portfolio,
        body,
    ))
}

/// The subscription of an id is replaced by who has the role.
pub(crate) fn resubscribed(
    alloc: Global,
    now: Moment,
    base: &mut Base,
    role: &Role,
    id: &ObjectId,
    sub: &SubIn,
) -> Result<Outcome, Refusal>
    ensures ok { IfOk result (λ comes. carried_out_on base.old (sub_put_decided now role.now id.now sub.now base.old) ≡ Ok (comes, base.new)) }
    ensures refused { IfErr result (λ refusal. IsRefusalOf refusal (sub_put_decided now role.now id.now sub.now base.old)) }
    ensures no_store { result ≢ Err Store }
{
    let body = settled_copy(alloc, sub)?;
    let sight = sight_of(base, role)?;
    of_sub(sub_put(sight, now, &mut base.portfolio, id, body))
}

/// The subscription of an id is removed by who has the role.
pub(crate) fn unsubscribed(base: &mut Base, role: &Role, id: &ObjectId) -> Result<Outcome, Refusal>
    ensures ok { IfOk result (λ comes. carried_out_on base.old (sub_delete_decided role.now id.now base.old) ≡ Ok (comes, base.new)) }
    ensures refused { IfErr result (λ refusal. IsRefusalOf refusal (sub_delete_decided role.now id.now base.old)) }
    ensures no_store { result ≢ Err Store }
{
    let sight = sight_of(base, role)?;
    of_sub(sub_delete(sight, &mut base.portfolio, id))
}
