//! What a role is told of subscriptions and of the outbox.
ghost use Rattle.std.specs.Prelude.{◌≡◌, ◌≢◌, Ok, Err, IfOk, IfErr};
ghost use Rattle.adr_text.specs.declared.refusal.Refusal.TheVariants.{Store};
ghost use Rattle.adr_text.specs.Refusals.{IsRefusalOf};
ghost use Rattle.adr_queries.specs.Subscribed.{subs_in_sight, subs_reply, sub_reply, outbox_reply};

use crate::answer::{Answer, Object};
use crate::filter::{ReportFilter, wanted_subs};
use crate::page::page_of;
use crate::query::Page;
use crate::role::{Role, is_operator};
use crate::sight::sight_of;
use adr_delivery::Outbox;
use adr_state::{Base, Portfolio};
use adr_text::{ObjectId, Refusal, Rows};
use adr_view::{Sight, sees_owner, sub_in_sight, sub_object};
use std::alloc::{AllocError, Global};

/// The subscriptions in sight, by number.
fn subs_in_sight(
    alloc: Global,
    sight: Sight,
    portfolio: &Portfolio,
) -> Result<Vec<Object>, AllocError>
    ensures { IfOk result (λ all. all.items ≡ subs_in_sight sight portfolio.now) }
{
    let mut all = Vec::new(alloc);
    for (number, sub) in portfolio.subs.iter() {
        if sees_owner(sight, sub.owner) {
            all.push(Object::Sub(sub_object(*number, sub)?))?;
        }
    }
    Ok(all)
}

/// The subscriptions that a role sees and the filter wants, or `Forbidden`.
pub(crate) fn subs_reply(
    alloc: Global,
    base: &Base,
    role: &Role,
    filter: &ReportFilter,
    page: Page,
) -> Result<Answer, Refusal>
    ensures ok { IfOk result (λ answer. subs_reply base.now role.now filter.now page ≡ Ok answer) }
    ensures refused { IfErr result (λ refusal. IsRefusalOf refusal (subs_reply base.now role.now filter.now page)) }
    ensures no_store { result ≢ Err Store }
{
    let sight = sight_of(base, role)?;
    let subs = subs_in_sight(alloc, sight, &base.portfolio)?;
    let wanted = wanted_subs(alloc, filter, subs)?;
    Ok(Answer::List(Rows::from_vec(page_of(alloc, page, wanted)?)))
}

/// The subscription of an id; `Forbidden` where it is another's, and `NotFound` where it isn't there.
pub(crate) fn sub_reply(base: &Base, role: &Role, id: &ObjectId) -> Result<Answer, Refusal>
    ensures ok { IfOk result (λ answer. sub_reply base.now role.now id.now ≡ Ok answer) }
    ensures refused { IfErr result (λ refusal. IsRefusalOf refusal (sub_reply base.now role.now id.now)) }
    ensures no_store { result ≢ Err Store }
{
    let sight = sight_of(base, role)?;
    let (number, sub) = sub_in_sight(sight, id, &base.portfolio)?;
    Ok(Answer::Object(Object::Sub(sub_object(number, &sub)?)))
}

/// How many entries the outbox had; `Forbidden` for another role than the operator.
pub(crate) fn outbox_reply(outbox: &Outbox, role: &Role) -> Result<Answer, Refusal>
    ensures { result ≡ outbox_reply outbox.now role.now }
{
    if !is_operator(role) {
        return Err(Refusal::Forbidden);
    }
    Ok(Answer::Counts(outbox.counts()))
}
