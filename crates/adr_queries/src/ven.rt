//! Vens, as they are listed, and one of them.
ghost use Rattle.std.specs.Prelude.{◌≡◌, ◌≢◌, Ok, Err, IfOk, IfErr};
ghost use Rattle.adr_text.specs.declared.refusal.Refusal.TheVariants.{Store};
ghost use Rattle.adr_text.specs.Refusals.{IsRefusalOf};
ghost use Rattle.adr_queries.specs.Listings.{vens_in_sight, vens_reply, ven_reply};

use crate::answer::{Answer, Object};
use crate::page::page_of;
use crate::query::Page;
use crate::role::Role;
use crate::sight::sight_of;
use adr_state::Base;
use adr_text::{ObjectId, Refusal, Rows};
use adr_view::{Sight, sees_ven, ven_object, ven_with_id};
use std::alloc::{AllocError, Global};

/// The vens in sight, by number.
fn vens_in_sight(alloc: Global, base: &Base, sight: Sight) -> Result<Vec<Object>, AllocError>
    ensures { IfOk result (λ all. all.items ≡ vens_in_sight base.now sight) }
{
    let mut all = Vec::new(alloc);
    for (number, ven) in base.portfolio.vens.iter() {
        if sees_ven(sight, *number) {
            all.push(Object::Ven(ven_object(*number, ven)?))?;
        }
    }
    Ok(all)
}

/// The vens that a role sees, or `Forbidden`.
pub(crate) fn vens_reply(
    alloc: Global,
    base: &Base,
    role: &Role,
    page: Page,
) -> Result<Answer, Refusal>
    ensures ok { IfOk result (λ answer. vens_reply base.now role.now page ≡ Ok answer) }
    ensures refused { IfErr result (λ refusal. IsRefusalOf refusal (vens_reply base.now role.now page)) }
    ensures no_store { result ≢ Err Store }
{
    let sight = sight_of(base, role)?;
    let vens = vens_in_sight(alloc, base, sight)?;
    Ok(Answer::List(Rows::from_vec(page_of(alloc, page, vens)?)))
}

/// The ven of an id; `NotFound` where it isn't there, `Forbidden` where it is out of sight.
pub(crate) fn ven_reply(base: &Base, role: &Role, id: &ObjectId) -> Result<Answer, Refusal>
    ensures ok { IfOk result (λ answer. ven_reply base.now role.now id.now ≡ Ok answer) }
    ensures refused { IfErr result (λ refusal. IsRefusalOf refusal (ven_reply base.now role.now id.now)) }
    ensures no_store { result ≢ Err Store }
{
    let sight = sight_of(base, role)?;
    let Some((number, ven)) = ven_with_id(id, &base.portfolio)? else {
        return Err(Refusal::NotFound);
    };
    if !sees_ven(sight, number) {
        return Err(Refusal::Forbidden);
    }
    Ok(Answer::Object(Object::Ven(ven_object(number, &ven)?)))
}
