//! Shares in a program, as they are listed.
ghost use Rattle.std.specs.Prelude.{◌≡◌, ◌≢◌, Ok, Err, IfOk, IfErr};
ghost use Rattle.adr_text.specs.declared.refusal.Refusal.TheVariants.{Store};
ghost use Rattle.adr_text.specs.Refusals.{IsRefusalOf};
ghost use Rattle.adr_state.specs.Shares.{share_object};
ghost use Rattle.adr_queries.specs.Listings.{shares_of, shares_reply};

use crate::answer::{Answer, Object};
use crate::role::{Role, is_operator};
use adr_objects::ShareObject;
use adr_state::{Base, ShareKey, Weight};
use adr_text::{ObjectId, Refusal, Rows};
use std::alloc::{AllocError, Global};

fn share_object(key: &ShareKey, weight: Weight) -> Result<ShareObject, AllocError>
    ensures { IfOk result (λ object. object ≡ share_object (key.now, weight)) }
{
    Ok(ShareObject {
        program: key.program.clone()?,
        resource: key.resource,
        share: weight.get(),
    })
}

/// The shares in a program, by resource number.
fn shares_of(alloc: Global, base: &Base, program: &ObjectId) -> Result<Vec<Object>, AllocError>
    ensures { IfOk result (λ all. all.items ≡ shares_of base.now program.now) }
{
    let mut all = Vec::new(alloc);
    for (key, weight) in base.portfolio.shares.iter() {
        if key.program == *program {
            all.push(Object::Share(share_object(key, *weight)?))?;
        }
    }
    Ok(all)
}

/// The shares in a program, or `Forbidden` for another role than the operator.
pub(crate) fn shares_reply(
    alloc: Global,
    base: &Base,
    role: &Role,
    program: &ObjectId,
) -> Result<Answer, Refusal>
    ensures ok { IfOk result (λ answer. shares_reply base.now role.now program.now ≡ Ok answer) }
    ensures refused { IfErr result (λ refusal. IsRefusalOf refusal (shares_reply base.now role.now program.now)) }
    ensures no_store { result ≢ Err Store }
{
    if !is_operator(role) {
        return Err(Refusal::Forbidden);
    }
    Ok(Answer::List(Rows::from_vec(shares_of(alloc, base, program)?)))
}
