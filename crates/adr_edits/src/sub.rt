//! Subscriptions: made, replaced and removed.
ghost use Rattle.std.specs.Prelude.{◌≡◌, ◌≢◌, Ok, Err, IfOk, IfErr};
ghost use Rattle.adr_text.specs.declared.refusal.Refusal.TheVariants.{Store};
ghost use Rattle.adr_text.specs.Refusals.{IsRefusalOf};
ghost use Rattle.adr_state.specs.Portfolios.{carried_out};
ghost use Rattle.adr_state.specs.Subs.{sub_post};
ghost use Rattle.adr_view.specs.Subs.{sub_put, sub_delete};

use adr_objects::Number;
use adr_state::{Limits, Portfolio, fresh, modified_at};
use adr_subscription::{Sub, SubIn, SubObject};
use adr_text::{Moment, ObjectId, Refusal};
use adr_view::{Sight, sub_in_sight, sub_object};

/// A new subscription of an owner, under the number that is handed in.
pub fn sub_post(
    limits: &Limits,
    now: Moment,
    number: Number,
    owner: Option<Number>,
    portfolio: &mut Portfolio,
    body: SubIn,
) -> Result<SubObject, Refusal>
    ensures ok { IfOk result (λ answer. carried_out portfolio.old (sub_post limits.now now number owner body portfolio.old) ≡ Ok (answer, portfolio.new)) }
    ensures refused { IfErr result (λ refusal. IsRefusalOf refusal (sub_post limits.now now number owner body portfolio.old)) }
    ensures no_store { result ≢ Err Store }
{
    if limits.subs.get() <= portfolio.subs.len() as u64 {
        return Err(Refusal::LimitReached);
    }
    let sub = Sub {
        owner,
        body,
        stamps: fresh(now),
    };
    let object = sub_object(number, &sub)?;
    portfolio.subs.put(number, sub)?;
    Ok(object)
}

/// The subscription of that id says this from now on; its owner stays.
pub fn sub_put(
    sight: Sight,
    now: Moment,
    portfolio: &mut Portfolio,
    id: &ObjectId,
    body: SubIn,
) -> Result<SubObject, Refusal>
    ensures ok { IfOk result (λ answer. carried_out portfolio.old (sub_put sight now id.now body portfolio.old) ≡ Ok (answer, portfolio.new)) }
    ensures refused { IfErr result (λ refusal. IsRefusalOf refusal (sub_put sight now id.now body portfolio.old)) }
    ensures no_store { result ≢ Err Store }
{
    let (number, old) = sub_in_sight(sight, id, portfolio)?;
    let sub = Sub {
        owner: old.owner,
        body,
        stamps: modified_at(now, old.stamps),
    };
    let object = sub_object(number, &sub)?;
    portfolio.subs.put(number, sub)?;
    Ok(object)
}

/// The subscription of that id goes, and is answered.
pub fn sub_delete(
    sight: Sight,
    portfolio: &mut Portfolio,
    id: &ObjectId,
) -> Result<SubObject, Refusal>
    ensures ok { IfOk result (λ answer. carried_out portfolio.old (sub_delete sight id.now portfolio.old) ≡ Ok (answer, portfolio.new)) }
    ensures refused { IfErr result (λ refusal. IsRefusalOf refusal (sub_delete sight id.now portfolio.old)) }
    ensures no_store { result ≢ Err Store }
{
    let (number, sub) = sub_in_sight(sight, id, portfolio)?;
    let object = sub_object(number, &sub)?;
    portfolio.subs.remove(&number);
    Ok(object)
}
