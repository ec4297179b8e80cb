//! Vens: added, renamed and removed.
ghost use Rattle.std.specs.Prelude.{◌≡◌, ◌≢◌, Ok, Err, IfOk, IfErr};
ghost use Rattle.adr_text.specs.declared.refusal.Refusal.TheVariants.{Store};
ghost use Rattle.adr_text.specs.Refusals.{IsRefusalOf};
ghost use Rattle.adr_state.specs.Portfolios.{carried_out};
ghost use Rattle.adr_state.specs.Vens.{ven_add, ven_put, ven_remove};

use adr_objects::{Number, VenObject};
use adr_state::{
    Limits, Portfolio, Ven, check_free, check_new, fresh, is_taken, is_taken_by_another,
    modified_at, number_in,
};
use adr_text::{Moment, Name, ObjectId, Refusal};
use adr_view::{ven_object, ven_with_id};

/// A new ven, under the number that is handed in.
pub fn ven_add(
    limits: &Limits,
    now: Moment,
    number: Number,
    portfolio: &mut Portfolio,
    name: &Name,
) -> Result<VenObject, Refusal>
    ensures ok { IfOk result (λ answer. carried_out portfolio.old (ven_add limits.now now number name.now portfolio.old) ≡ Ok (answer, portfolio.new)) }
    ensures refused { IfErr result (λ refusal. IsRefusalOf refusal (ven_add limits.now now number name.now portfolio.old)) }
    ensures no_store { result ≢ Err Store }
{
    let taken = is_taken(&portfolio.vens, name);
    check_new(taken, limits.vens.get() <= portfolio.vens.len() as u64)?;
    let ven = Ven {
        name: name.clone()?,
        stamps: fresh(now),
    };
    let object = ven_object(number, &ven)?;
    portfolio.vens.put(number, ven)?;
    Ok(object)
}

/// The ven of that id has the name from now on.
pub fn ven_put(
    now: Moment,
    portfolio: &mut Portfolio,
    id: &ObjectId,
    name: &Name,
) -> Result<VenObject, Refusal>
    ensures ok { IfOk result (λ answer. carried_out portfolio.old (ven_put now id.now name.now portfolio.old) ≡ Ok (answer, portfolio.new)) }
    ensures refused { IfErr result (λ refusal. IsRefusalOf refusal (ven_put now id.now name.now portfolio.old)) }
    ensures no_store { result ≢ Err Store }
{
    let Some(number) = number_in(b'v', id) else {
        return Err(Refusal::NotFound);
    };
    let Some(old) = portfolio.vens.get(&number) else {
        return Err(Refusal::NotFound);
    };
    check_free(is_taken_by_another(&portfolio.vens, number, name))?;
    let ven = Ven {
        name: name.clone()?,
        stamps: modified_at(now, old.stamps),
    };
    let object = ven_object(number, &ven)?;
    portfolio.vens.replace(number, ven);
    Ok(object)
}

/// The ven of that id goes, and is answered.
pub fn ven_remove(portfolio: &mut Portfolio, id: &ObjectId) -> Result<VenObject, Refusal>
    ensures ok { IfOk result (λ answer. carried_out portfolio.old (ven_remove id.now portfolio.old) ≡ Ok (answer, portfolio.new)) }
    ensures refused { IfErr result (λ refusal. IsRefusalOf refusal (ven_remove id.now portfolio.old)) }
    ensures no_store { result ≢ Err Store }
{
    let Some((number, ven)) = ven_with_id(id, portfolio)? else {
        return Err(Refusal::NotFound);
    };
    let object = ven_object(number, &ven)?;
    portfolio.remove_ven(number);
    Ok(object)
}
