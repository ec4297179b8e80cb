//! Shares of resources in programs: set and taken away.
ghost use Rattle.std.specs.Prelude.{◌≡◌, ◌≢◌, ◌≤◌, Ok, Err, IfOk, IfErr};
ghost use Rattle.adr_text.specs.declared.refusal.Refusal.TheVariants.{Store};
ghost use Rattle.adr_text.specs.Refusals.{IsRefusalOf};
ghost use Rattle.adr_state.specs.Weights.{most_weight};
ghost use Rattle.adr_state.specs.Portfolios.{carried_out};
ghost use Rattle.adr_edits.specs.Changes.{portfolio_left};
ghost use Rattle.adr_state.specs.Shares.{weight_set, share_of, share_set};

use adr_objects::ShareObject;
use adr_state::{Limits, Portfolio, ShareKey, Weight};
use adr_text::{ObjectId, Refusal};
use adr_view::resource_at;

/// Puts the share of a key, or removes it where the weight is 0.
fn set_weight(
    limits: &Limits,
    portfolio: &mut Portfolio,
    key: ShareKey,
    share: u32,
) -> Result<(), Refusal>
    requires { share ≤ most_weight }
    ensures ok { IfOk result (λ _. portfolio_left portfolio.old (weight_set limits.now key share portfolio.old) ≡ Ok portfolio.new) }
    ensures refused { IfErr result (λ refusal. IsRefusalOf refusal (weight_set limits.now key share portfolio.old)) }
    ensures no_store { result ≢ Err Store }
{
    if share == 0 {
        portfolio.shares.remove(&key);
        return Ok(());
    }
    let Some(weight) = Weight::new(share) else {
        unreachable!()
    };
    if portfolio.shares.get(&key).is_none()
        && limits.shares.get() <= portfolio.shares.len() as u64
    {
        return Err(Refusal::LimitReached);
    }
    portfolio.shares.put(key, weight)?;
    Ok(())
}

/// Sets the share of a key.
fn share_of(
    limits: &Limits,
    portfolio: &mut Portfolio,
    key: ShareKey,
    share: u32,
) -> Result<ShareObject, Refusal>
    ensures ok { IfOk result (λ answer. carried_out portfolio.old (share_of limits.now key share portfolio.old) ≡ Ok (answer, portfolio.new)) }
    ensures refused { IfErr result (λ refusal. IsRefusalOf refusal (share_of limits.now key share portfolio.old)) }
    ensures no_store { result ≢ Err Store }
{
    if 1_000_000 < share {
        return Err(Refusal::BadShare);
    }
    let object = ShareObject {
        program: key.program.clone()?,
        resource: key.resource,
        share,
    };
    set_weight(limits, portfolio, key, share)?;
    Ok(object)
}

/// Sets the share of the resource of that id in a program; 0 removes it.
pub fn share_set(
    limits: &Limits,
    portfolio: &mut Portfolio,
    program: &ObjectId,
    resource: &ObjectId,
    share: u32,
) -> Result<ShareObject, Refusal>
    ensures ok { IfOk result (λ answer. carried_out portfolio.old (share_set limits.now program.now resource.now share portfolio.old) ≡ Ok (answer, portfolio.new)) }
    ensures refused { IfErr result (λ refusal. IsRefusalOf refusal (share_set limits.now program.now resource.now share portfolio.old)) }
    ensures no_store { result ≢ Err Store }
{
    let Some(resource) = resource_at(resource, portfolio) else {
        return Err(Refusal::NotFound);
    };
    let program = program.clone()?;
    share_of(limits, portfolio, ShareKey { program, resource }, share)
}
