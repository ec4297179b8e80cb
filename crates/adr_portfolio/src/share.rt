//! Shares of resources in programs are set.
ghost use Rattle.std.specs.Prelude.{◌≡◌, ◌≤◌, ◌&&◌, not, nat_le, [], ◌∷◌, IfErr};
ghost use Rattle.adr_text.specs.declared.refusal.Refusal.TheVariants.{NotFound, BadShare, LimitReached};
ghost use Rattle.adr_state.specs.Weights.{most_weight};
ghost use Rattle.adr_state.specs.Resources.{resource_at};
ghost use Rattle.adr_state.specs.Shares.{weight_set, share_of, share_set};
ghost use Rattle.adr_sql.specs.Calls.{LeavesLent};
ghost use Rattle.adr_db.specs.Calls.{Finds, IsOfStore, IsOneOf};
ghost use Rattle.adr_db.specs.BaseCalls.{Carries, RefusesOn};
ghost use Rattle.adr_portfolio.specs.Weights.{Sets};

use crate::found::there;
use adr_counted::{put_share, remove_share};
use adr_db::Meta;
use adr_db_portfolio::{read_resource, read_share};
use adr_objects::{Number, ShareObject};
use adr_state::{Limits, ShareKey, Weight, number_in};
use adr_text::{ObjectId, Refusal};
use sqlite::{Alter, Transaction};
use std::alloc::Global;

// Whether a share is new, and there is no room for it.
fn is_beyond(limits: &Limits, meta: &Meta, is_there: bool) -> bool
    ensures { result ≡ (not is_there && nat_le limits.now.shares meta.now.shares) }
{
    !is_there && limits.shares.get() <= meta.shares
}

fn weight_of(share: u32) -> Weight
    requires some { 1 ≤ share }
    requires within { share ≤ most_weight }
    ensures { result ≡ share }
{
    let Some(weight) = Weight::new(share) else {
        unreachable!()
    };
    weight
}

/// Puts the share, or removes it where the weight is 0.
fn set_weight<S: Alter>(
    tx: &mut Transaction<'_, S>,
    limits: &Limits,
    meta: &mut Meta,
    key: &ShareKey,
    share: u32,
) -> Result<(), Refusal>
    requires { share ≤ most_weight }
    ensures lent { LeavesLent S.Store tx.old.conn tx.new.conn result }
    ensures sets { Sets S.Store tx.old.conn.now tx.new.conn.now (weight_set limits.now key.now share) meta.old meta.new result }
    ensures refuses { RefusesOn S.Store tx.old.conn.now tx.new.conn.now (λ base. weight_set limits.now key.now share base.portfolio) meta.old result }
    ensures refused { IfErr result (IsOneOf (LimitReached ∷ [])) }
{
    let found = read_share(tx, key)?;
    let is_there = found.is_some();
    if share == 0 {
        return remove_share(tx, meta, key, is_there);
    }
    Refusal::LimitReached.unless(!is_beyond(limits, meta, is_there))?;
    put_share(tx, meta, key, weight_of(share), is_there)
}

/// Sets the share of a key.
fn set_of<S: Alter>(
    tx: &mut Transaction<'_, S>,
    limits: &Limits,
    meta: &mut Meta,
    key: ShareKey,
    share: u32,
) -> Result<ShareObject, Refusal>
    ensures lent { LeavesLent S.Store tx.old.conn tx.new.conn result }
    ensures carries { Carries S.Store tx.old.conn.now tx.new.conn.now (λ base. share_of limits.now key share base.portfolio) meta.old meta.new result }
    ensures refuses { RefusesOn S.Store tx.old.conn.now tx.new.conn.now (λ base. share_of limits.now key share base.portfolio) meta.old result }
    ensures refused { IfErr result (IsOneOf (BadShare ∷ LimitReached ∷ [])) }
{
    Refusal::BadShare.unless(share <= 1_000_000)?;
    set_weight(tx, limits, meta, &key, share)?;
    Ok(ShareObject {
        program: key.program,
        resource: key.resource,
        share,
    })
}

// The number of the resource of an id, where it is there.
fn resource_at<S: Alter>(
    alloc: Global,
    tx: &mut Transaction<'_, S>,
    id: &ObjectId,
) -> Result<Option<Number>, Refusal>
    ensures lent { LeavesLent S.Store tx.old.conn tx.new.conn result }
    ensures finds { Finds S.Store tx.old.conn.now tx.new.conn.now (λ kept found. found ≡ resource_at id.now kept.portfolio) result }
    ensures refused { IfErr result IsOfStore }
{
    let Some(number) = number_in(b'r', id) else {
        return Ok(None);
    };
    let resource = read_resource(alloc, tx, number)?;
    Ok(resource.map(|_| number))
}

/// Sets the share of a resource in a program, known or not; 0 removes it. The numbers of the node are handed in, and
/// are left as the caller has to put them. Refused with `NotFound` where the resource isn't there, then with `BadShare`
/// above 1,000,000, and with `LimitReached` where it is new.
pub fn share_set<S: Alter>(
    alloc: Global,
    tx: &mut Transaction<'_, S>,
    limits: &Limits,
    meta: &mut Meta,
    program: &ObjectId,
    resource: &ObjectId,
    share: u32,
) -> Result<ShareObject, Refusal>
    ensures lent { LeavesLent S.Store tx.old.conn tx.new.conn result }
    ensures carries { Carries S.Store tx.old.conn.now tx.new.conn.now (λ base. share_set limits.now program.now resource.now share base.portfolio) meta.old meta.new result }
    ensures refuses { RefusesOn S.Store tx.old.conn.now tx.new.conn.now (λ base. share_set limits.now program.now resource.now share base.portfolio) meta.old result }
    ensures refused { IfErr result (IsOneOf (NotFound ∷ BadShare ∷ LimitReached ∷ [])) }
{
    let program = program.clone()?;
    let found = resource_at(alloc, tx, resource)?;
    let resource = there(found)?;
    set_of(tx, limits, meta, ShareKey { program, resource }, share)
}
