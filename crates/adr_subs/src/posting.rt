//! Subscriptions are posted, replaced and removed.
ghost use Rattle.std.specs.Prelude.{◌≡◌, true, is_some, [], ◌∷◌, Ok, IfErr};
ghost use Rattle.std.specs.Ordering.{nat_cmp};
ghost use Rattle.adr_text.specs.declared.refusal.Refusal.TheVariants.{Forbidden, NotFound, LimitReached};
ghost use Rattle.adr_state.specs.Stamping.{modified_at};
ghost use Rattle.adr_state.specs.Keys.{at};
ghost use Rattle.adr_state.specs.Subs.{sub_object, putting_sub, sub_post};
ghost use Rattle.adr_view.specs.Subs.{sub_put, sub_delete};
ghost use Rattle.adr_sql.specs.Calls.{LeavesLent};
ghost use Rattle.adr_db.specs.Calls.{IsOfStore, IsOneOf};
ghost use Rattle.adr_db.specs.BaseCalls.{Carries, CarriesWhere, RefusesOn};
ghost use Rattle.adr_counted.specs.There.{IsThere};
ghost use Rattle.adr_subs.specs.Found.{made, replaced, removed};

use crate::found::in_sight;
use adr_counted::{add_sub, put_sub, remove_sub};
use adr_db::Meta;
use adr_db_portfolio::sub_with_id;
use adr_objects::Number;
use adr_state::{Limits, fresh, modified_at};
use adr_subscription::{Sub, SubIn, SubObject};
use adr_text::{Moment, ObjectId, Refusal};
use adr_view::Sight;
use sqlite::{Alter, Transaction};
use std::alloc::Global;

// A subscription as it is told.
fn told(number: Number, sub: Sub) -> SubObject
    ensures { result ≡ sub_object (number, sub) }
{
    SubObject {
        number,
        sub: sub.body,
        stamps: sub.stamps,
    }
}

// Puts a new subscription under a number, and answers it.
fn add_kept<S: Alter>(
    alloc: Global,
    tx: &mut Transaction<'_, S>,
    meta: &mut Meta,
    number: Number,
    sub: Sub,
) -> Result<SubObject, Refusal>
    ensures lent { LeavesLent S.Store tx.old.conn tx.new.conn result }
    ensures carries { Carries S.Store tx.old.conn.now tx.new.conn.now (λ base. Ok (putting_sub number sub)) meta.old meta.new result }
    ensures refused { IfErr result IsOfStore }
{
    add_sub(alloc, tx, meta, number, &sub)?;
    Ok(told(number, sub))
}

// Puts a subscription in the place of that of a number, and answers it.
fn put_kept<S: Alter>(
    alloc: Global,
    tx: &mut Transaction<'_, S>,
    meta: &mut Meta,
    number: Number,
    sub: Sub,
) -> Result<SubObject, Refusal>
    ensures lent { LeavesLent S.Store tx.old.conn tx.new.conn result }
    ensures carries { CarriesWhere S.Store tx.old.conn.now tx.new.conn.now (λ p. is_some (at nat_cmp number p.subs) ≡ true) (λ base. Ok (putting_sub number sub)) meta.old meta.new result }
    ensures refused { IfErr result IsOfStore }
{
    put_sub(alloc, tx, meta, number, &sub, true)?;
    Ok(told(number, sub))
}

// A new subscription of that owner, unless there are as many as may be.
fn made(full: bool, now: Moment, owner: Option<Number>, body: SubIn) -> Result<Sub, Refusal>
    ensures gives { result ≡ made full now owner body }
    ensures refused { IfErr result (λ refusal. refusal ≡ LimitReached) }
{
    if full {
        return Err(Refusal::LimitReached);
    }
    Ok(Sub {
        owner,
        body,
        stamps: fresh(now),
    })
}

/// Posts a subscription of that owner, or of the operator where there is none, under the number that is handed
/// in. The numbers of the node are handed in too, and are left as the caller has to put them. Refused with
/// `LimitReached`.
pub fn post<S: Alter>(
    alloc: Global,
    tx: &mut Transaction<'_, S>,
    limits: &Limits,
    meta: &mut Meta,
    now: Moment,
    number: Number,
    owner: Option<Number>,
    body: SubIn,
) -> Result<SubObject, Refusal>
    ensures lent { LeavesLent S.Store tx.old.conn tx.new.conn result }
    ensures carries { Carries S.Store tx.old.conn.now tx.new.conn.now (λ base. sub_post limits.now now number owner body base.portfolio) meta.old meta.new result }
    ensures refuses { RefusesOn S.Store tx.old.conn.now tx.new.conn.now (λ base. sub_post limits.now now number owner body base.portfolio) meta.old result }
    ensures refused { IfErr result (IsOneOf (LimitReached ∷ [])) }
{
    let full = limits.subs.get() <= meta.subs;
    let sub = made(full, now, owner, body)?;
    add_kept(alloc, tx, meta, number, sub)
}

// One that says something else from now on: its owner stays, and it keeps when it was created.
fn again(now: Moment, body: SubIn, old: &Sub) -> Sub
    ensures { result ≡ record { owner = old.now.owner; body = body; stamps = modified_at now old.now.stamps } }
{
    Sub {
        owner: old.owner,
        body,
        stamps: modified_at(now, old.stamps),
    }
}

// Puts a subscription in the place of one that was looked for.
fn put_found<S: Alter>(
    alloc: Global,
    tx: &mut Transaction<'_, S>,
    meta: &mut Meta,
    sight: Sight,
    now: Moment,
    found: Option<(Number, Sub)>,
    body: SubIn,
) -> Result<SubObject, Refusal>
    ensures lent { LeavesLent S.Store tx.old.conn tx.new.conn result }
    ensures carries { CarriesWhere S.Store tx.old.conn.now tx.new.conn.now (λ p. IsThere found p.subs) (λ base. replaced sight now found body) meta.old meta.new result }
    ensures refuses { RefusesOn S.Store tx.old.conn.now tx.new.conn.now (λ base. replaced sight now found body) meta.old result }
    ensures refused { IfErr result (IsOneOf (NotFound ∷ Forbidden ∷ [])) }
{
    let old = in_sight(sight, found)?;
    put_kept(alloc, tx, meta, old.0, again(now, body, &old.1))
}

/// Puts a subscription in the place of that of an id: its owner stays, it keeps when it was created, and was
/// modified now. The numbers of the node are handed in, as to `post`. Refused with `NotFound` where it isn't there, and
/// with `Forbidden` where it is out of sight.
pub fn put<S: Alter>(
    alloc: Global,
    tx: &mut Transaction<'_, S>,
    meta: &mut Meta,
    sight: Sight,
    now: Moment,
    id: &ObjectId,
    body: SubIn,
) -> Result<SubObject, Refusal>
    ensures lent { LeavesLent S.Store tx.old.conn tx.new.conn result }
    ensures carries { Carries S.Store tx.old.conn.now tx.new.conn.now (λ base. sub_put sight now id.now body base.portfolio) meta.old meta.new result }
    ensures refuses { RefusesOn S.Store tx.old.conn.now tx.new.conn.now (λ base. sub_put sight now id.now body base.portfolio) meta.old result }
    ensures refused { IfErr result (IsOneOf (NotFound ∷ Forbidden ∷ [])) }
{
    let found = sub_with_id(alloc, tx, id)?;
    put_found(alloc, tx, meta, sight, now, found, body)
}

// Removes a subscription that was looked for, and answers it.
fn remove_found<S: Alter>(
    tx: &mut Transaction<'_, S>,
    meta: &mut Meta,
    sight: Sight,
    found: Option<(Number, Sub)>,
) -> Result<SubObject, Refusal>
    ensures lent { LeavesLent S.Store tx.old.conn tx.new.conn result }
    ensures carries { CarriesWhere S.Store tx.old.conn.now tx.new.conn.now (λ p. IsThere found p.subs) (λ base. removed sight found) meta.old meta.new result }
    ensures refuses { RefusesOn S.Store tx.old.conn.now tx.new.conn.now (λ base. removed sight found) meta.old result }
    ensures refused { IfErr result (IsOneOf (NotFound ∷ Forbidden ∷ [])) }
{
    let old = in_sight(sight, found)?;
    remove_sub(tx, meta, old.0)?;
    Ok(told(old.0, old.1))
}

/// Removes the subscription of an id, and answers it. The numbers of the node are handed in, as to `post`. Refused with
/// `NotFound` where it isn't there, and with `Forbidden` where it is out of sight.
pub fn delete<S: Alter>(
    alloc: Global,
    tx: &mut Transaction<'_, S>,
    meta: &mut Meta,
    sight: Sight,
    id: &ObjectId,
) -> Result<SubObject, Refusal>
    ensures lent { LeavesLent S.Store tx.old.conn tx.new.conn result }
    ensures carries { Carries S.Store tx.old.conn.now tx.new.conn.now (λ base. sub_delete sight id.now base.portfolio) meta.old meta.new result }
    ensures refuses { RefusesOn S.Store tx.old.conn.now tx.new.conn.now (λ base. sub_delete sight id.now base.portfolio) meta.old result }
    ensures refused { IfErr result (IsOneOf (NotFound ∷ Forbidden ∷ [])) }
{
    let found = sub_with_id(alloc, tx, id)?;
    remove_found(tx, meta, sight, found)
}
