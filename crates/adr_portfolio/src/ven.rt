//! Vens are enrolled, renamed and removed.
ghost use Rattle.std.specs.Prelude.{◌≡◌, [], ◌∷◌, IfOk, IfErr};
ghost use Rattle.adr_text.specs.declared.refusal.Refusal.TheVariants.{NotFound, Conflict, LimitReached};
ghost use Rattle.adr_state.specs.Stamping.{modified_at};
ghost use Rattle.adr_state.specs.Vens.{ven_with_id, ven_object, ven_add, ven_put, ven_remove};
ghost use Rattle.adr_sql.specs.Calls.{LeavesLent};
ghost use Rattle.adr_db.specs.BaseCalls.{Carries, RefusesOn};
ghost use Rattle.adr_db.specs.Calls.{IsOneOf};

use crate::found::there;
use crate::names::is_another_there;
use adr_counted::{add_ven, put_ven, remove_ven};
use adr_db::Meta;
use adr_db_portfolio::{read_vens_named, ven_with_id};
use adr_objects::{Number, VenObject};
use adr_state::{Limits, Ven, check_free, check_new, fresh, modified_at};
use adr_text::{Moment, Name, ObjectId, Refusal};
use sqlite::{Alter, Transaction};
use std::alloc::{AllocError, Global};

fn shown(number: Number, ven: Ven) -> VenObject
    ensures { result ≡ ven_object (number, ven) }
{
    VenObject {
        number,
        name: ven.name,
        stamps: ven.stamps,
    }
}

/// Enrols a ven under the number that is handed in. The numbers of the node are handed in too, and are left as the
/// caller has to put them. Refused with `Conflict` where the name is taken, then with `LimitReached`.
pub fn ven_add<S: Alter>(
    alloc: Global,
    tx: &mut Transaction<'_, S>,
    limits: &Limits,
    meta: &mut Meta,
    now: Moment,
    number: Number,
    name: &Name,
) -> Result<VenObject, Refusal>
    ensures lent { LeavesLent S.Store tx.old.conn tx.new.conn result }
    ensures carries { Carries S.Store tx.old.conn.now tx.new.conn.now (λ base. ven_add limits.now now number name.now base.portfolio) meta.old meta.new result }
    ensures refuses { RefusesOn S.Store tx.old.conn.now tx.new.conn.now (λ base. ven_add limits.now now number name.now base.portfolio) meta.old result }
    ensures refused { IfErr result (IsOneOf (Conflict ∷ LimitReached ∷ [])) }
{
    let named = read_vens_named(alloc, tx, name)?;
    check_new(!named.is_empty(), limits.vens.get() <= meta.vens)?;
    let ven = Ven {
        name: name.copy(alloc)?,
        stamps: fresh(now),
    };
    add_ven(alloc, tx, meta, number, &ven)?;
    Ok(shown(number, ven))
}

fn renamed(alloc: Global, now: Moment, name: &Name, ven: &Ven) -> Result<Ven, AllocError>
    ensures { IfOk result (λ again. again ≡ record { name = name.now; stamps = modified_at now ven.now.stamps }) }
{
    Ok(Ven {
        name: name.copy(alloc)?,
        stamps: modified_at(now, ven.stamps),
    })
}

/// Gives a ven its name anew: it keeps when it was created, and was modified now. The numbers of the node are handed
/// in, as to `ven_add`. Refused with `NotFound` where it isn't there, and with `Conflict` where another ven has the
/// name.
pub fn ven_put<S: Alter>(
    alloc: Global,
    tx: &mut Transaction<'_, S>,
    meta: &mut Meta,
    now: Moment,
    id: &ObjectId,
    name: &Name,
) -> Result<VenObject, Refusal>
    ensures lent { LeavesLent S.Store tx.old.conn tx.new.conn result }
    ensures carries { Carries S.Store tx.old.conn.now tx.new.conn.now (λ base. ven_put now id.now name.now base.portfolio) meta.old meta.new result }
    ensures refuses { RefusesOn S.Store tx.old.conn.now tx.new.conn.now (λ base. ven_put now id.now name.now base.portfolio) meta.old result }
    ensures refused { IfErr result (IsOneOf (NotFound ∷ Conflict ∷ [])) }
{
    let found = ven_with_id(alloc, tx, id)?;
    let old = there(found)?;
    let number = old.0;
    let named = read_vens_named(alloc, tx, name)?;
    check_free(is_another_there(number, named.as_slice()))?;
    let ven = renamed(alloc, now, name, &old.1)?;
    put_ven(tx, meta, number, &ven, true)?;
    Ok(shown(number, ven))
}

/// Removes a ven with its resources, their shares and its subscriptions, and answers the ven that went. The numbers of
/// the node are handed in, as to `ven_add`. Refused with `NotFound` where it isn't there.
pub fn ven_remove<S: Alter>(
    alloc: Global,
    tx: &mut Transaction<'_, S>,
    meta: &mut Meta,
    id: &ObjectId,
) -> Result<VenObject, Refusal>
    ensures lent { LeavesLent S.Store tx.old.conn tx.new.conn result }
    ensures carries { Carries S.Store tx.old.conn.now tx.new.conn.now (λ base. ven_remove id.now base.portfolio) meta.old meta.new result }
    ensures refuses { RefusesOn S.Store tx.old.conn.now tx.new.conn.now (λ base. ven_remove id.now base.portfolio) meta.old result }
    ensures refused { IfErr result (IsOneOf (NotFound ∷ [])) }
{
    let found = ven_with_id(alloc, tx, id)?;
    let ven = there(found)?;
    remove_ven(alloc, tx, meta, ven.0)?;
    Ok(shown(ven.0, ven.1))
}
