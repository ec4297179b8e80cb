//! What a command of the operator touches, by the id that it names: an id of no such object touches nothing.
ghost use Rattle.std.specs.Prelude.{◌≡◌, ℕ, Some, IfErr};
ghost use Rattle.adr_sql.specs.Calls.{LeavesLent};
ghost use Rattle.adr_state.specs.BaseChanges.{ChangePortfolio};
ghost use Rattle.adr_state.specs.Digits.{number_in};
ghost use Rattle.adr_state.specs.Portfolios.{DropVen, DropResource};
ghost use Rattle.adr_db.specs.BaseCalls.{FindsOn};
ghost use Rattle.adr_db.specs.Calls.{IsOfStore};
ghost use Rattle.adr_touched.specs.Touched.{Covers, CoversResource, CoversVen};

use adr_state::number_in;
use adr_text::{ObjectId, Refusal};
use adr_touched::{
    Touched, touched_as_resource_goes, touched_as_ven_goes, touched_by_resource, touched_by_ven,
};
use sqlite::{Alter, Transaction};
use std::alloc::Global;

/// What a ven touches that is put.
pub(crate) fn by_ven<S: Alter>(
    alloc: Global,
    tx: &mut Transaction<'_, S>,
    id: &ObjectId,
) -> Result<Touched, Refusal>
    ensures lent { LeavesLent S.Store tx.old.conn tx.new.conn result }
    ensures finds { FindsOn S.Store tx.old.conn.now tx.new.conn.now (λ base touched. (n : ℕ) → number_in 118 id.now ≡ Some n → CoversVen n base touched) result }
    ensures refused { IfErr result IsOfStore }
{
    match number_in(b'v', id) {
        Some(number) => touched_by_ven(alloc, tx, number),
        None => Ok(Touched::none(alloc)),
    }
}

/// What a ven touches that goes.
pub(crate) fn as_ven_goes<S: Alter>(
    alloc: Global,
    tx: &mut Transaction<'_, S>,
    id: &ObjectId,
) -> Result<Touched, Refusal>
    ensures lent { LeavesLent S.Store tx.old.conn tx.new.conn result }
    ensures finds { FindsOn S.Store tx.old.conn.now tx.new.conn.now (λ base touched. (n : ℕ) → number_in 118 id.now ≡ Some n → Covers (ChangePortfolio (DropVen n)) base touched) result }
    ensures refused { IfErr result IsOfStore }
{
    match number_in(b'v', id) {
        Some(number) => touched_as_ven_goes(alloc, tx, number),
        None => Ok(Touched::none(alloc)),
    }
}

/// What a resource touches that is put.
pub(crate) fn by_resource<S: Alter>(
    alloc: Global,
    tx: &mut Transaction<'_, S>,
    id: &ObjectId,
) -> Result<Touched, Refusal>
    ensures lent { LeavesLent S.Store tx.old.conn tx.new.conn result }
    ensures finds { FindsOn S.Store tx.old.conn.now tx.new.conn.now (λ base touched. (n : ℕ) → number_in 114 id.now ≡ Some n → CoversResource n base touched) result }
    ensures refused { IfErr result IsOfStore }
{
    match number_in(b'r', id) {
        Some(number) => touched_by_resource(alloc, tx, number),
        None => Ok(Touched::none(alloc)),
    }
}

/// What a resource touches that goes.
pub(crate) fn as_resource_goes<S: Alter>(
    alloc: Global,
    tx: &mut Transaction<'_, S>,
    id: &ObjectId,
) -> Result<Touched, Refusal>
    ensures lent { LeavesLent S.Store tx.old.conn tx.new.conn result }
    ensures finds { FindsOn S.Store tx.old.conn.now tx.new.conn.now (λ base touched. (n : ℕ) → number_in 114 id.now ≡ Some n → Covers (ChangePortfolio (DropResource n)) base touched) result }
    ensures refused { IfErr result IsOfStore }
{
    match number_in(b'r', id) {
        Some(number) => touched_as_resource_goes(alloc, tx, number),
        None => Ok(Touched::none(alloc)),
    }
}
