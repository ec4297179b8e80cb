//! Vens, resources, shares and frozen events on the tables, with what each command touches, which is asked of them before. The numbers of
//! the node are handed in, and are left as the caller has to put them.
ghost use Rattle.std.specs.Prelude.{◌≡◌, [], ◌∷◌, IfOk, IfErr};
ghost use Rattle.adr_text.specs.declared.refusal.Refusal.TheVariants.{NotFound, Conflict, LimitReached, BadShare};
ghost use Rattle.adr_state.specs.Resources.{resource_add, resource_put, resource_remove};
ghost use Rattle.adr_state.specs.Shares.{share_set};
ghost use Rattle.adr_state.specs.Vens.{ven_add, ven_put, ven_remove};
ghost use Rattle.adr_view.specs.Frozen.{freeze};
ghost use Rattle.adr_sql.specs.Calls.{LeavesLent};
ghost use Rattle.adr_db.specs.Calls.{IsOneOf};
ghost use Rattle.adr_machine.specs.declared.command.Command.{Command as CommandOf};
ghost use Rattle.adr_machine.specs.Edits.{of_portfolio, ven_outcome, resource_outcome, share_outcome, frozen_outcome, told_by};
ghost use Rattle.adr_desk.specs.Decisions.{CarriesOut, IsAnswered, with_touched};

use crate::asked::{as_resource_goes, as_ven_goes, by_resource, by_ven};
use adr_db::Meta;
use adr_machine::told::{of_resource, of_share, of_ven};
use adr_machine::{Answer, Outcome};
use adr_objects::{Number, ResourceIn, ShareIn, VenIn};
use adr_portfolio as portfolio;
use adr_queries::frozen_object;
use adr_state::Limits;
use adr_text::{Moment, ObjectId, Refusal};
use adr_touched::{Touched, touched_by_resource, touched_by_share, touched_by_ven};
use sqlite::{Alter, Transaction};
use std::alloc::Global;

/// What comes of a command, along with what it touched.
pub(crate) fn along(
    said: Result<Outcome, Refusal>,
    touched: Touched,
) -> Result<(Outcome, Touched), Refusal>
    ensures { result ≡ told_by (with_touched touched) said }
{
    Ok((said?, touched))
}

/// A new ven.
pub(crate) fn ven_add<S: Alter>(
    alloc: Global,
    tx: &mut Transaction<'_, S>,
    limits: &Limits,
    meta: &mut Meta,
    now: Moment,
    number: Number,
    ven: &VenIn,
) -> Result<(Outcome, Touched), Refusal>
    ensures lent { LeavesLent S.Store tx.old.conn tx.new.conn result }
    ensures carries { CarriesOut S.Store tx.old.conn.now tx.new.conn.now (λ base. of_portfolio ven_outcome (ven_add limits.now now number ven.now.name base.portfolio)) meta.old meta.new result }
    ensures answered { (command : CommandOf) → IfOk result (λ r. IsAnswered command r.0) }
    ensures refused { IfErr result (IsOneOf (Conflict ∷ LimitReached ∷ [])) }
{
    let touched = touched_by_ven(alloc, tx, number)?;
    along(
        of_ven(portfolio::ven_add(alloc, tx, limits, meta, now, number, &ven.name)),
        touched,
    )
}

/// A ven is put.
pub(crate) fn ven_put<S: Alter>(
    alloc: Global,
    tx: &mut Transaction<'_, S>,
    meta: &mut Meta,
    now: Moment,
    id: &ObjectId,
    ven: &VenIn,
) -> Result<(Outcome, Touched), Refusal>
    ensures lent { LeavesLent S.Store tx.old.conn tx.new.conn result }
    ensures carries { CarriesOut S.Store tx.old.conn.now tx.new.conn.now (λ base. of_portfolio ven_outcome (ven_put now id.now ven.now.name base.portfolio)) meta.old meta.new result }
    ensures answered { (command : CommandOf) → IfOk result (λ r. IsAnswered command r.0) }
    ensures refused { IfErr result (IsOneOf (NotFound ∷ Conflict ∷ [])) }
{
    let touched = by_ven(alloc, tx, id)?;
    along(
        of_ven(portfolio::ven_put(alloc, tx, meta, now, id, &ven.name)),
        touched,
    )
}

/// A ven goes.
pub(crate) fn ven_remove<S: Alter>(
    alloc: Global,
    tx: &mut Transaction<'_, S>,
    meta: &mut Meta,
    id: &ObjectId,
) -> Result<(Outcome, Touched), Refusal>
    ensures lent { LeavesLent S.Store tx.old.conn tx.new.conn result }
    ensures carries { CarriesOut S.Store tx.old.conn.now tx.new.conn.now (λ base. of_portfolio ven_outcome (ven_remove id.now base.portfolio)) meta.old meta.new result }
    ensures answered { (command : CommandOf) → IfOk result (λ r. IsAnswered command r.0) }
    ensures refused { IfErr result (IsOneOf (NotFound ∷ [])) }
{
    let touched = as_ven_goes(alloc, tx, id)?;
    along(of_ven(portfolio::ven_remove(alloc, tx, meta, id)), touched)
}

/// A new resource.
pub(crate) fn resource_add<S: Alter>(
    alloc: Global,
    tx: &mut Transaction<'_, S>,
    limits: &Limits,
    meta: &mut Meta,
    now: Moment,
    number: Number,
    ven: &ObjectId,
    resource: &ResourceIn,
) -> Result<(Outcome, Touched), Refusal>
    ensures lent { LeavesLent S.Store tx.old.conn tx.new.conn result }
    ensures carries { CarriesOut S.Store tx.old.conn.now tx.new.conn.now (λ base. of_portfolio resource_outcome (resource_add limits.now now number ven.now resource.now.name base.portfolio)) meta.old meta.new result }
    ensures answered { (command : CommandOf) → IfOk result (λ r. IsAnswered command r.0) }
    ensures refused { IfErr result (IsOneOf (NotFound ∷ Conflict ∷ LimitReached ∷ [])) }
{
    let touched = touched_by_resource(alloc, tx, number)?;
    along(
        of_resource(portfolio::resource_add(
            alloc,
            tx,
            limits,
            meta,
            now,
            number,
            ven,
            &resource.name,
        )),
        touched,
    )
}

/// A resource is put.
pub(crate) fn resource_put<S: Alter>(
    alloc: Global,
    tx: &mut Transaction<'_, S>,
    meta: &mut Meta,
    now: Moment,
    ven: &ObjectId,
    id: &ObjectId,
    resource: &ResourceIn,
) -> Result<(Outcome, Touched), Refusal>
    ensures lent { LeavesLent S.Store tx.old.conn tx.new.conn result }
    ensures carries { CarriesOut S.Store tx.old.conn.now tx.new.conn.now (λ base. of_portfolio resource_outcome (resource_put now ven.now id.now resource.now.name base.portfolio)) meta.old meta.new result }
    ensures answered { (command : CommandOf) → IfOk result (λ r. IsAnswered command r.0) }
    ensures refused { IfErr result (IsOneOf (NotFound ∷ Conflict ∷ [])) }
{
    let touched = by_resource(alloc, tx, id)?;
    along(
        of_resource(portfolio::resource_put(alloc, tx, meta, now, ven, id, &resource.name)),
        touched,
    )
}

/// A resource goes.
pub(crate) fn resource_remove<S: Alter>(
    alloc: Global,
    tx: &mut Transaction<'_, S>,
    meta: &mut Meta,
    ven: &ObjectId,
    id: &ObjectId,
) -> Result<(Outcome, Touched), Refusal>
    ensures lent { LeavesLent S.Store tx.old.conn tx.new.conn result }
    ensures carries { CarriesOut S.Store tx.old.conn.now tx.new.conn.now (λ base. of_portfolio resource_outcome (resource_remove ven.now id.now base.portfolio)) meta.old meta.new result }
    ensures answered { (command : CommandOf) → IfOk result (λ r. IsAnswered command r.0) }
    ensures refused { IfErr result (IsOneOf (NotFound ∷ [])) }
{
    let touched = as_resource_goes(alloc, tx, id)?;
    along(
        of_resource(portfolio::resource_remove(alloc, tx, meta, ven, id)),
        touched,
    )
}

/// The share of a resource in a program is set.
pub(crate) fn share_set<S: Alter>(
    alloc: Global,
    tx: &mut Transaction<'_, S>,
    limits: &Limits,
    meta: &mut Meta,
    program: &ObjectId,
    resource: &ObjectId,
    share: &ShareIn,
) -> Result<(Outcome, Touched), Refusal>
    ensures lent { LeavesLent S.Store tx.old.conn tx.new.conn result }
    ensures carries { CarriesOut S.Store tx.old.conn.now tx.new.conn.now (λ base. of_portfolio share_outcome (share_set limits.now program.now resource.now share.now.share base.portfolio)) meta.old meta.new result }
    ensures answered { (command : CommandOf) → IfOk result (λ r. IsAnswered command r.0) }
    ensures refused { IfErr result (IsOneOf (NotFound ∷ BadShare ∷ LimitReached ∷ [])) }
{
    let touched = touched_by_share(alloc, tx, program)?;
    along(
        of_share(portfolio::share_set(alloc, tx, limits, meta, program, resource, share.share)),
        touched,
    )
}

/// An event is frozen, which touches nothing that is shown.
pub(crate) fn freeze<S: Alter>(
    alloc: Global,
    tx: &mut Transaction<'_, S>,
    limits: &Limits,
    meta: &mut Meta,
    event: &ObjectId,
) -> Result<(Outcome, Touched), Refusal>
    ensures lent { LeavesLent S.Store tx.old.conn tx.new.conn result }
    ensures carries { CarriesOut S.Store tx.old.conn.now tx.new.conn.now (λ base. of_portfolio (frozen_outcome event.now) (freeze limits.now event.now base.mirror base.portfolio)) meta.old meta.new result }
    ensures answered { (command : CommandOf) → IfOk result (λ r. IsAnswered command r.0) }
    ensures refused { IfErr result (IsOneOf (NotFound ∷ LimitReached ∷ [])) }
{
    let pairs = adr_frozen::freeze(alloc, tx, limits, meta, event)?;
    let object = frozen_object(alloc, event, pairs.as_slice())?;
    let told = Outcome::Told(Answer::Frozen(object));
    Ok((told, Touched::none(alloc)))
}
