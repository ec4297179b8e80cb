//! What is told of vens, of the resources of a ven and of subscriptions where no more is needed than a lent transaction: what a ven
//! sees of vens and of subscriptions, and the resources of a ven.
ghost use Rattle.std.specs.Prelude.{◌≡◌, Ok, [], ◌∷◌, IfErr};
ghost use Rattle.adr_text.specs.declared.refusal.Refusal.TheVariants.{Forbidden, NotFound};
ghost use Rattle.adr_state.specs.Vens.{ven_at};
ghost use Rattle.adr_queries.specs.declared.answer.Answer.TheVariants as answer;
ghost use Rattle.adr_queries.specs.declared.role.Role.TheVariants as role_of;
ghost use Rattle.adr_queries.specs.Listings.{page_of, resources_of, resources_told, resources_reply, vens_reply};
ghost use Rattle.adr_queries.specs.Subscribed.{subs_reply};
ghost use Rattle.adr_sql.specs.Calls.{LeavesLent};
ghost use Rattle.adr_db.specs.Calls.{IsOfStore, IsOneOf};
ghost use Rattle.adr_db.specs.BaseCalls.{Refuses};
ghost use Rattle.adr_db.specs.Images.{image_kept};
ghost use Rattle.adr_answers.specs.Calls.{FindsOr};
ghost use Rattle.adr_site_pages.specs.Sites.{ven_in_sight};

use crate::objects::objects_of;
use crate::own::{own_subs_page, own_vens_page, resources_page};
use adr_answers::sight_in;
use adr_db_portfolio::ven_at;
use adr_objects::Number;
use adr_queries::{Answer, Page, ReportFilter, Role};
use adr_text::{ObjectId, Refusal};
use adr_view::{Sight, sees_ven};
use sqlite::{Alter, Transaction};
use std::alloc::Global;

/// One page of the vens that the ven of an id sees, which is itself; `Forbidden` where it isn't there. No other ven is read.
pub fn own_vens<S: Alter>(
    alloc: Global,
    tx: &mut Transaction<'_, S>,
    id: &ObjectId,
    page: Page,
) -> Result<Answer, Refusal>
    ensures lent { LeavesLent S.Store tx.old.conn tx.new.conn result }
    ensures finds { FindsOr S.Store tx.old.conn.now tx.new.conn.now (λ kept. vens_reply (image_kept kept).base (role_of.Ven id.now) page) result }
    ensures refuses { Refuses S.Store tx.old.conn.now tx.new.conn.now (λ kept. vens_reply (image_kept kept).base (role_of.Ven id.now) page) result }
    ensures listed { IfErr result (IsOneOf (Forbidden ∷ [])) }
{
    let Some(ven) = ven_at(alloc, tx, id)? else {
        return Err(Refusal::Forbidden);
    };
    let rows = own_vens_page(alloc, tx, ven, page)?;
    Ok(Answer::List(objects_of(alloc, rows)?))
}

/// One page of the subscriptions of the ven of an id that the filter wants; `Forbidden` where the ven isn't there. Of others
/// nothing is read.
pub fn own_subs<S: Alter>(
    alloc: Global,
    tx: &mut Transaction<'_, S>,
    id: &ObjectId,
    filter: &ReportFilter,
    page: Page,
) -> Result<Answer, Refusal>
    ensures lent { LeavesLent S.Store tx.old.conn tx.new.conn result }
    ensures finds { FindsOr S.Store tx.old.conn.now tx.new.conn.now (λ kept. subs_reply (image_kept kept).base (role_of.Ven id.now) filter.now page) result }
    ensures refuses { Refuses S.Store tx.old.conn.now tx.new.conn.now (λ kept. subs_reply (image_kept kept).base (role_of.Ven id.now) filter.now page) result }
    ensures listed { IfErr result (IsOneOf (Forbidden ∷ [])) }
{
    let Some(ven) = ven_at(alloc, tx, id)? else {
        return Err(Refusal::Forbidden);
    };
    let rows = own_subs_page(alloc, tx, ven, filter, page)?;
    Ok(Answer::List(objects_of(alloc, rows)?))
}

// ---- resources

// The number of the ven that was found, where who sees this much sees it.
fn ven_in_sight(sight: Sight, found: Option<Number>) -> Result<Number, Refusal>
    ensures gives { result ≡ ven_in_sight sight found }
    ensures listed { IfErr result (IsOneOf (Forbidden ∷ NotFound ∷ [])) }
{
    let Some(number) = found else {
        return Err(Refusal::NotFound);
    };
    if !sees_ven(sight, number) {
        return Err(Refusal::Forbidden);
    }
    Ok(number)
}

// The number of the ven of an id, where who sees this much sees it.
fn read_ven_in_sight<S: Alter>(
    alloc: Global,
    tx: &mut Transaction<'_, S>,
    sight: Sight,
    ven: &ObjectId,
) -> Result<Number, Refusal>
    ensures lent { LeavesLent S.Store tx.old.conn tx.new.conn result }
    ensures finds { FindsOr S.Store tx.old.conn.now tx.new.conn.now (λ kept. ven_in_sight sight (ven_at ven.now kept.portfolio)) result }
    ensures refuses { Refuses S.Store tx.old.conn.now tx.new.conn.now (λ kept. ven_in_sight sight (ven_at ven.now kept.portfolio)) result }
    ensures listed { IfErr result (IsOneOf (Forbidden ∷ NotFound ∷ [])) }
{
    let found = ven_at(alloc, tx, ven)?;
    ven_in_sight(sight, found)
}

// One page of the resources of the ven of a number.
fn resources_listed<S: Alter>(
    alloc: Global,
    tx: &mut Transaction<'_, S>,
    ven: Number,
    page: Page,
) -> Result<Answer, Refusal>
    ensures lent { LeavesLent S.Store tx.old.conn tx.new.conn result }
    ensures finds { FindsOr S.Store tx.old.conn.now tx.new.conn.now (λ kept. Ok (answer.List (page_of page (resources_of (image_kept kept).base ven)))) result }
    ensures refuses { Refuses S.Store tx.old.conn.now tx.new.conn.now (λ kept. Ok (answer.List (page_of page (resources_of (image_kept kept).base ven)))) result }
    ensures refused { IfErr result IsOfStore }
{
    let rows = resources_page(alloc, tx, ven, page)?;
    Ok(Answer::List(objects_of(alloc, rows)?))
}

// One page of the resources of the ven of an id, by who sees this much.
fn resources_seen<S: Alter>(
    alloc: Global,
    tx: &mut Transaction<'_, S>,
    sight: Sight,
    ven: &ObjectId,
    page: Page,
) -> Result<Answer, Refusal>
    ensures lent { LeavesLent S.Store tx.old.conn tx.new.conn result }
    ensures finds { FindsOr S.Store tx.old.conn.now tx.new.conn.now (λ kept. resources_told (image_kept kept).base page sight (ven_at ven.now kept.portfolio)) result }
    ensures refuses { Refuses S.Store tx.old.conn.now tx.new.conn.now (λ kept. resources_told (image_kept kept).base page sight (ven_at ven.now kept.portfolio)) result }
    ensures listed { IfErr result (IsOneOf (Forbidden ∷ NotFound ∷ [])) }
{
    let number = read_ven_in_sight(alloc, tx, sight, ven)?;
    resources_listed(alloc, tx, number, page)
}

/// One page of the resources of the ven of an id; `NotFound` where the ven isn't there, `Forbidden` where it is out of
/// sight. No resource of another ven is read, and none that is not told.
pub fn resources<S: Alter>(
    alloc: Global,
    tx: &mut Transaction<'_, S>,
    role: &Role,
    ven: &ObjectId,
    page: Page,
) -> Result<Answer, Refusal>
    ensures lent { LeavesLent S.Store tx.old.conn tx.new.conn result }
    ensures finds { FindsOr S.Store tx.old.conn.now tx.new.conn.now (λ kept. resources_reply (image_kept kept).base role.now ven.now page) result }
    ensures refuses { Refuses S.Store tx.old.conn.now tx.new.conn.now (λ kept. resources_reply (image_kept kept).base role.now ven.now page) result }
    ensures listed { IfErr result (IsOneOf (Forbidden ∷ NotFound ∷ [])) }
{
    let sight = sight_in(alloc, tx, role)?;
    resources_seen(alloc, tx, sight, ven, page)
}
