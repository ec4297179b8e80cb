//! A ven, by its own row.
ghost use Rattle.std.specs.Prelude.{◌≡◌, [], ◌∷◌, IfErr};
ghost use Rattle.adr_text.specs.declared.refusal.Refusal.TheVariants.{Forbidden, NotFound};
ghost use Rattle.adr_state.specs.Vens.{ven_with_id, ven_object};
ghost use Rattle.adr_queries.specs.Listings.{ven_told, ven_reply};
ghost use Rattle.adr_sql.specs.Calls.{LeavesLent};
ghost use Rattle.adr_db.specs.Calls.{IsOneOf};
ghost use Rattle.adr_db.specs.BaseCalls.{Refuses};
ghost use Rattle.adr_db.specs.Images.{image_kept};
ghost use Rattle.adr_answers.specs.Calls.{FindsOr};

use crate::sight::sight_in;
use adr_db_portfolio::ven_with_id;
use adr_objects::{Number, VenObject};
use adr_queries::{Answer, Object, Role};
use adr_state::Ven;
use adr_text::{ObjectId, Refusal};
use adr_view::{Sight, sees_ven};
use sqlite::{Alter, Transaction};
use std::alloc::Global;

// A ven as it is told.
fn ven_object(number: Number, ven: Ven) -> VenObject
    ensures { result ≡ ven_object (number, ven) }
{
    VenObject {
        number,
        name: ven.name,
        stamps: ven.stamps,
    }
}

// The ven that was found, where who sees this much sees it.
fn ven_told(sight: Sight, found: Option<(Number, Ven)>) -> Result<Answer, Refusal>
    ensures gives { result ≡ ven_told sight found }
    ensures listed { IfErr result (IsOneOf (Forbidden ∷ NotFound ∷ [])) }
{
    let Some((number, ven)) = found else {
        return Err(Refusal::NotFound);
    };
    if !sees_ven(sight, number) {
        return Err(Refusal::Forbidden);
    }
    Ok(Answer::Object(Object::Ven(ven_object(number, ven))))
}

// The ven of an id, by who sees this much.
fn ven_seen<S: Alter>(
    alloc: Global,
    tx: &mut Transaction<'_, S>,
    sight: Sight,
    id: &ObjectId,
) -> Result<Answer, Refusal>
    ensures lent { LeavesLent S.Store tx.old.conn tx.new.conn result }
    ensures finds { FindsOr S.Store tx.old.conn.now tx.new.conn.now (λ kept. ven_told sight (ven_with_id id.now kept.portfolio)) result }
    ensures refuses { Refuses S.Store tx.old.conn.now tx.new.conn.now (λ kept. ven_told sight (ven_with_id id.now kept.portfolio)) result }
    ensures listed { IfErr result (IsOneOf (Forbidden ∷ NotFound ∷ [])) }
{
    let found = ven_with_id(alloc, tx, id)?;
    ven_told(sight, found)
}

/// The ven of an id; `NotFound` where it isn't there, `Forbidden` where it is out of sight.
pub fn ven<S: Alter>(
    alloc: Global,
    tx: &mut Transaction<'_, S>,
    role: &Role,
    id: &ObjectId,
) -> Result<Answer, Refusal>
    ensures lent { LeavesLent S.Store tx.old.conn tx.new.conn result }
    ensures finds { FindsOr S.Store tx.old.conn.now tx.new.conn.now (λ kept. ven_reply (image_kept kept).base role.now id.now) result }
    ensures refuses { Refuses S.Store tx.old.conn.now tx.new.conn.now (λ kept. ven_reply (image_kept kept).base role.now id.now) result }
    ensures listed { IfErr result (IsOneOf (Forbidden ∷ NotFound ∷ [])) }
{
    let sight = sight_in(alloc, tx, role)?;
    ven_seen(alloc, tx, sight, id)
}
