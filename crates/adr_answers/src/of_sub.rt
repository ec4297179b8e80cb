//! A subscription, by its own row.
ghost use Rattle.std.specs.Prelude.{◌≡◌, [], ◌∷◌, IfErr};
ghost use Rattle.adr_text.specs.declared.refusal.Refusal.TheVariants.{Forbidden, NotFound};
ghost use Rattle.adr_state.specs.Subs.{sub_with_id, sub_object};
ghost use Rattle.adr_queries.specs.Subscribed.{sub_reply};
ghost use Rattle.adr_sql.specs.Calls.{LeavesLent};
ghost use Rattle.adr_db.specs.Calls.{IsOneOf};
ghost use Rattle.adr_db.specs.BaseCalls.{Refuses};
ghost use Rattle.adr_db.specs.Images.{image_kept};
ghost use Rattle.adr_answers.specs.Calls.{FindsOr};
ghost use Rattle.adr_answers.specs.Told.{sub_told};

use crate::sight::sight_in;
use adr_db_portfolio::sub_with_id;
use adr_objects::Number;
use adr_queries::{Answer, Object, Role};
use adr_subscription::{Sub, SubObject};
use adr_text::{ObjectId, Refusal};
use adr_view::{Sight, sees_owner};
use sqlite::{Alter, Transaction};
use std::alloc::Global;

// A subscription as it is told.
fn sub_object(number: Number, sub: Sub) -> SubObject
    ensures { result ≡ sub_object (number, sub) }
{
    SubObject {
        number,
        sub: sub.body,
        stamps: sub.stamps,
    }
}

// The subscription that was found, where who sees this much sees it.
fn sub_told(sight: Sight, found: Option<(Number, Sub)>) -> Result<Answer, Refusal>
    ensures gives { result ≡ sub_told sight found }
    ensures listed { IfErr result (IsOneOf (Forbidden ∷ NotFound ∷ [])) }
{
    let Some((number, sub)) = found else {
        return Err(Refusal::NotFound);
    };
    if !sees_owner(sight, sub.owner) {
        return Err(Refusal::Forbidden);
    }
    Ok(Answer::Object(Object::Sub(sub_object(number, sub))))
}

// The subscription of an id, by who sees this much.
fn sub_seen<S: Alter>(
    alloc: Global,
    tx: &mut Transaction<'_, S>,
    sight: Sight,
    id: &ObjectId,
) -> Result<Answer, Refusal>
    ensures lent { LeavesLent S.Store tx.old.conn tx.new.conn result }
    ensures finds { FindsOr S.Store tx.old.conn.now tx.new.conn.now (λ kept. sub_told sight (sub_with_id id.now kept.portfolio)) result }
    ensures refuses { Refuses S.Store tx.old.conn.now tx.new.conn.now (λ kept. sub_told sight (sub_with_id id.now kept.portfolio)) result }
    ensures listed { IfErr result (IsOneOf (Forbidden ∷ NotFound ∷ [])) }
{
    let found = sub_with_id(alloc, tx, id)?;
    sub_told(sight, found)
}

/// The subscription of an id; `NotFound` where it isn't there, and `Forbidden` where it is another's.
pub fn sub<S: Alter>(
    alloc: Global,
    tx: &mut Transaction<'_, S>,
    role: &Role,
    id: &ObjectId,
) -> Result<Answer, Refusal>
    ensures lent { LeavesLent S.Store tx.old.conn tx.new.conn result }
    ensures finds { FindsOr S.Store tx.old.conn.now tx.new.conn.now (λ kept. sub_reply (image_kept kept).base role.now id.now) result }
    ensures refuses { Refuses S.Store tx.old.conn.now tx.new.conn.now (λ kept. sub_reply (image_kept kept).base role.now id.now) result }
    ensures listed { IfErr result (IsOneOf (Forbidden ∷ NotFound ∷ [])) }
{
    let sight = sight_in(alloc, tx, role)?;
    sub_seen(alloc, tx, sight, id)
}
