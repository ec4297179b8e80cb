//! What is kept for a frozen event, by its own rows.
ghost use Rattle.std.specs.Prelude.{◌≡◌, [], ◌∷◌, IfOk, IfErr};
ghost use Rattle.adr_text.specs.declared.refusal.Refusal.TheVariants.{Forbidden, NotFound};
ghost use Rattle.adr_view.specs.Frozen.{frozen_pairs};
ghost use Rattle.adr_queries.specs.declared.answer.Answer.TheVariants as answer;
ghost use Rattle.adr_queries.specs.Frozen.{frozen_object, frozen_reply};
ghost use Rattle.adr_sql.specs.Calls.{LeavesLent};
ghost use Rattle.adr_db.specs.Calls.{IsOneOf};
ghost use Rattle.adr_db.specs.BaseCalls.{Refuses};
ghost use Rattle.adr_db.specs.Images.{image_kept};
ghost use Rattle.adr_answers.specs.Calls.{FindsOr};
ghost use Rattle.adr_answers.specs.Told.{frozen_told};

use adr_db_portfolio::is_frozen;
use adr_frozen::pairs_kept;
use adr_objects::Number;
use adr_queries::{Answer, Role, frozen_object, is_operator};
use adr_state::Weight;
use adr_text::{ObjectId, Refusal, Rows};
use sqlite::{Alter, Transaction};
use std::alloc::{AllocError, Global};

// The pairs that are kept for an event, as they are told.
fn pairs_told(
    alloc: Global,
    event: &ObjectId,
    pairs: &[(Number, Weight)],
) -> Result<Answer, AllocError>
    ensures { IfOk result (λ told. told ≡ answer.Frozen (frozen_object event.now pairs.now)) }
{
    Ok(Answer::Frozen(frozen_object(alloc, event, pairs)?))
}

// The pairs that are kept for the event of an id, or `NotFound` where it was never frozen.
fn frozen_pairs<S: Alter>(
    alloc: Global,
    tx: &mut Transaction<'_, S>,
    event: &ObjectId,
) -> Result<Rows<(Number, Weight)>, Refusal>
    ensures lent { LeavesLent S.Store tx.old.conn tx.new.conn result }
    ensures finds { FindsOr S.Store tx.old.conn.now tx.new.conn.now (λ kept. frozen_pairs event.now kept.portfolio) result }
    ensures refuses { Refuses S.Store tx.old.conn.now tx.new.conn.now (λ kept. frozen_pairs event.now kept.portfolio) result }
    ensures listed { IfErr result (IsOneOf (NotFound ∷ [])) }
{
    let is_kept = is_frozen(alloc, tx, event)?;
    if !is_kept {
        return Err(Refusal::NotFound);
    }
    pairs_kept(alloc, tx, event)
}

// What is kept for the event of an id, live or not, whoever asks.
fn frozen_told<S: Alter>(
    alloc: Global,
    tx: &mut Transaction<'_, S>,
    event: &ObjectId,
) -> Result<Answer, Refusal>
    ensures lent { LeavesLent S.Store tx.old.conn tx.new.conn result }
    ensures finds { FindsOr S.Store tx.old.conn.now tx.new.conn.now (λ kept. frozen_told event.now kept.portfolio) result }
    ensures refuses { Refuses S.Store tx.old.conn.now tx.new.conn.now (λ kept. frozen_told event.now kept.portfolio) result }
    ensures listed { IfErr result (IsOneOf (NotFound ∷ [])) }
{
    let pairs = frozen_pairs(alloc, tx, event)?;
    Ok(pairs_told(alloc, event, pairs.as_slice())?)
}

/// What is kept for the event of an id, live or not; `Forbidden` for another role than the operator, for whom alone it is
/// read, and `NotFound` where it was never frozen.
pub fn frozen<S: Alter>(
    alloc: Global,
    tx: &mut Transaction<'_, S>,
    role: &Role,
    event: &ObjectId,
) -> Result<Answer, Refusal>
    ensures lent { LeavesLent S.Store tx.old.conn tx.new.conn result }
    ensures finds { FindsOr S.Store tx.old.conn.now tx.new.conn.now (λ kept. frozen_reply (image_kept kept).base role.now event.now) result }
    ensures refuses { Refuses S.Store tx.old.conn.now tx.new.conn.now (λ kept. frozen_reply (image_kept kept).base role.now event.now) result }
    ensures listed { IfErr result (IsOneOf (Forbidden ∷ NotFound ∷ [])) }
{
    if !is_operator(role) {
        return Err(Refusal::Forbidden);
    }
    frozen_told(alloc, tx, event)
}
