//! The shares in a program, from their own table.
ghost use Rattle.std.specs.Prelude.{◌≡◌, [], ◌∷◌, map, filter, IfOk, IfErr};
ghost use Rattle.std.specs.Str.{bytes_eq};
ghost use Rattle.adr_text.specs.declared.refusal.Refusal.TheVariants.{Forbidden};
ghost use Rattle.adr_state.specs.Shares.{share_object};
ghost use Rattle.adr_queries.specs.declared.answer.Answer.TheVariants as answer;
ghost use Rattle.adr_queries.specs.declared.answer.Object.TheVariants as object;
ghost use Rattle.adr_queries.specs.Listings.{shares_of, shares_reply};
ghost use Rattle.adr_sql.specs.Calls.{LeavesLent};
ghost use Rattle.adr_db.specs.Calls.{Finds, IsOfStore, IsOneOf};
ghost use Rattle.adr_db.specs.BaseCalls.{Refuses};
ghost use Rattle.adr_db.specs.Images.{image_kept};
ghost use Rattle.adr_answers.specs.Calls.{FindsOr};

use adr_db_portfolio::read_shares;
use adr_objects::ShareObject;
use adr_queries::{Answer, Object, Role, is_operator};
use adr_state::{ShareKey, Weight};
use adr_text::{ObjectId, Refusal, Rows, Table};
use sqlite::{Alter, Transaction};
use std::alloc::{AllocError, Global};

// A share as it is told.
fn share_object(key: &ShareKey, weight: Weight) -> Result<ShareObject, AllocError>
    ensures { IfOk result (λ object. object ≡ share_object (key.now, weight)) }
{
    Ok(ShareObject {
        program: key.program.clone()?,
        resource: key.resource,
        share: weight.get(),
    })
}

// The shares in a program, by resource number.
fn shares_of(
    alloc: Global,
    shares: &Table<ShareKey, Weight>,
    program: &ObjectId,
) -> Result<Vec<Object>, AllocError>
    ensures { IfOk result (λ all. all.items ≡ map (λ s. object.Share (share_object s)) (filter (λ s. bytes_eq s.0.program program.now) shares.now)) }
{
    let mut all = Vec::new(alloc);
    for (key, weight) in shares.iter() {
        if key.program == *program {
            all.push(Object::Share(share_object(key, *weight)?))?;
        }
    }
    Ok(all)
}

// The list of the shares in a program. No table is read but that of the shares.
fn shares_read<S: Alter>(
    alloc: Global,
    tx: &mut Transaction<'_, S>,
    program: &ObjectId,
) -> Result<Answer, Refusal>
    ensures lent { LeavesLent S.Store tx.old.conn tx.new.conn result }
    ensures finds { Finds S.Store tx.old.conn.now tx.new.conn.now (λ kept told. told ≡ answer.List (shares_of (image_kept kept).base program.now)) result }
    ensures refused { IfErr result IsOfStore }
{
    let shares = read_shares(alloc, tx)?;
    Ok(Answer::List(Rows::from_vec(shares_of(alloc, &shares, program)?)))
}

/// The shares in a program; `Forbidden` for another role than the operator, for whom alone they are read.
pub fn shares<S: Alter>(
    alloc: Global,
    tx: &mut Transaction<'_, S>,
    role: &Role,
    program: &ObjectId,
) -> Result<Answer, Refusal>
    ensures lent { LeavesLent S.Store tx.old.conn tx.new.conn result }
    ensures finds { FindsOr S.Store tx.old.conn.now tx.new.conn.now (λ kept. shares_reply (image_kept kept).base role.now program.now) result }
    ensures refuses { Refuses S.Store tx.old.conn.now tx.new.conn.now (λ kept. shares_reply (image_kept kept).base role.now program.now) result }
    ensures listed { IfErr result (IsOneOf (Forbidden ∷ [])) }
{
    if !is_operator(role) {
        return Err(Refusal::Forbidden);
    }
    shares_read(alloc, tx, program)
}
