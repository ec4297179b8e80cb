//! What a role sees, by the vens that the tables hold.
ghost use Rattle.std.specs.Prelude.{◌≡◌, [], ◌∷◌, IfErr};
ghost use Rattle.adr_text.specs.declared.refusal.Refusal.TheVariants.{Forbidden};
ghost use Rattle.adr_sql.specs.Calls.{LeavesLent};
ghost use Rattle.adr_db.specs.Calls.{Finds, IsOfStore, IsOneOf};
ghost use Rattle.adr_db.specs.BaseCalls.{Refuses};
ghost use Rattle.adr_db.specs.Images.{image_kept};
ghost use Rattle.adr_answers.specs.Calls.{FindsOr};
ghost use Rattle.adr_queries.specs.Roles.{sight_by, sight_of};
ghost use Rattle.adr_answers.specs.Sights.{ven_of, sight_with};

use adr_db_portfolio::ven_at;
use adr_objects::Number;
use adr_queries::Role;
use adr_text::Refusal;
use adr_view::Sight;
use sqlite::{Alter, Transaction};
use std::alloc::Global;

// What an enrolled ven sees: what is its own.
fn sight_by(ven: Option<Number>) -> Result<Sight, Refusal>
    ensures { result ≡ sight_by ven }
{
    match ven {
        Some(number) => Ok(Sight::Of(number)),
        None => Err(Refusal::Forbidden),
    }
}

// The number of the ven that a role is, where it is one that is enrolled. Of another role nothing is read.
fn ven_of<S: Alter>(
    alloc: Global,
    tx: &mut Transaction<'_, S>,
    role: &Role,
) -> Result<Option<Number>, Refusal>
    ensures lent { LeavesLent S.Store tx.old.conn tx.new.conn result }
    ensures finds { Finds S.Store tx.old.conn.now tx.new.conn.now (λ kept ven. ven ≡ ven_of role.now kept.portfolio) result }
    ensures refused { IfErr result IsOfStore }
{
    match role {
        Role::Operator => Ok(None),
        Role::Ven(id) => ven_at(alloc, tx, id),
        Role::Utility => Ok(None),
    }
}

// What a role sees, where that is its ven.
fn sight_with(role: &Role, ven: Option<Number>) -> Result<Sight, Refusal>
    ensures gives { result ≡ sight_with role.now ven }
    ensures refused { IfErr result (IsOneOf (Forbidden ∷ [])) }
{
    match role {
        Role::Operator => Ok(Sight::All),
        Role::Ven(_) => sight_by(ven),
        Role::Utility => Err(Refusal::Forbidden),
    }
}

/// What a role sees, or `Forbidden`. No more is read than the ven of its id.
pub fn sight_in<S: Alter>(
    alloc: Global,
    tx: &mut Transaction<'_, S>,
    role: &Role,
) -> Result<Sight, Refusal>
    ensures lent { LeavesLent S.Store tx.old.conn tx.new.conn result }
    ensures finds { FindsOr S.Store tx.old.conn.now tx.new.conn.now (λ kept. sight_of (image_kept kept).base role.now) result }
    ensures refuses { Refuses S.Store tx.old.conn.now tx.new.conn.now (λ kept. sight_of (image_kept kept).base role.now) result }
    ensures refused { IfErr result (IsOneOf (Forbidden ∷ [])) }
{
    let ven = ven_of(alloc, tx, role)?;
    sight_with(role, ven)
}
