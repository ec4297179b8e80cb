//! The ven that owns a resource, from the tables.
ghost use Rattle.std.specs.Prelude.{◌≡◌, IfErr};
ghost use Rattle.adr_sql.specs.Calls.{LeavesLent};
ghost use Rattle.adr_db.specs.Calls.{Finds, IsOfStore};
ghost use Rattle.adr_kept_view.specs.Changes.{owner_in};

use adr_db_portfolio::read_resource;
use adr_objects::Number;
use adr_text::Refusal;
use sqlite::{Alter, Transaction};
use std::alloc::Global;

/// The ven that owns a resource. The store's refusal where the resource is not there, which what is shown to it rules
/// out.
pub(crate) fn owner<S: Alter>(
    alloc: Global,
    tx: &mut Transaction<'_, S>,
    resource: Number,
) -> Result<Number, Refusal>
    ensures lent { LeavesLent S.Store tx.old.conn tx.new.conn result }
    ensures finds { Finds S.Store tx.old.conn.now tx.new.conn.now (λ kept ven. ven ≡ owner_in kept.portfolio resource) result }
    ensures refused { IfErr result IsOfStore }
{
    match read_resource(alloc, tx, resource)? {
        Some(found) => Ok(found.ven),
        None => Err(Refusal::Store),
    }
}
