//! The pairs that are kept for an event, from the table `frozen_share`.
ghost use Rattle.std.specs.Prelude.{◌≡◌, map, IfOk, IfErr};
ghost use Rattle.adr_state.specs.Frozen.{pair_of, pairs_kept};
ghost use Rattle.adr_sql.specs.Calls.{LeavesLent};
ghost use Rattle.adr_db.specs.Calls.{Finds, IsOfStore};

use adr_db_portfolio::read_frozen_in;
use adr_objects::Number;
use adr_state::{FrozenKey, Weight};
use adr_text::{ObjectId, Refusal, Rows};
use sqlite::{Alter, Transaction};
use std::alloc::{AllocError, Global};

// The number of each one's resource, with its weight.
fn pairs_of(
    alloc: Global,
    shares: &[(FrozenKey, Weight)],
) -> Result<Rows<(Number, Weight)>, AllocError>
    ensures { IfOk result (λ pairs. pairs ≡ map pair_of shares.now) }
{
    let mut pairs = Vec::new(alloc);
    'shares: for share in shares {
        pairs.push((share.0.resource, share.1))?;
    }
    Ok(Rows::from_vec(pairs))
}

/// The pairs that are kept for the event, in the order of the resources' numbers. No share of another event is read.
pub fn pairs_kept<S: Alter>(
    alloc: Global,
    tx: &mut Transaction<'_, S>,
    event: &ObjectId,
) -> Result<Rows<(Number, Weight)>, Refusal>
    ensures lent { LeavesLent S.Store tx.old.conn tx.new.conn result }
    ensures finds { Finds S.Store tx.old.conn.now tx.new.conn.now (λ kept pairs. pairs ≡ pairs_kept kept.portfolio event.now) result }
    ensures refused { IfErr result IsOfStore }
{
    let shares = read_frozen_in(alloc, tx, event)?;
    Ok(pairs_of(alloc, shares.as_slice())?)
}
