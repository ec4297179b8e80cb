//! What those who take part in an event weigh, from the tables.
ghost use Rattle.std.specs.Prelude.{◌≡◌, IfOk, IfErr};
ghost use Rattle.adr_state.specs.Participants.{participants};
ghost use Rattle.adr_sql.specs.Calls.{LeavesLent};
ghost use Rattle.adr_db.specs.Calls.{Finds, IsOfStore};
ghost use Rattle.adr_portfolio.specs.Parts.{parts_of};

use adr_db_portfolio::Sharers;
use adr_objects::{EventBody, Number};
use adr_state::{Participant, Weight};
use adr_text::{ObjectId, Refusal, Rows};
use sqlite::{Alter, Transaction};
use std::alloc::{AllocError, Global};

/// Each by its number with its weight.
fn parts_of(alloc: Global, ps: &[Participant]) -> Result<Rows<(Number, Weight)>, AllocError>
    ensures { IfOk result (λ parts. parts ≡ parts_of ps.now) }
{
    let mut parts = Vec::new(alloc);
    'ps: for p in ps {
        parts.push((p.resource, p.weight))?;
    }
    Ok(Rows::from_vec(parts))
}

/// Who takes part in the event of an id, in the order of their numbers, each by its number with its weight. It costs
/// what `Sharers::participants` does, of which none are known.
pub fn participants<S: Alter>(
    alloc: Global,
    tx: &mut Transaction<'_, S>,
    id: &ObjectId,
    event: &EventBody,
) -> Result<Rows<(Number, Weight)>, Refusal>
    ensures lent { LeavesLent S.Store tx.old.conn tx.new.conn result }
    ensures finds { Finds S.Store tx.old.conn.now tx.new.conn.now (λ kept parts. parts ≡ parts_of (participants kept.portfolio id.now event.now)) result }
    ensures refused { IfErr result IsOfStore }
{
    let those = Sharers::none(alloc).participants(alloc, tx, id, event)?;
    Ok(parts_of(alloc, those.as_slice())?)
}
