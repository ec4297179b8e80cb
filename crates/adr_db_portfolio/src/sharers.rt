//! Who shares in a program, and for whom a weight is kept in an event, from the tables `share` and `frozen_share`, `resource` and `ven`.
ghost use Rattle.std.specs.Prelude.{◌≡◌, ◌≤◌, ◌<◌, [], ◌∷◌, length, IfOk, IfErr};
ghost use Rattle.std.specs.List.{AllZip};
ghost use Rattle.adr_text.specs.declared.refusal.Refusal.TheVariants.{Store};
ghost use Rattle.adr_state.specs.Weights.{most_resources};
ghost use Rattle.adr_sql.specs.Calls.{LeavesLent};
ghost use Rattle.adr_db.specs.Sharing.{sharers, frozen_sharers};
ghost use Rattle.adr_db.specs.Calls.{Finds, IsOfStore};
ghost use Rattle.adr_db.specs.Admitted.{ReadsParticipant};
ghost use Rattle.adr_db.specs.Refusals.{RefusesToShow, CannotRead};
ghost use Rattle.adr_db_portfolio.specs.Sharers.{AreSharers};
ghost use Rattle.sqlite.specs.declared.types.Value.TheVariants.{Text};

use adr_db::reading::all_of;
use adr_state::Participant;
use adr_text::{ObjectId, Refusal, Rows};
use sqlite::types::ToSql;
use sqlite::{Alter, Transaction};
use std::alloc::Global;

const READ_SHARERS: &str =
    "SELECT s.resource, s.weight, r.name, v.name FROM share s JOIN resource r ON r.id = s.resource JOIN ven v ON v.id = r.ven WHERE s.program = ?1 ORDER BY s.program, s.resource";

const READ_FROZEN: &str =
    "SELECT s.resource, s.weight, r.name, v.name FROM frozen_share s JOIN resource r ON r.id = s.resource JOIN ven v ON v.id = r.ven WHERE s.event = ?1 ORDER BY s.event, s.resource";

// More of them than a node has resources is the store's refusal.
fn within(sharers: Rows<Participant>) -> Result<Rows<Participant>, Refusal>
    ensures same { IfOk result (λ all. all ≡ sharers) }
    ensures few { IfOk result (λ all. length all ≤ most_resources) }
    ensures beyond { IfErr result (λ refusal. (refusal ≡ Store) × (most_resources < length sharers)) }
{
    if sharers.len() > 10_000 {
        return Err(Refusal::Store);
    }
    Ok(sharers)
}

/// The resources with a share in the program, in the order of their numbers, each with its weight, its
/// name and its ven's: at most as many as a node has resources. It costs a look-up of a resource and a ven for
/// each share in the program.
pub fn read_sharers<S: Alter>(
    alloc: Global,
    tx: &mut Transaction<'_, S>,
    program: &ObjectId,
) -> Result<Rows<Participant>, Refusal>
    ensures lent { LeavesLent S.Store tx.old.conn tx.new.conn result }
    ensures finds { Finds S.Store tx.old.conn.now tx.new.conn.now (λ kept all. all ≡ sharers program.now kept) result }
    ensures few { IfOk result (λ all. length all ≤ most_resources) }
    ensures refused { IfErr result IsOfStore }
    ensures fails { RefusesToShow S.Store tx.old.conn.now tx.new.conn.now READ_SHARERS.now (Text program.now ∷ []) (CannotRead AreSharers (AllZip ReadsParticipant)) result }
{
    let sharers = all_of(alloc, tx, READ_SHARERS, &[program.as_str().to_sql()])?;
    within(sharers)
}

/// The resources for which a weight is kept in the event, in the order of their numbers, each with that weight, its name and
/// its ven's: at most as many as a node has resources. It costs a look-up of a resource and a ven for each.
pub(crate) fn read_frozen_sharers<S: Alter>(
    alloc: Global,
    tx: &mut Transaction<'_, S>,
    event: &ObjectId,
) -> Result<Rows<Participant>, Refusal>
    ensures lent { LeavesLent S.Store tx.old.conn tx.new.conn result }
    ensures finds { Finds S.Store tx.old.conn.now tx.new.conn.now (λ kept all. all ≡ frozen_sharers event.now kept) result }
    ensures few { IfOk result (λ all. length all ≤ most_resources) }
    ensures refused { IfErr result IsOfStore }
    ensures fails { RefusesToShow S.Store tx.old.conn.now tx.new.conn.now READ_FROZEN.now (Text event.now ∷ []) (CannotRead AreSharers (AllZip ReadsParticipant)) result }
{
    let sharers = all_of(alloc, tx, READ_FROZEN, &[event.as_str().to_sql()])?;
    within(sharers)
}
