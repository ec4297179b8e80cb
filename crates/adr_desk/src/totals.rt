//! How many entries of the outbox there were, as the operator is told.
ghost use Rattle.std.specs.Prelude.{IfErr};
ghost use Rattle.sqlite.specs.Held.{state};
ghost use Rattle.adr_sql.specs.Calls.{LeavesLent};
ghost use Rattle.adr_queries.specs.declared.query.Query.TheVariants as query;
ghost use Rattle.adr_queries.specs.Listed.{listed_for, IsListed};
ghost use Rattle.adr_queries.specs.Replies.{reply};
ghost use Rattle.adr_desk.specs.Steps.{TellsTables, RefusesAs};

use adr_machine::{Answer, Role, is_operator};
use adr_outbox::counts;
use adr_text::Refusal;
use sqlite::{Alter, Transaction};

/// How many entries were made, and what came of them, by the numbers of the node alone; `Forbidden` for another role than
/// the operator.
pub(crate) fn counted<S: Alter>(tx: &mut Transaction<'_, S>, role: &Role) -> Result<Answer, Refusal>
    ensures lent { LeavesLent S.Store tx.old.conn tx.new.conn result }
    ensures tells { TellsTables (λ held. reply held (query.Outbox role.now)) (state S.Store tx.old.conn.now) (state S.Store tx.new.conn.now) result }
    ensures refuses { RefusesAs (λ held. reply held (query.Outbox role.now)) (state S.Store tx.old.conn.now) (state S.Store tx.new.conn.now) result }
    ensures listed { IfErr result (IsListed (Unit {0}) (listed_for (query.Outbox role.now))) }
{
    Refusal::Forbidden.unless(is_operator(role))?;
    Ok(Answer::Counts(counts(tx)?))
}
