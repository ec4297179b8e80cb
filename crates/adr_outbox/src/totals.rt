//! How many entries there were, and what became of them.
ghost use Rattle.std.specs.Prelude.{IfErr};
ghost use Rattle.adr_sql.specs.Calls.{LeavesLent};
ghost use Rattle.adr_db.specs.Calls.{Finds, IsOfStore};
ghost use Rattle.adr_outbox.specs.Told.{AreItsCounts};

use adr_db::read_meta;
use adr_objects::OutboxCounts;
use adr_text::Refusal;
use sqlite::{Alter, Transaction};

/// How many entries were made, sent, given up and dropped, and how many wait. None of them is counted anew: the node keeps
/// their numbers.
pub fn counts<S: Alter>(tx: &mut Transaction<'_, S>) -> Result<OutboxCounts, Refusal>
    ensures lent { LeavesLent S.Store tx.old.conn tx.new.conn result }
    ensures finds { Finds S.Store tx.old.conn.now tx.new.conn.now AreItsCounts result }
    ensures refused { IfErr result IsOfStore }
{
    let meta = read_meta(tx)?;
    Ok(OutboxCounts {
        made: meta.counts.made.get(),
        sent: meta.counts.sent.get(),
        given_up: meta.counts.given_up.get(),
        dropped: meta.counts.dropped.get(),
        pending: meta.pending,
    })
}
