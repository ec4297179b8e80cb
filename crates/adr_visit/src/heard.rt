//! Whose subscriptions are read before changes are told.
ghost use Rattle.std.specs.Prelude.{All, OnOk, IfErr};
ghost use Rattle.adr_sql.specs.Calls.{LeavesLent};
ghost use Rattle.adr_db.specs.Calls.{IsOfStore};
ghost use Rattle.adr_listeners.specs.Listeners.{FindsThose};
ghost use Rattle.adr_visit.specs.Heard.{IsHeard};

use crate::tells::Tells;
use adr_listeners::Listeners;
use adr_text::Refusal;
use sqlite::{Alter, Transaction};
use std::alloc::Global;

/// The subscriptions that may hear of these changes are read, unless they were before.
pub(crate) fn read_for<S: Alter, I, C, T: Tells<I, C>>(
    alloc: Global,
    tx: &mut Transaction<'_, S>,
    teller: &T,
    listeners: &mut Listeners,
    changes: &[C],
) -> Result<(), Refusal>
    ensures lent { LeavesLent S.Store tx.old.conn tx.new.conn result }
    ensures finds { FindsThose S.Store tx.old.conn.now tx.new.conn.now listeners.old listeners.new result }
    ensures heard { OnOk result (All (IsHeard (T.told teller.now) listeners.new) changes.now) }
    ensures refused { IfErr result IsOfStore }
{
    'changes: for change in changes {
        listeners.read(alloc, tx, teller.hearers(change))?;
    }
    Ok(())
}
