//! The entries of subscriptions that are not there are dropped.
ghost use Rattle.std.specs.Prelude.{IfErr};
ghost use Rattle.adr_sql.specs.Calls.{LeavesLent};
ghost use Rattle.adr_db.specs.Calls.{LeavesKept, IsOfStore};
ghost use Rattle.adr_outbox.specs.Dropped.{without_entries, DropsLost};

use adr_db::Meta;
use adr_db_outbox::{read_lost, remove_entry};
use adr_objects::Number;
use adr_text::{Refusal, Rows};
use sqlite::{Alter, Transaction};
use std::alloc::Global;

// The entries of these numbers go, one after another.
fn remove_each<S: Alter>(tx: &mut Transaction<'_, S>, numbers: Rows<Number>) -> Result<(), Refusal>
    ensures lent { LeavesLent S.Store tx.old.conn tx.new.conn result }
    ensures leaves { LeavesKept S.Store tx.old.conn.now tx.new.conn.now (λ kept. record kept { entries = without_entries numbers kept.entries }) result }
    ensures refused { IfErr result IsOfStore }
{
    'numbers: for number in numbers.into_vec() {
        remove_entry(tx, number)?;
    }
    Ok(())
}

/// Drops the entries of subscriptions that are not there, and counts them as dropped; those for the utility stay. The
/// numbers of the node are handed in, and are left as the caller has to put them.
pub fn drop_lost<S: Alter>(
    alloc: Global,
    tx: &mut Transaction<'_, S>,
    meta: &mut Meta,
) -> Result<(), Refusal>
    ensures lent { LeavesLent S.Store tx.old.conn tx.new.conn result }
    ensures drops { DropsLost S.Store tx.old.conn.now tx.new.conn.now meta.old meta.new result }
    ensures refused { IfErr result IsOfStore }
{
    let lost = read_lost(alloc, tx)?;
    let many = lost.len() as u64;
    remove_each(tx, lost)?;
    meta.pending = meta.pending.saturating_sub(many);
    meta.counts.dropped = meta.counts.dropped.plus(many);
    Ok(())
}
