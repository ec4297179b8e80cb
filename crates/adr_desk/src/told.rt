//! What is told of a command, and what becomes of the outbox.
ghost use Rattle.std.specs.Prelude.{IfErr};
ghost use Rattle.adr_sql.specs.Calls.{LeavesLent};
ghost use Rattle.adr_queries.specs.Listed.{IsListed};
ghost use Rattle.adr_machine.specs.Listed.{listed};
ghost use Rattle.adr_db.specs.Calls.{IsOfStore};
ghost use Rattle.adr_desk.specs.Told.{DropsGone, KeepsTold, RefusesTold};

use adr_commit::commit_touched;
use adr_db::Meta;
use adr_machine::{Command, Settings};
use adr_outbox::drop_lost;
use adr_text::{Moment, Refusal};
use adr_touched::Touched;
use sqlite::{Alter, Transaction};
use std::alloc::Global;

// The entries of subscriptions that are not there are dropped, behind a command by which one may have gone. Behind another none
// is looked for: where each entry had its own before, it has it still. The numbers of the node are handed in, and are left as
// they have to be put.
fn drop_gone<S: Alter>(
    alloc: Global,
    tx: &mut Transaction<'_, S>,
    meta: &mut Meta,
    command: &Command,
) -> Result<(), Refusal>
    ensures lent { LeavesLent S.Store tx.old.conn tx.new.conn result }
    ensures drops { DropsGone S.Store tx.old.conn.now tx.new.conn.now command.now meta.old meta.new result }
    ensures refused { IfErr result IsOfStore }
{
    if command.unsubscribes() {
        return drop_lost(alloc, tx, meta);
    }
    // as many were dropped as before, which is no more than a count may be
    let _dropped = meta.counts.dropped.get();
    Ok(())
}

/// The outbox after a command whose edit is made: without the entries of subscriptions that are not there, and with what is
/// told of the changes. What the command touched is visited for that, and nothing else; of a command that leaves all that is
/// shown nothing is. Answers how many changes there were. The numbers of the node are handed in, and are left as they have to
/// be put.
pub(crate) fn tell<S: Alter>(
    alloc: Global,
    tx: &mut Transaction<'_, S>,
    settings: &Settings,
    now: Moment,
    meta: &mut Meta,
    command: &Command,
    touched: &Touched,
) -> Result<u64, Refusal>
    ensures lent { LeavesLent S.Store tx.old.conn tx.new.conn result }
    ensures keeps { KeepsTold S.Store tx.old.conn.now tx.new.conn.now settings.now now command.now touched.now meta.old meta.new result }
    ensures refuses { RefusesTold S.Store tx.old.conn.now tx.new.conn.now settings.now now command.now touched.now meta.old result }
    ensures listed { IfErr result (IsListed (Unit {0}) (listed command.now)) }
{
    drop_gone(alloc, tx, meta, command)?;
    // as many were made as before, which is no more than a count may be
    let _made = meta.counts.made.get();
    if command.is_quiet() {
        return Ok(0);
    }
    commit_touched(alloc, tx, settings, now, meta, touched)
}
