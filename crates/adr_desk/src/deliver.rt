//! Entries of the outbox that are leased, sent and failed, on the tables.
ghost use Rattle.std.specs.Prelude.{IfErr};
ghost use Rattle.std.specs.Option.{option_copied};
ghost use Rattle.adr_sql.specs.Calls.{LeavesLent};
ghost use Rattle.adr_queries.specs.declared.answer.Answer.TheVariants as answer;
ghost use Rattle.adr_queries.specs.Listed.{IsListed};
ghost use Rattle.adr_machine.specs.declared.command.Command.TheVariants as command;
ghost use Rattle.adr_machine.specs.Deliveries.{delivered};
ghost use Rattle.adr_machine.specs.Listed.{listed};
ghost use Rattle.adr_outbox.specs.Turned.{TurnsOutbox, RefusesOutbox};

use adr_db::Meta;
use adr_machine::told::after;
use adr_machine::{Answer, Command};
use adr_objects::Number;
use adr_outbox::{failed, lease, sent};
use adr_state::Limits;
use adr_text::{Moment, ObjectId, Refusal};
use sqlite::{Alter, Transaction};
use std::alloc::Global;

/// The next entry is leased, and told as what is to be sent of it.
fn leased<S: Alter>(
    alloc: Global,
    tx: &mut Transaction<'_, S>,
    limits: &Limits,
    now: Moment,
    meta: &Meta,
) -> Result<Answer, Refusal>
    ensures lent { LeavesLent S.Store tx.old.conn tx.new.conn result }
    ensures turns { TurnsOutbox S.Store tx.old.conn.now tx.new.conn.now (λ o. delivered limits.now now o command.Lease) meta.now meta.now result }
    ensures refuses { RefusesOutbox S.Store tx.old.conn.now tx.new.conn.now (λ o. delivered limits.now now o command.Lease) meta.now result }
    ensures listed { IfErr result (IsListed (Unit {0}) (listed command.Lease)) }
{
    let job = lease(alloc, tx, limits.serial.get(), now)?;
    Ok(Answer::Job(job))
}

/// An entry was sent.
fn was_sent<S: Alter>(
    alloc: Global,
    tx: &mut Transaction<'_, S>,
    limits: &Limits,
    now: Moment,
    meta: &mut Meta,
    entry: Number,
    lease: u64,
    remote: Option<&ObjectId>,
) -> Result<Answer, Refusal>
    ensures lent { LeavesLent S.Store tx.old.conn tx.new.conn result }
    ensures turns { TurnsOutbox S.Store tx.old.conn.now tx.new.conn.now (λ o. delivered limits.now now o (command.Sent entry lease (option_copied remote.entry))) meta.old meta.new result }
    ensures refuses { RefusesOutbox S.Store tx.old.conn.now tx.new.conn.now (λ o. delivered limits.now now o (command.Sent entry lease (option_copied remote.entry))) meta.old result }
    ensures listed { IfErr result (IsListed (Unit {0}) (listed (command.Sent entry lease (option_copied remote.entry)))) }
{
    after(sent(alloc, tx, meta, entry, lease, remote), Answer::Done)
}

/// An entry failed.
fn has_failed<S: Alter>(
    alloc: Global,
    tx: &mut Transaction<'_, S>,
    limits: &Limits,
    now: Moment,
    meta: &mut Meta,
    entry: Number,
    lease: u64,
    forget: bool,
) -> Result<Answer, Refusal>
    ensures lent { LeavesLent S.Store tx.old.conn tx.new.conn result }
    ensures turns { TurnsOutbox S.Store tx.old.conn.now tx.new.conn.now (λ o. delivered limits.now now o (command.Failed entry lease forget)) meta.old meta.new result }
    ensures refuses { RefusesOutbox S.Store tx.old.conn.now tx.new.conn.now (λ o. delivered limits.now now o (command.Failed entry lease forget)) meta.old result }
    ensures listed { IfErr result (IsListed (Unit {0}) (listed (command.Failed entry lease forget))) }
{
    after(
        failed(alloc, tx, meta, now, entry, lease, forget),
        Answer::Done,
    )
}

/// What the command does with an entry of the outbox. The numbers of the node are handed in, and are left as they have to
/// be put. A command about anything else leaves all, and is answered `Done`.
pub(crate) fn delivered<S: Alter>(
    alloc: Global,
    tx: &mut Transaction<'_, S>,
    limits: &Limits,
    now: Moment,
    meta: &mut Meta,
    command: &Command,
) -> Result<Answer, Refusal>
    ensures lent { LeavesLent S.Store tx.old.conn tx.new.conn result }
    ensures turns { TurnsOutbox S.Store tx.old.conn.now tx.new.conn.now (λ o. delivered limits.now now o command.now) meta.old meta.new result }
    ensures refuses { RefusesOutbox S.Store tx.old.conn.now tx.new.conn.now (λ o. delivered limits.now now o command.now) meta.old result }
    ensures listed { IfErr result (IsListed (Unit {0}) (listed command.now)) }
{
    match command {
        Command::Lease => leased(alloc, tx, limits, now, meta),
        Command::Sent {
            entry,
            lease,
            remote,
        } => was_sent(
            alloc,
            tx,
            limits,
            now,
            meta,
            *entry,
            *lease,
            remote.as_ref(),
        ),
        Command::Failed {
            entry,
            lease,
            forget,
        } => has_failed(alloc, tx, limits, now, meta, *entry, *lease, *forget),
        _ => Ok(Answer::Done),
    }
}
