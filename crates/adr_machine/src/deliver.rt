//! What a command does with an entry of the outbox. After a refusal the outbox is left anyhow.
ghost use Rattle.std.specs.Prelude.{◌≡◌, ◌≢◌, Ok, Err, IfOk, IfErr};
ghost use Rattle.adr_text.specs.declared.refusal.Refusal.TheVariants.{Store};
ghost use Rattle.adr_text.specs.Refusals.{IsRefusalOf};
ghost use Rattle.adr_queries.specs.declared.answer.Answer.TheVariants as answer;
ghost use Rattle.adr_machine.specs.Edits.{told_by};
ghost use Rattle.adr_machine.specs.Deliveries.{job_told, leased, delivered};

use crate::command::Command;
use adr_delivery::{Entry, Outbox};
use adr_objects::Number;
use adr_queries::Answer;
use adr_state::Limits;
use adr_text::{Moment, Refusal};
use std::alloc::{AllocError, Global};

/// What is to be sent of an entry that was leased, where one was.
fn job_told(
    alloc: Global,
    outbox: &Outbox,
    leased: Option<(Number, Entry)>,
) -> Result<Answer, AllocError>
    ensures { IfOk result (λ answer. answer ≡ job_told outbox.now leased) }
{
    match leased {
        Some((number, entry)) => Ok(Answer::Job(Some(outbox.job(alloc, number, &entry)?))),
        None => Ok(Answer::Job(None)),
    }
}

/// The next entry is leased, where one may leave.
fn leased(
    alloc: Global,
    limits: &Limits,
    now: Moment,
    outbox: &mut Outbox,
) -> Result<Answer, Refusal>
    ensures ok { IfOk result (λ answer. leased limits.now now outbox.old ≡ Ok (answer, outbox.new)) }
    ensures refused { IfErr result (λ refusal. IsRefusalOf refusal (leased limits.now now outbox.old)) }
    ensures no_store { result ≢ Err Store }
{
    let next = outbox.lease(alloc, limits.serial.get(), now)?;
    Ok(job_told(alloc, outbox, next)?)
}

/// That it was done.
fn done(ended: Result<(), Refusal>) -> Result<Answer, Refusal>
    ensures { result ≡ told_by (λ _. answer.Done) ended }
{
    ended?;
    Ok(Answer::Done)
}

/// What the command answers and makes of the outbox, where it is about an entry.
pub(crate) fn delivered(
    alloc: Global,
    limits: &Limits,
    now: Moment,
    outbox: &mut Outbox,
    command: &Command,
) -> Result<Answer, Refusal>
    ensures ok { IfOk result (λ answer. delivered limits.now now outbox.old command.now ≡ Ok (answer, outbox.new)) }
    ensures refused { IfErr result (λ refusal. IsRefusalOf refusal (delivered limits.now now outbox.old command.now)) }
    ensures no_store { result ≢ Err Store }
{
    match command {
        Command::Lease => leased(alloc, limits, now, outbox),
        Command::Sent {
            entry,
            lease,
            remote,
        } => done(outbox.sent(*entry, *lease, remote.as_ref())),
        Command::Failed {
            entry,
            lease,
            forget,
        } => done(outbox.failed(now, *entry, *lease, *forget)),
        _ => Ok(Answer::Done),
    }
}
