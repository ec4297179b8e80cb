//! The lines that answers and refusals print.
ghost use Rattle.std.specs.Prelude.{◌≡◌, ◌++◌, IfOk, OnOk, string_bytes};
ghost use Rattle.adr_script.specs.Bodies.{reply_line, changes_line, bad_line, refused_line, count_line, done_line, kind_word, key_text, probes_line, destination_word, method_word, sending_words, job_line, no_job_line, next_line, step_line, node_line, told_by, step_text, outcome_text};
ghost use Rattle.adr_reply.specs.Replies.{reply_parts};
ghost use Rattle.adr_reply.specs.Problems.{problem_reply};

use adr_asked::{Asked, reply_to};
use adr_delivery::{Job, JobMethod};
use adr_machine::Answer;
use adr_objects::{Kind, Number};
use adr_reply::{Problem, Reply};
use adr_state::MirrorKey;
use adr_text::{Name, Refusal};
use adr_written::sub_id;
use std::alloc::{AllocError, Global};

/// A reply as a line: `STATUS BODY`.
#[tactic(auto, unfolding(crate::specs::Bodies::reply_line))]
fn reply_line(alloc: Global, reply: &Reply) -> Result<String, AllocError>
    ensures { IfOk result (λ text. string_bytes text ≡ reply_line (reply_parts reply.now)) }
{
    let status = reply.status;
    let body = reply.body.as_str();
    format!(in alloc; "{status} {body}\n")
}

/// The line of a problem.
fn problem_line(alloc: Global, problem: Problem) -> Result<String, AllocError>
    ensures { IfOk result (λ text. string_bytes text ≡ reply_line (problem_reply problem)) }
{
    let reply = problem.reply(alloc)?;
    reply_line(alloc, &reply)
}

/// `refused N TITLE`.
#[tactic(auto, unfolding(crate::specs::Bodies::refused_line))]
fn refused_line(alloc: Global, refusal: Refusal) -> Result<String, AllocError>
    ensures { IfOk result (λ text. string_bytes text ≡ refused_line refusal) }
{
    let number = refusal.number();
    let title = refusal.title();
    format!(in alloc; "refused {number} {title}\n")
}

/// What is printed to the node itself where it asks nothing.
fn node_line(alloc: Global, problem: Problem) -> Result<String, AllocError>
    ensures { IfOk result (λ text. string_bytes text ≡ node_line problem) }
{
    match problem {
        Problem::Refused(refusal) => refused_line(alloc, refusal),
        problem => problem_line(alloc, problem),
    }
}

/// What is printed of a problem: to the node itself, or to a role.
#[tactic(auto, unfolding(crate::specs::Bodies::told_by))]
pub(crate) fn told_by(alloc: Global, role: &[u8], problem: Problem) -> Result<String, AllocError>
    ensures { IfOk result (λ text. string_bytes text ≡ told_by role.now problem) }
{
    if role == b"node".as_slice() {
        node_line(alloc, problem)
    } else {
        problem_line(alloc, problem)
    }
}

/// `changes N skipped M`.
#[tactic(auto, unfolding(crate::specs::Bodies::changes_line))]
fn changes_line(alloc: Global, changes: u64, skipped: u64) -> Result<String, AllocError>
    ensures { IfOk result (λ text. string_bytes text ≡ changes_line changes skipped) }
{
    format!(in alloc; "changes {changes} skipped {skipped}\n")
}

/// `changes N`.
#[tactic(auto, unfolding(crate::specs::Bodies::count_line))]
fn count_line(alloc: Global, changes: u64) -> Result<String, AllocError>
    ensures { IfOk result (λ text. string_bytes text ≡ count_line changes) }
{
    format!(in alloc; "changes {changes}\n")
}

/// `done`.
#[tactic(auto, unfolding(crate::specs::Bodies::done_line))]
fn done_line(alloc: Global) -> Result<String, AllocError>
    ensures { IfOk result (λ text. string_bytes text ≡ done_line) }
{
    String::from_str(alloc, "done\n")
}

fn kind_word(kind: Kind) -> &'static str
    ensures { result.now ≡ kind_word kind }
{
    match kind {
        Kind::Program => "programs",
        Kind::Event => "events",
    }
}

/// Adds ` programs/ID` or ` events/ID`.
fn push_key(text: &mut String, key: &MirrorKey) -> Result<(), AllocError>
    ensures { OnOk result (string_bytes text.new ≡ string_bytes text.old ++ key_text key.now) }
{
    text.push_str(" ")?;
    text.push_str(kind_word(key.kind))?;
    text.push_str("/")?;
    text.push_str(key.id.as_str())
}

/// `probes`, and each key.
#[tactic(auto, unfolding(crate::specs::Bodies::probes_line))]
fn probes_line(alloc: Global, keys: &[MirrorKey]) -> Result<String, AllocError>
    ensures { IfOk result (λ text. string_bytes text ≡ probes_line keys.now) }
{
    let mut text = String::from_str(alloc, "probes")?;
    for key in keys {
        push_key(&mut text, key)?;
    }
    text.push_str("\n")?;
    Ok(text)
}

/// Where a job goes to: `s6`, as the subscription of that number is called, or `upstream`, which is the utility.
#[tactic(auto, unfolding(crate::specs::Bodies::destination_word))]
fn destination_word(alloc: Global, destination: Number) -> Result<String, AllocError>
    ensures { IfOk result (λ word. string_bytes word ≡ destination_word destination) }
{
    if destination.get() == 0 {
        String::from_str(alloc, "upstream")
    } else {
        sub_id(alloc, destination)
    }
}

#[tactic(auto, unfolding(crate::specs::Bodies::method_word))]
fn method_word(method: JobMethod) -> &'static str
    ensures { result.now ≡ method_word method }
{
    match method {
        JobMethod::Post => "POST",
        JobMethod::Put => "PUT",
    }
}

/// `DEST METHOD TARGET`: to whom a job goes, how, and where.
#[tactic(auto, unfolding(crate::specs::Bodies::sending_words))]
fn sending_words(alloc: Global, job: &Job) -> Result<String, AllocError>
    ensures { IfOk result (λ words. string_bytes words ≡ sending_words job.now) }
{
    let destination = destination_word(alloc, job.destination)?;
    let destination = destination.as_str();
    let method = method_word(job.method);
    let target = job.target.as_str();
    format!(in alloc; "{destination} {method} {target}")
}

/// `job ENTRY LEASE DEST METHOD TARGET BODY`. A token is not printed.
#[tactic(auto, unfolding(crate::specs::Bodies::job_line))]
fn job_line(alloc: Global, job: &Job) -> Result<String, AllocError>
    ensures { IfOk result (λ text. string_bytes text ≡ job_line job.now) }
{
    let entry = job.entry.get();
    let lease = job.lease;
    let sending = sending_words(alloc, job)?;
    let sending = sending.as_str();
    let body = job.body.as_str();
    format!(in alloc; "job {entry} {lease} {sending} {body}\n")
}

/// `job none`.
#[tactic(auto, unfolding(crate::specs::Bodies::no_job_line))]
fn no_job_line(alloc: Global) -> Result<String, AllocError>
    ensures { IfOk result (λ text. string_bytes text ≡ no_job_line) }
{
    String::from_str(alloc, "job none\n")
}

/// What is to be sent next, where something is.
fn next_line(alloc: Global, job: &Option<Job>) -> Result<String, AllocError>
    ensures { IfOk result (λ text. string_bytes text ≡ next_line job.now) }
{
    match job {
        Some(job) => job_line(alloc, job),
        None => no_job_line(alloc),
    }
}

/// `bad line`.
#[tactic(auto, unfolding(crate::specs::Bodies::bad_line))]
pub(crate) fn bad_line(alloc: Global) -> Result<String, AllocError>
    ensures { IfOk result (λ text. string_bytes text ≡ bad_line) }
{
    String::from_str(alloc, "bad line\n")
}

/// What an answer to a step of the node prints; of a page also how many of its elements were skipped.
fn step_line(alloc: Global, asked: &Asked, answer: &Answer) -> Result<String, AllocError>
    ensures { IfOk result (λ text. string_bytes text ≡ step_line asked.now answer.now) }
{
    match answer {
        Answer::Changes(changes) => match asked {
            Asked::Page(_, skipped) => changes_line(alloc, *changes, *skipped),
            _ => count_line(alloc, *changes),
        },
        Answer::Probes(keys) => probes_line(alloc, keys.as_slice()),
        Answer::Job(job) => next_line(alloc, job),
        _ => done_line(alloc),
    }
}

/// What is printed to the node itself of the machine's answer.
fn step_text(
    alloc: Global,
    asked: &Asked,
    outcome: &Result<Answer, Refusal>,
) -> Result<String, AllocError>
    ensures { IfOk result (λ text. string_bytes text ≡ step_text asked.now outcome.now) }
{
    match outcome {
        Ok(answer) => step_line(alloc, asked, answer),
        Err(refusal) => refused_line(alloc, *refusal),
    }
}

/// What is printed of the machine's answer to what was asked, by a node of that name.
#[tactic(auto, unfolding(crate::specs::Bodies::outcome_text))]
pub(crate) fn outcome_text(
    alloc: Global,
    client: &Name,
    role: &[u8],
    asked: &Asked,
    outcome: &Result<Answer, Refusal>,
) -> Result<String, AllocError>
    ensures { IfOk result (λ text. string_bytes text ≡ outcome_text client.now role.now asked.now outcome.now) }
{
    if role == b"node".as_slice() {
        return step_text(alloc, asked, outcome);
    }
    let reply = reply_to(alloc, client, asked, outcome)?;
    reply_line(alloc, &reply)
}
