//! What comes of a job that was sent.
ghost use Rattle.std.specs.Prelude.{◌≡◌, IfOk};
ghost use Rattle.serde_json.specs.View.{view};
ghost use Rattle.adr_text.specs.Faults.{Finds};
ghost use Rattle.adr_link.specs.Outcomes.{is_post, is_new_report, is_newer_report, is_success, object_id_in, id_told, remote_told, outcome_told, outcome_of};

use crate::reply::{HttpReply, LinkFault};
use crate::target::is_for_utility;
use adr_delivery::{Job, JobMethod};
use adr_text::{Fault, ObjectId, needed, read_value};
use serde_json::Value;
use std::alloc::{AllocError, Global};

/// What comes of a job.
#[derive(Drop)]
pub enum Outcome {
    /// It was taken. The id that the utility gave a new report is told with it, where it is known.
    Sent(Option<ObjectId>),
    /// It was not taken, or that isn't known. `forget`: the utility has no report of the id that it was sent for.
    Failed { forget: bool },
}

fn is_post(method: JobMethod) -> bool
    ensures { result ≡ is_post method }
{
    matches!(method, JobMethod::Post)
}

/// Whether it is a new report.
fn is_new_report(job: &Job) -> bool
    ensures { result ≡ is_new_report job.now }
{
    is_for_utility(job) && is_post(job.method)
}

/// Whether it is a report in the place of one that the utility has.
fn is_newer_report(job: &Job) -> bool
    ensures { result ≡ is_newer_report job.now }
{
    is_for_utility(job) && !is_post(job.method)
}

/// Whether a status tells of success (RFC 9110, section 15.3).
fn is_success(status: u16) -> bool
    ensures { result ≡ is_success status }
{
    200 <= status && status <= 299
}

fn object_id_in(alloc: Global, value: &Value) -> Result<ObjectId, Fault>
    ensures { Finds (λ id. id) result (object_id_in (view value.now)) }
{
    needed(alloc, value, "id")
}

/// The id of the object that the bytes are, where they are one that has an id.
fn id_told(alloc: Global, body: &[u8]) -> Result<Option<ObjectId>, AllocError>
    ensures { IfOk result (λ id. id ≡ id_told body.now) }
{
    match read_value(alloc, body).and_then(|value| object_id_in(alloc, &value)) {
        Ok(id) => Ok(Some(id)),
        Err(Fault::OutOfMemory) => Err(AllocError),
        Err(_) => Ok(None),
    }
}

/// The utility's id of a new report, where the reply tells it.
fn remote_told(alloc: Global, job: &Job, body: &[u8]) -> Result<Option<ObjectId>, AllocError>
    ensures { IfOk result (λ id. id ≡ remote_told job.now body.now) }
{
    if !is_new_report(job) {
        return Ok(None);
    }
    id_told(alloc, body)
}

fn outcome_told(alloc: Global, job: &Job, reply: &HttpReply) -> Result<Outcome, AllocError>
    ensures { IfOk result (λ outcome. outcome ≡ outcome_told job.now reply.now) }
{
    if is_success(reply.status) {
        let remote = remote_told(alloc, job, reply.body.as_slice())?;
        return Ok(Outcome::Sent(remote));
    }
    let forget = is_newer_report(job) && reply.status == 404;
    Ok(Outcome::Failed { forget })
}

/// What comes of a job, by the reply that came, or by the fault where none came. A status from 200 to 299 tells that it
/// was taken; of a new report the reply may tell the id that the utility gave it (OpenADR 3.0, REPORT). After 404 to a
/// report in the place of one, the utility has that one no longer. All else is a failure.
pub fn outcome_of(
    alloc: Global,
    job: &Job,
    came: &Result<HttpReply, LinkFault>,
) -> Result<Outcome, AllocError>
    ensures { IfOk result (λ outcome. outcome ≡ outcome_of job.now came.now) }
{
    match came {
        Ok(reply) => outcome_told(alloc, job, reply),
        Err(_) => Ok(Outcome::Failed { forget: false }),
    }
}
