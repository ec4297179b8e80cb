//! The job that a lease was answered with.
ghost use Rattle.std.specs.Prelude.{◌≡◌, IfOk};
ghost use Rattle.adr_work.specs.Leased.{job_in};

use adr_delivery::Job;
use adr_machine::Answer;
use std::alloc::AllocError;

/// The job in an answer, where there is one.
pub(crate) fn job_in(answer: &Answer) -> Result<Option<Job>, AllocError>
    ensures { IfOk result (λ job. job ≡ job_in answer.now) }
{
    match answer {
        Answer::Job(Some(job)) => Ok(Some(job.copy()?)),
        _ => Ok(None),
    }
}
