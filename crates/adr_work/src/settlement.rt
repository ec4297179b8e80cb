//! What a sender tells the book.
ghost use Rattle.std.specs.Prelude.{◌≡◌};
ghost use Rattle.adr_work.specs.Settling.{settlement_of};

use adr_delivery::Job;
use adr_link::Outcome;
use adr_machine::Command;

/// The command that settles a job by what came of it, under the job's own lease.
pub fn settlement_of(job: &Job, outcome: Outcome) -> Command
    ensures { result ≡ settlement_of job.now outcome }
{
    let (entry, lease) = (job.entry, job.lease);
    match outcome {
        Outcome::Sent(remote) => Command::Sent {
            entry,
            lease,
            remote,
        },
        Outcome::Failed { forget } => Command::Failed {
            entry,
            lease,
            forget,
        },
    }
}
