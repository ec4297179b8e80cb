//! What a sender is told to send.
ghost use Rattle.std.specs.Prelude.{◌≡◌, IfOk};
ghost use Rattle.std.specs.Option.{option_copied};
ghost use Rattle.adr_delivery.specs.Jobs.{report_target, target_for, token_for, method_for, job_for, job_of};

use crate::addressee::Addressee;
use crate::entry::Entry;
use crate::outbox::Outbox;
use adr_objects::Number;
use adr_subscription::{BearerToken, FreeText};
use adr_text::ObjectId;
use std::alloc::{AllocError, Global};

/// How a job is sent (RFC 9110, method).
#[derive(Clone, Copy, PartialEq, Eq)]
pub enum JobMethod {
    Post,
    Put,
}

/// An entry that was leased, as it is to be sent.
pub struct Job {
    pub entry: Number,
    /// The number of the lease, by which it is told what came of it.
    pub lease: u64,
    /// The number of the subscription, and 0 for the utility.
    pub destination: Number,
    pub method: JobMethod,
    /// The address of the subscription, or the path below the utility's address.
    pub target: FreeText,
    pub token: Option<BearerToken>,
    pub body: FreeText,
}

impl Drop for Job {
    fn drop(self) {
        let Job {
            entry: _,
            lease: _,
            destination: _,
            method: _,
            target: _,
            token: _,
            body: _,
        } = self;
    }
}

impl Job {
    /// The same job again.
    pub fn copy(&self) -> Result<Job, AllocError>
        ensures { IfOk result (λ copy. copy ≡ self.now) }
    {
        Ok(Job {
            entry: self.entry,
            lease: self.lease,
            destination: self.destination,
            method: self.method,
            target: self.target.clone()?,
            token: self.token.clone()?,
            body: self.body.clone()?,
        })
    }
}

/// Where a report is sent to: a new one, or in the place of the one that the utility gave that id.
fn report_target(alloc: Global, remote: Option<&ObjectId>) -> Result<FreeText, AllocError>
    ensures { IfOk result (λ target. target ≡ report_target (option_copied remote.entry)) }
{
    let mut text = String::from_str(alloc, "/reports")?;
    if let Some(remote) = remote {
        text.push_str("/")?;
        text.push_str(remote.as_str())?;
    }
    FreeText::new(alloc, text.as_str())
}

fn target_for(
    alloc: Global,
    addressee: &Addressee,
    remote: Option<&ObjectId>,
) -> Result<FreeText, AllocError>
    ensures { IfOk result (λ target. target ≡ target_for (option_copied remote.entry) addressee.now) }
{
    match addressee {
        Addressee::Utility(_) => report_target(alloc, remote),
        Addressee::Subscriber { address, .. } => address.clone(),
    }
}

fn token_for(addressee: &Addressee) -> Result<Option<BearerToken>, AllocError>
    ensures { IfOk result (λ token. token ≡ token_for addressee.now) }
{
    match addressee {
        Addressee::Utility(_) => Ok(None),
        Addressee::Subscriber { token, .. } => token.clone(),
    }
}

fn method_for(remote: Option<&ObjectId>) -> JobMethod
    ensures { result ≡ method_for (option_copied remote.entry) }
{
    match remote {
        Some(_) => JobMethod::Put,
        None => JobMethod::Post,
    }
}

/// What is to be sent of an entry that was leased. A notification goes to its address; a report goes in the place of the
/// one that the utility gave that id, and without one is a new one.
pub fn job_for(
    alloc: Global,
    number: Number,
    entry: &Entry,
    remote: Option<&ObjectId>,
) -> Result<Job, AllocError>
    ensures { IfOk result (λ job. job ≡ job_for (option_copied remote.entry) (number, entry.now)) }
{
    Ok(Job {
        entry: number,
        lease: entry.delivery.leases,
        destination: entry.addressee.destination(),
        method: method_for(remote),
        target: target_for(alloc, &entry.addressee, remote)?,
        token: token_for(&entry.addressee)?,
        body: entry.body.clone()?,
    })
}

impl Outbox {
    /// What is to be sent of an entry that was leased. A report goes in the place of the one that the utility has, where
    /// it has one of the same event.
    pub fn job(&self, alloc: Global, number: Number, entry: &Entry) -> Result<Job, AllocError>
        ensures { IfOk result (λ job. job ≡ job_of self.now (number, entry.now)) }
    {
        job_for(alloc, number, entry, self.remote(&entry.addressee))
    }
}
