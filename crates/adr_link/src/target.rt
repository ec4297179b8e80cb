//! What a request is for, below the utility's address.
ghost use Rattle.std.specs.Prelude.{◌≡◌, IfOk};
ghost use Rattle.adr_link.specs.Targets.{collection, page_target, probe_target, method_word, is_for_utility};

use adr_delivery::{Job, JobMethod};
use adr_objects::Kind;
use adr_text::ObjectId;
use itoa::Buffer;
use std::alloc::{AllocError, Global};

/// The path of the objects of a kind.
fn collection(kind: Kind) -> &'static [u8]
    ensures { result.now ≡ collection kind }
{
    match kind {
        Kind::Program => b"/programs",
        Kind::Event => b"/events",
    }
}

/// The target of a page: up to 50 objects of a kind, behind the first `skip` of them.
pub(crate) fn page_target(alloc: Global, kind: Kind, skip: u64) -> Result<Vec<u8>, AllocError>
    ensures { IfOk result (λ v. v.items ≡ page_target kind skip) }
{
    let mut buffer = Buffer::new();
    let mut target = Vec::from_slice(alloc, collection(kind))?;
    target.extend_from_slice(b"?skip=")?;
    target.extend_from_slice(buffer.format(skip).as_bytes())?;
    target.extend_from_slice(b"&limit=50")?;
    Ok(target)
}

/// The target of a probe: the object of that id.
pub(crate) fn probe_target(alloc: Global, kind: Kind, id: &ObjectId) -> Result<Vec<u8>, AllocError>
    ensures { IfOk result (λ v. v.items ≡ probe_target kind id.now) }
{
    let mut target = Vec::from_slice(alloc, collection(kind))?;
    target.extend_from_slice(b"/")?;
    target.extend_from_slice(id.as_str().as_bytes())?;
    Ok(target)
}

/// The word for the method of a job (RFC 9110, section 9).
pub(crate) fn method_word(method: JobMethod) -> &'static [u8]
    ensures { result.now ≡ method_word method }
{
    match method {
        JobMethod::Post => b"POST",
        JobMethod::Put => b"PUT",
    }
}

/// Whether a job is a report for the utility; else it is a notification.
pub fn is_for_utility(job: &Job) -> bool
    ensures { result ≡ is_for_utility job.now }
{
    job.destination.get() == 0
}
