//! What the utility was asked for, and what comes of it.
ghost use Rattle.std.specs.Prelude.{◌≡◌, IfOk};
ghost use Rattle.adr_schema.specs.Pages.{page_of, version_of};
ghost use Rattle.adr_link.specs.Findings.{page_found, version_asked, version_found, page_told, probe_told, told_by, found_of};

use crate::reply::{HttpReply, LinkFault};
use adr_objects::{Found, Kind};
use adr_schema::{read_one, read_page};
use adr_text::{ObjectId, Refusal, Rows};
use std::alloc::{AllocError, Global};

/// What the utility is asked for.
#[derive(Drop)]
pub enum Asked {
    /// A page of the objects of that kind.
    Page(Kind),
    /// The object of that kind that has that id.
    Probe(Kind, ObjectId),
}

/// What comes of it.
#[derive(Drop)]
pub enum Finding {
    /// The versions on a page, in the page's order, and how many of its elements are none.
    Page { found: Rows<Found>, skipped: u64 },
    /// The version that was asked for.
    Version(Found),
    /// The utility has no such object.
    Gone,
    /// None of these: no reply came, or one that doesn't answer.
    Failure,
}

/// The page that the bytes are.
fn page_found(alloc: Global, kind: Kind, body: &[u8]) -> Result<Finding, AllocError>
    ensures { IfOk result (λ finding. finding ≡ page_found (page_of kind body.now)) }
{
    match read_page(alloc, kind, body) {
        Ok((found, skipped)) => Ok(Finding::Page { found, skipped }),
        Err(Refusal::OutOfMemory) => Err(AllocError),
        Err(_) => Ok(Finding::Failure),
    }
}

/// The version, where it has the id that was asked for.
fn version_asked(id: &ObjectId, version: Found) -> Finding
    ensures { result ≡ version_asked id.now version }
{
    if version.id.as_id().as_str() != id.as_str() {
        return Finding::Failure;
    }
    Finding::Version(version)
}

/// The version that the bytes are, where it has the id that was asked for.
fn version_found(
    alloc: Global,
    kind: Kind,
    id: &ObjectId,
    body: &[u8],
) -> Result<Finding, AllocError>
    ensures { IfOk result (λ finding. finding ≡ version_found id.now (version_of kind body.now)) }
{
    match read_one(alloc, kind, body) {
        Ok(version) => Ok(version_asked(id, version)),
        Err(Refusal::OutOfMemory) => Err(AllocError),
        Err(_) => Ok(Finding::Failure),
    }
}

/// What a reply tells of a page.
fn page_told(alloc: Global, kind: Kind, reply: &HttpReply) -> Result<Finding, AllocError>
    ensures { IfOk result (λ finding. finding ≡ page_told kind reply.now) }
{
    if reply.status != 200 {
        return Ok(Finding::Failure);
    }
    page_found(alloc, kind, reply.body.as_slice())
}

/// What a reply tells of one object.
fn probe_told(
    alloc: Global,
    kind: Kind,
    id: &ObjectId,
    reply: &HttpReply,
) -> Result<Finding, AllocError>
    ensures { IfOk result (λ finding. finding ≡ probe_told kind id.now reply.now) }
{
    if reply.status == 200 {
        version_found(alloc, kind, id, reply.body.as_slice())
    } else if reply.status == 404 {
        Ok(Finding::Gone)
    } else {
        Ok(Finding::Failure)
    }
}

fn told_by(alloc: Global, asked: &Asked, reply: &HttpReply) -> Result<Finding, AllocError>
    ensures { IfOk result (λ finding. finding ≡ told_by asked.now reply.now) }
{
    match asked {
        Asked::Page(kind) => page_told(alloc, *kind, reply),
        Asked::Probe(kind, id) => probe_told(alloc, *kind, id, reply),
    }
}

/// What comes of asking the utility, by the reply that came, or by the fault where none came. A reply with 200 has the
/// page or the object, of which the id has to be the one that was asked for; to a probe 404 tells that there is no such
/// object; all else is a failure.
pub fn found_of(
    alloc: Global,
    asked: &Asked,
    came: &Result<HttpReply, LinkFault>,
) -> Result<Finding, AllocError>
    ensures { IfOk result (λ finding. finding ≡ found_of asked.now came.now) }
{
    match came {
        Ok(reply) => told_by(alloc, asked, reply),
        Err(_) => Ok(Finding::Failure),
    }
}
