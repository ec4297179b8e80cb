//! What stands around a request: a desk, and who may ask.
use adr_http::{Grant, Roles};
use adr_machine::{PlainDesk, Role};
use adr_state::{Limits, Settings};
use adr_text::{Moment, Name, Refusal};
use std::alloc::Global;

/// `alpha` is posted, in one chunk.
pub const POST: &[u8] =
    b"POST /vens HTTP/1.1\r\nHost: x\r\nAuthorization: Bearer t0\r\nTransfer-Encoding: chunked\r\n\r\n13\r\n{\"venName\":\"alpha\"}\r\n0\r\n\r\n";

/// The same with a length.
pub const POST_LENGTH: &[u8] =
    b"POST /vens HTTP/1.1\r\nHost: x\r\nAuthorization: Bearer t0\r\nContent-Length: 19\r\n\r\n{\"venName\":\"alpha\"}";

/// The vens are read.
pub const GET: &[u8] = b"GET /vens HTTP/1.1\r\nHost: x\r\nAuthorization: Bearer t0\r\n\r\n";

/// What a post is replied.
pub const CREATED: &[u8] =
    b"HTTP/1.1 201 Created\r\nContent-Type: application/json\r\nContent-Length: 135\r\nConnection: close\r\n\r\n{\"createdDateTime\":\"2024-07-01T10:00:00Z\",\"id\":\"v1\",\"modificationDateTime\":\"2024-07-01T10:00:00Z\",\"objectType\":\"VEN\",\"venName\":\"alpha\"}";

/// What the list of no vens is replied.
pub const NONE: &[u8] =
    b"HTTP/1.1 200 OK\r\nContent-Type: application/json\r\nContent-Length: 2\r\nConnection: close\r\n\r\n[]";

pub fn ten() -> Result<Moment, Refusal> {
    Moment::read("2024-07-01T10:00:00Z")
}

pub fn desk(alloc: Global) -> Result<PlainDesk, Refusal> {
    let client = Name::new(alloc, "aggregator")?;
    let limits = Limits::largest();
    Ok(PlainDesk::new(alloc, Settings { client, limits }))
}

/// These two tokens, of the operator and of the utility.
pub fn roles_of(alloc: Global, operator: &str, utility: &str) -> Result<Roles, Refusal> {
    let mut grants = Vec::new(alloc);
    grants.push(Grant {
        token: operator.as_bytes().to_vec(alloc)?,
        role: Role::Operator,
    })?;
    grants.push(Grant {
        token: utility.as_bytes().to_vec(alloc)?,
        role: Role::Utility,
    })?;
    Roles::new(grants)
}
