//! The bytes of replies.
ghost use Rattle.std.specs.Prelude.{◌≡◌, IfOk};
ghost use Rattle.adr_reply.specs.Problems.{memory_problem};
ghost use Rattle.adr_reply.specs.Replies.{reply_parts, reply_bytes};

use crate::fields::{put_extra, put_start};
use crate::reply::Reply;
use adr_wire::{put_length, put_line};
use std::alloc::{AllocError, Global};

/// The reply where memory ran out.
pub const MEMORY_REPLY: &[u8] =
    b"HTTP/1.1 500 Internal Server Error\r\nContent-Type: application/json\r\nContent-Length: 61\r\nConnection: close\r\n\r\n{\"detail\":\"out of memory\",\"status\":500,\"title\":\"OutOfMemory\"}";

/// The reply where memory ran out. It takes no memory.
pub fn memory_reply() -> &'static [u8]
    ensures { result.now ≡ reply_bytes memory_problem }
{
    MEMORY_REPLY
}

/// The bytes of a reply (RFC 9112).
#[tactic(auto, unfolding(crate::specs::Replies::reply_bytes))]
pub fn render(alloc: Global, reply: &Reply) -> Result<Vec<u8>, AllocError>
    ensures { IfOk result (λ v. v.items ≡ reply_bytes (reply_parts reply.now)) }
{
    let mut out = Vec::new(alloc);
    put_start(&mut out, reply.status)?;
    put_line(&mut out, b"Content-Type", b"application/json")?;
    put_length(&mut out, reply.body.len())?;
    put_extra(alloc, &mut out, reply.extra)?;
    put_line(&mut out, b"Connection", b"close")?;
    out.extend_from_slice(b"\r\n")?;
    out.extend_from_slice(reply.body.as_bytes())?;
    Ok(out)
}
