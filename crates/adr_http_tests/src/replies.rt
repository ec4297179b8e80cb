//! Replies to the client, with reads that fail.
ghost use Rattle.std.specs.Prelude.{◌≡◌, ◌<◌};

use adr_link::{HttpReply, LinkFault, read_reply};
use adr_text::{KthFails, Refusal};
use std::alloc::Global;
use std::marker::Brand;
use std::sync::ledger::{Blank, Ledger};
use std::test::Fail;

/// A report was made, and has this id.
const MADE: &[u8] = b"HTTP/1.1 201 Created\r\nContent-Length: 11\r\n\r\n{\"id\":\"x7\"}";

/// The same in one chunk.
const MADE_CHUNKED: &[u8] =
    b"HTTP/1.1 201 Created\r\nTransfer-Encoding: chunked\r\n\r\nb\r\n{\"id\":\"x7\"}\r\n0\r\n\r\n";

fn read_over<K: Ledger>(
    alloc: Global,
    reply: &[u8],
    until: u64,
    reads: Blank,
) -> Result<Result<HttpReply, LinkFault>, Refusal>
    requires name { reads.name ≡ K.name }
    requires parts { reads.parts ≡ K.parts }
    requires two { 1 < reads.parts }
{
    let reply = reply.to_vec(alloc)?;
    let mut source = KthFails::<K>::new(reply, Vec::new(alloc), 1, Some(until), reads);
    Ok(read_reply(alloc, &mut source))
}

/// Reads a reply byte by byte, of which the read behind so many bytes fails.
fn read(alloc: Global, reply: &[u8], until: u64) -> Result<Result<HttpReply, LinkFault>, Refusal> {
    read_over::<Brand>(alloc, reply, until, Blank::new(2))
}

/// Whether that is a read fault.
fn fails_behind(alloc: Global, reply: &[u8], bytes: u64) -> Result<bool, Refusal> {
    Ok(matches!(read(alloc, reply, bytes)?, Err(LinkFault::Read)))
}

/// Whether it is where the read fails before the reply is whole, and not where that behind it would.
fn reads_no_more(alloc: Global, reply: &[u8]) -> Result<bool, Refusal> {
    let mut fails = true;
    for bytes in 0..reply.len() {
        fails &= fails_behind(alloc, reply, bytes as u64)?;
    }
    match read(alloc, reply, reply.len() as u64)? {
        Ok(read) => {
            Ok(fails && read.status == 201 && read.body.as_slice() == b"{\"id\":\"x7\"}".as_slice())
        }
        Err(_) => Ok(false),
    }
}

#[test]
fn replies_with_failing_reads(rt: HostRuntime) -> Result<(), Fail> {
    let alloc = rt.alloc();
    assert!(rt; reads_no_more(alloc, MADE)?);
    assert!(rt; reads_no_more(alloc, MADE_CHUNKED)?);
    Ok(())
}
