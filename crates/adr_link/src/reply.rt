//! Replies.
ghost use Rattle.std.specs.Prelude.{◌≡◌, ◌≢◌, ◌+◌, ◌⊎◌, ◌≤◌, ℕ, List, [], Some, Err, IsTrue};
ghost use Rattle.adr_wire.specs.Calls.{NoneFails, LastFails, RunsOut};
ghost use Rattle.adr_wire.specs.Pieces.{OfWhatCame, IsReading, IsCounted, reader_failed};
ghost use Rattle.adr_link.specs.Replies.{most_reads, link_end, linked, IsLinkReading, IsReply, AwaitsMore};
ghost use Rattle.adr_link.specs.declared.reply.LinkFault.TheVariants.{Read};

use crate::reply_body::read_body;
use crate::reply_head::read_head;
use adr_text::{Rows, Source};
use adr_wire::{Ahead, MessageFault, ReadEnd};
use std::alloc::Global;
use thiserror::Error;

/// The most reads of one reply, 2^27.
const MOST_READS: u32 = 134_217_728;

/// A reply.
#[derive(Drop)]
pub struct HttpReply {
    /// The status, from 200 to 999.
    pub status: u16,
    /// The body, in bytes: what its chunks hold, where it came in chunks.
    pub body: Rows<u8>,
}

/// Why no reply was read.
#[derive(Clone, Copy, Debug, PartialEq, Eq, Error)]
pub enum LinkFault {
    /// The bytes are no reply, or end too soon.
    #[error("bad reply")]
    BadReply,
    /// The body is longer than 8,388,608 bytes, or its head says so.
    #[error("reply too large")]
    TooLarge,
    /// A read failed, or there were too many.
    #[error("read fault")]
    Read,
    #[error("out of memory")]
    Memory,
}

impl From<ReadEnd> for LinkFault {
    ghost from_gives = { λ end fault. fault ≡ link_end end };

    fn from(end: ReadEnd) -> LinkFault {
        match end {
            ReadEnd::Bytes(MessageFault::TooLarge) => LinkFault::TooLarge,
            ReadEnd::Bytes(_) => LinkFault::BadReply,
            ReadEnd::Reader => LinkFault::Read,
            ReadEnd::OutOfMemory => LinkFault::Memory,
        }
    }
}

/// Reads the head, and then the body.
fn read_parts<S: Source>(
    alloc: Global,
    source: &mut S,
    ahead: &mut Ahead,
) -> Result<HttpReply, ReadEnd>
    requires { ahead.old.bytes ≡ [] }
    ensures reading { IsReading (λ r. r) result (λ read. (bytes : List ℕ) → S.left source.old ≡ Some bytes → IsReply bytes (linked read)) }
    ensures unfinished { IsTrue (reader_failed result) → OfWhatCame (S.left source.old) [] (S.left source.new) AwaitsMore }
    ensures counted { IsCounted (S.calls source.old) ahead.old.reads_left (S.calls source.new) ahead.new.reads_left (reader_failed result) }
{
    let head = read_head(alloc, source, ahead)?;
    let body = read_body(alloc, source, ahead, head)?;
    Ok(HttpReply {
        status: head.status,
        body: Rows::from_vec(body),
    })
}

/// Reads a reply: what the whole list of the source's bytes is, in whatever pieces it gives them.
///
/// A head has at most 16,384 bytes and 64 fields, a body at most 8,388,608 bytes, a chunk line and the trailers at most
/// 16,384 bytes each. An interim reply (1xx) is none. A failed read ends it at once; so does the read after 134,217,728
/// others.
#[tactic(auto, using(crate::proofs::LinkFaults::link_reading, crate::proofs::LinkFaults::link_failed, crate::proofs::LinkFaults::link_not_failed))]
pub fn read_reply<S: Source>(alloc: Global, source: &mut S) -> Result<HttpReply, LinkFault>
    ensures reading { IsLinkReading result (λ read. (bytes : List ℕ) → S.left source.old ≡ Some bytes → IsReply bytes read) }
    ensures reads { (S.calls source.new).made ≤ (S.calls source.old).made + most_reads }
    // Where a read failed, what had come was no whole reply, but for one whose body goes to the end: nothing is asked for behind one.
    ensures unfinished { result ≡ Err Read → OfWhatCame (S.left source.old) [] (S.left source.new) AwaitsMore }
    ensures read_fault { result ≡ Err Read → LastFails (S.calls source.old) (S.calls source.new) ⊎ RunsOut most_reads (S.calls source.old) (S.calls source.new) }
    ensures no_read_fault { result ≢ Err Read → NoneFails (S.calls source.old) (S.calls source.new) }
{
    let mut ahead = Ahead::new(alloc, MOST_READS);
    match read_parts(alloc, source, &mut ahead) {
        Ok(reply) => Ok(reply),
        Err(end) => Err(LinkFault::from(end)),
    }
}
