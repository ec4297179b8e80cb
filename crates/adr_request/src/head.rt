//! What the head of a request says.
ghost use Rattle.std.specs.Prelude.{◌≡◌, ◌≤◌, ℕ, List, length, map, All, OnOk, IfOk, IsTrue, IsFalse};
ghost use Rattle.httparse.specs.Grammar.{RequestHead};
ghost use Rattle.httparse.specs.Spans.{IsHeaderWithin, IsRequestWithin, IsRequestAt, header_bytes};
ghost use Rattle.adr_wire.specs.Pieces.{Holds, OfWhatCame, IfRefused, IsReading, IsCounted, reader_failed};
ghost use Rattle.adr_request.specs.Heads.{HasNoHead, fits_version, request_extent, head_parts, head_in, IsHead, IsRefusedHead};

use crate::authorization::token_in;
use crate::head_front::HeadFront;
use adr_text::Source;
use adr_wire::{Ahead, Extent, MessageFault, ReadEnd, await_front, extent_of, values};
use httparse::spans::{HeaderSpan, RequestSpans};
use std::alloc::{AllocError, Global};

/// The most bytes of a body.
pub const MOST_BODY: u32 = 1_048_576;

/// What a head says.
#[derive(Drop)]
pub struct Head {
    pub method: Vec<u8>,
    pub target: Vec<u8>,
    pub token: Option<Vec<u8>>,
    pub extent: Extent,
}

/// Whether the fields fit the version: HTTP/1.0 has no Transfer-Encoding, HTTP/1.1 exactly one Host.
fn fits_version(
    alloc: Global,
    version: u8,
    buf: &[u8],
    headers: &[HeaderSpan],
) -> Result<bool, AllocError>
    requires { All (IsHeaderWithin (length buf.now)) headers.now }
    ensures { IfOk result (λ fits. fits ≡ fits_version version (map (header_bytes buf.now) headers.now)) }
{
    if version == 0 {
        let codings = values(alloc, buf, headers, b"transfer-encoding")?;
        Ok(codings.len() == 0)
    } else {
        let hosts = values(alloc, buf, headers, b"host")?;
        Ok(hosts.len() == 1)
    }
}

/// Where the body ends.
#[tactic(auto, unfolding(crate::specs::Heads::request_extent))]
fn request_extent(
    alloc: Global,
    version: u8,
    buf: &[u8],
    headers: &[HeaderSpan],
) -> Result<Extent, ReadEnd>
    requires { All (IsHeaderWithin (length buf.now)) headers.now }
    ensures reading { IsReading (λ e. e) result (λ read. read ≡ request_extent version (map (header_bytes buf.now) headers.now)) }
    ensures only { IsFalse (reader_failed result) }
{
    if !fits_version(alloc, version, buf, headers)? {
        return Err(ReadEnd::Bytes(MessageFault::Malformed));
    }
    extent_of(alloc, buf, headers, MOST_BODY)
}

/// The parts of a head, copied out.
fn head_of(
    alloc: Global,
    bytes: &[u8],
    headers: &[HeaderSpan],
    spans: &RequestSpans,
) -> Result<Head, ReadEnd>
    requires { IsRequestWithin bytes.now headers.now spans.now }
    ensures reading { (h : RequestHead) → IsRequestAt bytes.now headers.now spans.now h
        → IsReading head_parts result (λ read. read ≡ head_in h) }
    ensures only { IsFalse (reader_failed result) }
{
    let fields = &headers[..spans.headers];
    let extent = request_extent(alloc, spans.version, bytes, fields)?;
    let token = token_in(alloc, bytes, fields)?;
    let method = spans.method.of(bytes).to_vec(alloc)?;
    let target = spans.path.of(bytes).to_vec(alloc)?;
    Ok(Head {
        method,
        target,
        token,
        extent,
    })
}

/// Reads a head. What follows it stays ahead.
pub(crate) fn read_head<S: Source>(
    alloc: Global,
    source: &mut S,
    ahead: &mut Ahead,
) -> Result<Head, ReadEnd>
    requires begins { length ahead.old.bytes ≤ 16384 }
    ensures found { IfOk result (λ head. (bytes : List ℕ) → Holds (S.left source.old) ahead.old.bytes bytes
        → (rest : List ℕ) × IsHead bytes (head_parts head) rest × Holds (S.left source.new) ahead.new.bytes rest) }
    ensures refused { IfRefused result (λ f. (bytes : List ℕ) → Holds (S.left source.old) ahead.old.bytes bytes
        → IsRefusedHead bytes f) }
    ensures limit { OnOk result (length ahead.new.bytes ≤ 16384) }
    ensures unfinished { IsTrue (reader_failed result) → OfWhatCame (S.left source.old) ahead.old.bytes (S.left source.new) HasNoHead }
    ensures counted { IsCounted (S.calls source.old) ahead.old.reads_left (S.calls source.new) ahead.new.reads_left (reader_failed result) }
{
    let mut front = HeadFront::new();
    await_front(source, ahead, &mut front)?;
    let head = head_of(alloc, ahead.as_slice(), &front.headers, &front.spans)?;
    ahead.skip(front.spans.len);
    Ok(head)
}
