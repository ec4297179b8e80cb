//! What the head of a reply says (RFC 9112, sections 4 and 6.3).
ghost use Rattle.std.specs.Prelude.{◌≡◌, ◌≤◌, ℕ, List, length, map, All, OnOk, IfOk, IsTrue, IsFalse};
ghost use Rattle.httparse.specs.Grammar.{ResponseHead};
ghost use Rattle.httparse.specs.Spans.{IsHeaderWithin, IsResponseWithin, IsResponseAt, header_bytes};
ghost use Rattle.adr_wire.specs.Pieces.{Holds, OfWhatCame, IfRefused, IsReading, IsCounted, reader_failed};
ghost use Rattle.adr_link.specs.ReplyHeads.{HasNoHead, is_bodiless, reply_extent, head_in, IsHead, IsRefusedHead};

use crate::reply_front::HeadFront;
use adr_text::Source;
use adr_wire::{Ahead, Extent, MessageFault, ReadEnd, await_front, extent_of};
use httparse::spans::{HeaderSpan, ResponseSpans};
use std::alloc::Global;

/// The most bytes of a body, 8 MiB.
pub const MOST_BODY: u32 = 8_388_608;

/// What a head says.
#[derive(Clone, Copy)]
pub struct ReplyHead {
    pub status: u16,
    pub extent: Extent,
}

/// Whether a reply of this status has no body: No Content (204) and Not Modified (304) have none.
#[tactic(auto, unfolding(crate::specs::ReplyHeads::is_bodiless))]
pub(crate) fn is_bodiless(status: u16) -> bool
    ensures { result ≡ is_bodiless status }
{
    status == 204 || status == 304
}

/// Where the body ends. A length that is said where the status has no body may be of any size. A status below 200 is that of an interim reply (RFC 9110, section 15.2), which is refused.
#[tactic(auto, unfolding(crate::specs::ReplyHeads::reply_extent))]
fn reply_extent(
    alloc: Global,
    status: u16,
    buf: &[u8],
    headers: &[HeaderSpan],
) -> Result<Extent, ReadEnd>
    requires { All (IsHeaderWithin (length buf.now)) headers.now }
    ensures reading { IsReading (λ e. e) result (λ read. read ≡ reply_extent status (map (header_bytes buf.now) headers.now)) }
    ensures only { IsFalse (reader_failed result) }
{
    if status < 200 {
        return Err(ReadEnd::Bytes(MessageFault::Malformed));
    }
    match extent_of(alloc, buf, headers, MOST_BODY) {
        Err(ReadEnd::Bytes(MessageFault::TooLarge)) if is_bodiless(status) => Ok(Extent::Unsaid),
        extent => extent,
    }
}

/// What a head says, from where its parts are.
fn head_of(
    alloc: Global,
    bytes: &[u8],
    headers: &[HeaderSpan],
    spans: &ResponseSpans,
) -> Result<ReplyHead, ReadEnd>
    requires { IsResponseWithin bytes.now headers.now spans.now }
    ensures reading { (h : ResponseHead) → IsResponseAt bytes.now headers.now spans.now h
        → IsReading (λ head. head) result (λ read. read ≡ head_in h) }
    ensures only { IsFalse (reader_failed result) }
{
    let extent = reply_extent(alloc, spans.code, bytes, &headers[..spans.headers])?;
    Ok(ReplyHead {
        status: spans.code,
        extent,
    })
}

/// Reads a head. What follows it stays ahead.
pub(crate) fn read_head<S: Source>(
    alloc: Global,
    source: &mut S,
    ahead: &mut Ahead,
) -> Result<ReplyHead, ReadEnd>
    requires begins { length ahead.old.bytes ≤ 16384 }
    ensures found { IfOk result (λ head. (bytes : List ℕ) → Holds (S.left source.old) ahead.old.bytes bytes
        → (rest : List ℕ) × IsHead bytes head rest × Holds (S.left source.new) ahead.new.bytes rest) }
    ensures refused { IfRefused result (λ f. (bytes : List ℕ) → Holds (S.left source.old) ahead.old.bytes bytes
        → IsRefusedHead bytes f) }
    ensures limit { OnOk result (length ahead.new.bytes ≤ 16384) }
    ensures unfinished { IsTrue (reader_failed result) → OfWhatCame (S.left source.old) ahead.old.bytes (S.left source.new) HasNoHead }
    ensures counted { IsCounted (S.calls source.old) ahead.old.reads_left (S.calls source.new) ahead.new.reads_left (reader_failed result) }
{
    let mut front = HeadFront::new();
    await_front(source, ahead, &mut front)?;
    let head = head_of(alloc, ahead.as_slice(), &front.headers, &front.spans)?;
    ahead.skip(front.spans.len);
    Ok(head)
}
