//! Where a body ends (RFC 9112, section 6).
ghost use Rattle.std.specs.Prelude.{◌≡◌, ◌+◌, ◌≤◌, ◌<◌, length, map, min, All, IsFalse, Some, None, if◌then◌else◌};
ghost use Rattle.std.specs.Str.Parse.{digits_value};
ghost use Rattle.httparse.specs.Spans.{IsHeaderWithin, header_bytes};
ghost use Rattle.adr_wire.specs.Pieces.{IsReading, reader_failed};
ghost use Rattle.adr_wire.specs.Codings.{is_chunked, codings};
ghost use Rattle.adr_wire.specs.Extents.{is_number, length_in, coding_in, extent_by, extent_in};

use crate::codings::codings;
use crate::end::{MessageFault, ReadEnd};
use crate::fields::{is_same_letters, values};
use httparse::spans::HeaderSpan;
use std::alloc::Global;

/// Where a body ends, as its head says.
#[derive(Clone, Copy, Debug, PartialEq, Eq)]
pub enum Extent {
    /// It doesn't say.
    Unsaid,
    /// After so many bytes.
    Length(u32),
    /// After the last chunk and the trailers.
    Chunked,
}

/// The number that digits write, or one over the limit for any greater.
fn number_in(text: &[u8], limit: u32) -> Option<u32>
    requires { limit ≤ 16777216 }
    ensures { result ≡ (if is_number text.now then Some (min (digits_value 10 text.now) (limit + 1)) else None) }
{
    if text.is_empty() {
        return None;
    }
    let mut value = 0u32;
    for digit in text {
        if !digit.is_ascii_digit() {
            return None;
        }
        value = (value * 10 + (*digit - b'0') as u32).min(limit + 1);
    }
    Some(value)
}

/// The length that a value says, of at most `limit`.
fn length_in(text: &[u8], limit: u32) -> Result<Extent, ReadEnd>
    requires { limit ≤ 16777216 }
    ensures reading { IsReading (λ e. e) result (λ read. read ≡ length_in limit text.now) }
    ensures only { IsFalse (reader_failed result) }
{
    match number_in(text, limit) {
        None => Err(ReadEnd::Bytes(MessageFault::Malformed)),
        Some(n) if n > limit => Err(ReadEnd::Bytes(MessageFault::TooLarge)),
        Some(n) => Ok(Extent::Length(n)),
    }
}

fn is_chunked(coding: &[u8]) -> bool
    ensures { result ≡ is_chunked coding.now }
{
    is_same_letters(coding, b"chunked")
}

/// What the codings say: `chunked` has to be the last, and only alone is it known.
#[tactic(auto, using(crate::proofs::LastCodings::several, crate::proofs::LastCodings::only, crate::proofs::LastCodings::other_last, crate::proofs::LastCodings::none_at_all))]
fn coding_in(codings: &[&[u8]]) -> Result<Extent, ReadEnd>
    ensures reading { IsReading (λ e. e) result (λ read. read ≡ coding_in (map (λ s. s.now) codings.now)) }
    ensures only { IsFalse (reader_failed result) }
{
    let Some((last, others)) = codings.split_last() else {
        return Err(ReadEnd::Bytes(MessageFault::Malformed));
    };
    if !is_chunked(last) {
        Err(ReadEnd::Bytes(MessageFault::Malformed))
    } else if others.is_empty() {
        Ok(Extent::Chunked)
    } else {
        Err(ReadEnd::Bytes(MessageFault::NoCoding))
    }
}

/// By the values of Content-Length and those of Transfer-Encoding.
fn extent_by(
    alloc: Global,
    lengths: &[&[u8]],
    values: &[&[u8]],
    limit: u32,
) -> Result<Extent, ReadEnd>
    requires { limit ≤ 16777216 }
    ensures reading { IsReading (λ e. e) result (λ read. read ≡ extent_by limit (map (λ s. s.now) lengths.now) (map (λ s. s.now) values.now)) }
    ensures only { IsFalse (reader_failed result) }
{
    if values.is_empty() {
        return match lengths {
            [] => Ok(Extent::Unsaid),
            [text] => length_in(text, limit),
            _ => Err(ReadEnd::Bytes(MessageFault::Malformed)),
        };
    }
    if !lengths.is_empty() {
        return Err(ReadEnd::Bytes(MessageFault::Malformed));
    }
    let codings = codings(alloc, values)?;
    coding_in(&codings)
}

/// What the fields of a head say of the end of the body, which has at most `limit` bytes where its length is said.
#[tactic(auto, unfolding(crate::specs::Extents::extent_in))]
pub fn extent_of(
    alloc: Global,
    buf: &[u8],
    headers: &[HeaderSpan],
    limit: u32,
) -> Result<Extent, ReadEnd>
    requires small { limit ≤ 16777216 }
    requires within { All (IsHeaderWithin (length buf.now)) headers.now }
    ensures reading { IsReading (λ e. e) result (λ read. read ≡ extent_in limit (map (header_bytes buf.now) headers.now)) }
    ensures only { IsFalse (reader_failed result) }
{
    let lengths = values(alloc, buf, headers, b"content-length")?;
    let codings = values(alloc, buf, headers, b"transfer-encoding")?;
    extent_by(alloc, &lengths, &codings, limit)
}
