//! The body of a reply (RFC 9112, section 6.3).
ghost use Rattle.std.specs.Prelude.{◌≡◌, ◌≤◌, ℕ, List, length, Ok, IsTrue};
ghost use Rattle.adr_wire.specs.Pieces.{Holds, OfWhatCame, IsReading, IsCounted, reader_failed};
ghost use Rattle.adr_wire.specs.declared.extent.Extent.TheVariants.{Unsaid};
ghost use Rattle.adr_link.specs.Replies.{body_to_end, IsBodyBy, IsBody, GoesToEnd};

use crate::reply_head::{MOST_BODY, ReplyHead, is_bodiless};
use adr_text::Source;
use adr_wire::{Ahead, Extent, MessageFault, ReadEnd, read_chunks, read_length};
use std::alloc::Global;

/// Reads to the end of input, at most 8,388,608 bytes. No more is asked for behind one byte above them.
#[tactic(auto, using(crate::proofs::EndLemmas::end_here, crate::proofs::EndLemmas::too_many))]
fn read_to_end<S: Source>(source: &mut S, ahead: &mut Ahead) -> Result<Vec<u8>, ReadEnd>
    requires { length ahead.old.bytes ≤ 16384 }
    ensures reading { IsReading (λ v. v.items) result (λ read. (bytes : List ℕ) → Holds (S.left source.old) ahead.old.bytes bytes
        → read ≡ body_to_end bytes) }
    ensures unfinished { IsTrue (reader_failed result) → OfWhatCame (S.left source.old) ahead.old.bytes (S.left source.new) (λ came. length came ≤ MOST_BODY) }
    ensures counted { IsCounted (S.calls source.old) ahead.old.reads_left (S.calls source.new) ahead.new.reads_left (reader_failed result) }
{
    'end: loop {
        let length = ahead.as_slice().len();
        if length > MOST_BODY as usize {
            return Err(ReadEnd::Bytes(MessageFault::TooLarge));
        }
        if !ahead.more(source, MOST_BODY as usize + 1 - length)? {
            return Ok(ahead.front(length)?);
        }
    }
}

/// Reads a body by where it ends: to the end of input, where the head doesn't say.
fn read_extent<S: Source>(
    alloc: Global,
    source: &mut S,
    ahead: &mut Ahead,
    extent: Extent,
) -> Result<Vec<u8>, ReadEnd>
    requires { length ahead.old.bytes ≤ 16384 }
    ensures reading { IsReading (λ v. v.items) result (λ read. (bytes : List ℕ) → Holds (S.left source.old) ahead.old.bytes bytes
        → IsBodyBy extent bytes read) }
    ensures unfinished { IsTrue (reader_failed result) → OfWhatCame (S.left source.old) ahead.old.bytes (S.left source.new)
        (λ came. (body : List ℕ) → IsBodyBy extent came (Ok body) → extent ≡ Unsaid) }
    ensures counted { IsCounted (S.calls source.old) ahead.old.reads_left (S.calls source.new) ahead.new.reads_left (reader_failed result) }
{
    match extent {
        Extent::Unsaid => read_to_end(source, ahead),
        Extent::Length(n) => read_length(source, ahead, n as usize),
        Extent::Chunked => read_chunks(alloc, source, ahead, MOST_BODY),
    }
}

/// Reads the body: none, where the status says that there is none.
pub(crate) fn read_body<S: Source>(
    alloc: Global,
    source: &mut S,
    ahead: &mut Ahead,
    head: ReplyHead,
) -> Result<Vec<u8>, ReadEnd>
    requires { length ahead.old.bytes ≤ 16384 }
    ensures reading { IsReading (λ v. v.items) result (λ read. (bytes : List ℕ) → Holds (S.left source.old) ahead.old.bytes bytes
        → IsBody head bytes read) }
    ensures unfinished { IsTrue (reader_failed result) → OfWhatCame (S.left source.old) ahead.old.bytes (S.left source.new)
        (λ came. (body : List ℕ) → IsBody head came (Ok body) → GoesToEnd head) }
    ensures counted { IsCounted (S.calls source.old) ahead.old.reads_left (S.calls source.new) ahead.new.reads_left (reader_failed result) }
{
    if is_bodiless(head.status) {
        return Ok(Vec::new(alloc));
    }
    read_extent(alloc, source, ahead, head.extent)
}
