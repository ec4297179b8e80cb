//! The body of a request (RFC 9112, section 6).
ghost use Rattle.std.specs.Prelude.{◌≤◌, ℕ, List, length, Ok, IsTrue};
ghost use Rattle.adr_wire.specs.Pieces.{Holds, OfWhatCame, IsReading, IsCounted, reader_failed};
ghost use Rattle.adr_request.specs.Requests.{IsBody};

use crate::head::MOST_BODY;
use adr_text::Source;
use adr_wire::{Ahead, Extent, ReadEnd, read_chunks, read_length};
use std::alloc::Global;

/// Reads the body: none, where the head says nothing of its end.
pub(crate) fn read_body<S: Source>(
    alloc: Global,
    source: &mut S,
    ahead: &mut Ahead,
    extent: Extent,
) -> Result<Vec<u8>, ReadEnd>
    requires { length ahead.old.bytes ≤ 16384 }
    ensures reading { IsReading (λ v. v.items) result (λ read. (bytes : List ℕ) → Holds (S.left source.old) ahead.old.bytes bytes
        → IsBody extent bytes read) }
    ensures unfinished { IsTrue (reader_failed result) → OfWhatCame (S.left source.old) ahead.old.bytes (S.left source.new)
        (λ came. (body : List ℕ) → ¬ (IsBody extent came (Ok body))) }
    ensures counted { IsCounted (S.calls source.old) ahead.old.reads_left (S.calls source.new) ahead.new.reads_left (reader_failed result) }
{
    match extent {
        Extent::Unsaid => Ok(Vec::new(alloc)),
        Extent::Length(n) => read_length(source, ahead, n as usize),
        Extent::Chunked => read_chunks(alloc, source, ahead, MOST_BODY),
    }
}
