//! A body in chunks (RFC 9112, section 7.1).
ghost use Rattle.std.specs.Prelude.{◌≡◌, ◌+◌, ◌≤◌, ℕ, List, length, IfOk, IsTrue, IsFalse, Ok};
ghost use Rattle.adr_wire.specs.Pieces.{Holds, OfWhatCame, IsReading, IsCounted, reader_failed};
ghost use Rattle.adr_wire.specs.Chunks.{IsChunks, without_end};

use crate::ahead::Ahead;
use crate::chunk_line::read_line;
use crate::end::{MessageFault, ReadEnd};
use crate::length::read_length;
use crate::trailers::read_trailers;
use adr_text::Source;
use std::alloc::Global;

/// Takes the line end from a chunk's data.
fn without_line_end(mut piece: Vec<u8>, size: usize) -> Result<Vec<u8>, ReadEnd>
    requires { length piece.items ≡ size + 2 }
    ensures reading { IsReading (λ v. v.items) result (λ read. read ≡ without_end size (Ok piece.items)) }
    ensures long { IfOk result (λ v. length v.items ≡ size) }
    ensures only { IsFalse (reader_failed result) }
{
    let is_ended = &piece[size..] == b"\r\n".as_slice();
    if !is_ended {
        return Err(ReadEnd::Bytes(MessageFault::Malformed));
    }
    piece.truncate(size);
    Ok(piece)
}

/// Reads a body in chunks, of at most `limit` bytes. What follows it stays ahead.
pub fn read_chunks<S: Source>(
    alloc: Global,
    source: &mut S,
    ahead: &mut Ahead,
    limit: u32,
) -> Result<Vec<u8>, ReadEnd>
    requires { length ahead.old.bytes ≤ 16384 }
    ensures reading { IsReading (λ v. v.items) result (λ read. (bytes : List ℕ) → Holds (S.left source.old) ahead.old.bytes bytes
        → IsChunks limit 0 bytes read) }
    ensures unfinished { IsTrue (reader_failed result) → OfWhatCame (S.left source.old) ahead.old.bytes (S.left source.new)
        (λ came. (content : List ℕ) → ¬ (IsChunks limit 0 came (Ok content))) }
    ensures counted { IsCounted (S.calls source.old) ahead.old.reads_left (S.calls source.new) ahead.new.reads_left (reader_failed result) }
{
    let mut content = Vec::new(alloc);
    'chunks: loop {
        let size = read_line(source, ahead)?;
        if size == 0 {
            read_trailers(source, ahead)?;
            return Ok(content);
        }
        let room = limit as usize - content.len();
        if size > room as u64 {
            return Err(ReadEnd::Bytes(MessageFault::TooLarge));
        }
        let size = size as usize;
        let piece = read_length(source, ahead, size + 2)?;
        let piece = without_line_end(piece, size)?;
        content.extend_from_slice(&piece)?;
    }
}
