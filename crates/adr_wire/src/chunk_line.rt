//! The line before a chunk, which says its size (RFC 9112, section 7.1).
ghost use Rattle.std.specs.Prelude.{◌≡◌, ◌≤◌, ℕ, List, length, OnOk, IfOk, IsTrue};
ghost use Rattle.httparse.specs.Grammar.{ChunkLine as Line, chunk_size};
ghost use Rattle.httparse.specs.Spans.{IsChunkLineAt};
ghost use Rattle.adr_wire.specs.Pieces.{Holds, OfWhatCame, IfRefused, IsCounted, reader_failed};
ghost use Rattle.adr_wire.specs.Chunks.{LineAt, HasNoLine};
ghost use Rattle.adr_wire.specs.declared.end.MessageFault.TheVariants.{Malformed};

use crate::ahead::Ahead;
use crate::end::ReadEnd;
use crate::front::{Front, NeverFound, await_front};
use crate::lines::has_line_end;
use adr_text::Source;
use httparse::{Status, parse_chunk_size};

/// A chunk line at the front of bytes: how long it is, and the size that it says.
#[derive(Clone, Copy)]
struct ChunkLine {
    length: usize,
    size: u64,
}

impl Front for ChunkLine {
    ghost found = { λ s bytes. (l : Line) × IsChunkLineAt bytes s.length s.size l };

    ghost none = { HasNoLine };

    #[tactic(auto, using(crate::proofs::ChunkLines::no_line_end, crate::proofs::ChunkLines::no_line_full, crate::proofs::ChunkLines::no_line_never))]
    fn find(&mut self, bytes: &[u8]) -> Result<bool, NeverFound> {
        match parse_chunk_size(bytes) {
            Ok(Status::Complete((length, size))) => {
                self.length = length;
                self.size = size;
                Ok(true)
            }
            Ok(Status::Partial) => Ok(false),
            Err(_) => Err(NeverFound),
        }
    }

    #[tactic(auto, using(crate::proofs::LineEnds::no_line_yet))]
    fn may_end(&self, bytes: &[u8], from: usize) -> bool {
        has_line_end(bytes, from)
    }
}

/// Reads a chunk line, and gives the size that it says. What follows it stays ahead.
pub(crate) fn read_line<S: Source>(source: &mut S, ahead: &mut Ahead) -> Result<u64, ReadEnd>
    requires { length ahead.old.bytes ≤ 16384 }
    ensures found { IfOk result (λ size. (bytes : List ℕ) → Holds (S.left source.old) ahead.old.bytes bytes
        → (l : Line) × (rest : List ℕ) × LineAt bytes l rest × (size ≡ chunk_size l)
        × Holds (S.left source.new) ahead.new.bytes rest) }
    ensures none { IfRefused result (λ f. (f ≡ Malformed)
        × ((bytes : List ℕ) → Holds (S.left source.old) ahead.old.bytes bytes → HasNoLine bytes)) }
    ensures limit { OnOk result (length ahead.new.bytes ≤ 16384) }
    ensures unfinished { IsTrue (reader_failed result) → OfWhatCame (S.left source.old) ahead.old.bytes (S.left source.new) HasNoLine }
    ensures counted { IsCounted (S.calls source.old) ahead.old.reads_left (S.calls source.new) ahead.new.reads_left (reader_failed result) }
{
    let mut line = ChunkLine { length: 0, size: 0 };
    await_front(source, ahead, &mut line)?;
    ahead.skip(line.length);
    Ok(line.size)
}
