//! The fields behind the last chunk, and the empty line that ends them (RFC 9112, section 7.1.2).
ghost use Rattle.std.specs.Prelude.{◌≡◌, ◌≤◌, ℕ, List, length, OnOk, IsTrue};
ghost use Rattle.httparse.specs.Grammar.{Field, LineEnd};
ghost use Rattle.adr_wire.specs.Pieces.{Holds, OfWhatCame, IfRefused, IsCounted, reader_failed};
ghost use Rattle.adr_wire.specs.Chunks.{TrailersAt, HasNoTrailers, TrailersFound};
ghost use Rattle.adr_wire.specs.declared.end.MessageFault.TheVariants.{Malformed};

use crate::ahead::Ahead;
use crate::end::ReadEnd;
use crate::front::{Front, MOST_FIELDS, NeverFound, await_front};
use crate::lines::has_empty_line;
use adr_text::Source;
use httparse::Status;
use httparse::spans::{EMPTY_HEADER_SPAN, parse_headers};

/// Trailers at the front of bytes: how long they are.
#[derive(Clone, Copy)]
struct Trailers {
    length: usize,
}

impl Front for Trailers {
    ghost found = { λ s bytes. TrailersFound bytes s.length };

    ghost none = { HasNoTrailers };

    #[tactic(auto, using(crate::proofs::TrailerSections::no_trailers_end, crate::proofs::TrailerSections::no_trailers_full, crate::proofs::TrailerSections::no_trailers_err, crate::proofs::TrailerSections::trailers_found))]
    fn find(&mut self, bytes: &[u8]) -> Result<bool, NeverFound> {
        let mut headers = [EMPTY_HEADER_SPAN; MOST_FIELDS];
        match parse_headers(bytes, &mut headers) {
            Ok(Status::Complete((length, _))) => {
                self.length = length;
                Ok(true)
            }
            Ok(Status::Partial) => Ok(false),
            Err(_) => Err(NeverFound),
        }
    }

    fn may_end(&self, bytes: &[u8], from: usize) -> bool {
        has_empty_line(bytes, from)
    }
}

/// Reads the trailers. What they say is dropped, and what follows them stays ahead.
pub(crate) fn read_trailers<S: Source>(source: &mut S, ahead: &mut Ahead) -> Result<(), ReadEnd>
    requires { length ahead.old.bytes ≤ 16384 }
    ensures found { OnOk result ((bytes : List ℕ) → Holds (S.left source.old) ahead.old.bytes bytes
        → (fields : List Field) × (end : LineEnd) × (rest : List ℕ) × TrailersAt bytes fields end rest
        × Holds (S.left source.new) ahead.new.bytes rest) }
    ensures none { IfRefused result (λ f. (f ≡ Malformed)
        × ((bytes : List ℕ) → Holds (S.left source.old) ahead.old.bytes bytes → HasNoTrailers bytes)) }
    ensures unfinished { IsTrue (reader_failed result) → OfWhatCame (S.left source.old) ahead.old.bytes (S.left source.new) HasNoTrailers }
    ensures counted { IsCounted (S.calls source.old) ahead.old.reads_left (S.calls source.new) ahead.new.reads_left (reader_failed result) }
{
    let mut trailers = Trailers { length: 0 };
    await_front(source, ahead, &mut trailers)?;
    ahead.skip(trailers.length);
    Ok(())
}
