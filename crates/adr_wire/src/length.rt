//! A body of a known length (RFC 9112, section 6.3).
ghost use Rattle.std.specs.Prelude.{◌≡◌, ◌<◌, ◌≤◌, ℕ, List, length, drop, OnOk, IfOk, IsTrue};
ghost use Rattle.adr_wire.specs.Pieces.{Holds, OfWhatCame, IsReading, IsCounted, reader_failed};
ghost use Rattle.adr_wire.specs.Lengths.{body_of_length};

use crate::ahead::Ahead;
use crate::end::{MessageFault, ReadEnd};
use adr_text::Source;

/// Reads so many bytes. What follows them stays ahead.
#[tactic(auto, using(crate::proofs::Lengths::length_whole, crate::proofs::Lengths::length_cut, crate::proofs::Lengths::after_front))]
pub fn read_length<S: Source>(
    source: &mut S,
    ahead: &mut Ahead,
    n: usize,
) -> Result<Vec<u8>, ReadEnd>
    ensures reading { IsReading (λ v. v.items) result (λ read. (bytes : List ℕ) → Holds (S.left source.old) ahead.old.bytes bytes
        → read ≡ body_of_length n bytes) }
    ensures after { OnOk result ((bytes : List ℕ) → Holds (S.left source.old) ahead.old.bytes bytes
        → Holds (S.left source.new) ahead.new.bytes (drop n bytes)) }
    ensures long { IfOk result (λ v. length v.items ≡ n) }
    ensures unfinished { IsTrue (reader_failed result) → OfWhatCame (S.left source.old) ahead.old.bytes (S.left source.new) (λ came. length came < n) }
    ensures fewer { OnOk result (length ahead.new.bytes ≤ length ahead.old.bytes) }
    ensures counted { IsCounted (S.calls source.old) ahead.old.reads_left (S.calls source.new) ahead.new.reads_left (reader_failed result) }
{
    'length: while ahead.as_slice().len() < n {
        let missing = n - ahead.as_slice().len();
        if !ahead.more(source, missing)? {
            return Err(ReadEnd::Bytes(MessageFault::Malformed));
        }
    }
    Ok(ahead.front(n)?)
}
