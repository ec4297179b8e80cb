//! A head, a line or a section at the front of bytes that come in pieces.
ghost use Rattle.std.specs.Prelude.{◌≡◌, ◌<◌, ◌≤◌, ◌++◌, ℕ, List, length, take, OnOk, OnErr, IfOk, IsTrue, IsFalse};
ghost use Rattle.adr_wire.specs.Pieces.{Holds, OfWhatCame, IfRefused, IsCounted, reader_failed};
ghost use Rattle.adr_wire.specs.declared.end.MessageFault.TheVariants.{Malformed};

use crate::ahead::Ahead;
use crate::end::{MessageFault, ReadEnd};
use adr_text::Source;

/// The most bytes of a head, of a chunk line, and of trailers.
pub const MOST_FRONT: usize = 16_384;

/// The most fields of a head and of trailers.
pub const MOST_FIELDS: usize = 64;

/// The bytes don't begin with what is looked for, whatever follows them.
#[derive(Clone, Copy, PartialEq, Eq)]
pub struct NeverFound;

/// What is looked for at the front of bytes, and keeps what was found.
pub trait Front {
    /// What was found is at the front of these bytes.
    ghost found: { Self → List ℕ → Type 0 };

    /// There is none at the front of these bytes.
    ghost none: { List ℕ → Type 0 };

    /// Looks for it. It answers whether all of it is there.
    fn find(&mut self, bytes: &[u8]) -> Result<bool, NeverFound>
        ensures found { IfOk result (λ is. IsTrue is → found self.new bytes.now) }
        ensures none { IfOk result (λ is. IsFalse is → none bytes.now) }
        ensures full { IfOk result (λ is. IsFalse is → length bytes.now ≡ 16384 → (more : List ℕ) → none (bytes.now ++ more)) }
        ensures never { OnErr result ((more : List ℕ) → none (bytes.now ++ more)) };

    /// Whether it may end behind the first `from` bytes. It spares looking for what can't be there.
    fn may_end(&self, bytes: &[u8], from: usize) -> bool
        ensures { IsFalse result → (0 < from → none (take from bytes.now)) → none bytes.now };
}

/// Reads until all of it is ahead.
pub fn await_front<S: Source, F: Front>(
    source: &mut S,
    ahead: &mut Ahead,
    front: &mut F,
) -> Result<(), ReadEnd>
    requires begins { length ahead.old.bytes ≤ 16384 }
    ensures whole { OnOk result ((bytes : List ℕ) → Holds (S.left source.old) ahead.old.bytes bytes
        → Holds (S.left source.new) ahead.new.bytes bytes) }
    ensures found { OnOk result (F.found front.new ahead.new.bytes) }
    ensures limit { OnOk result (length ahead.new.bytes ≤ 16384) }
    ensures none { IfRefused result (λ f. (f ≡ Malformed)
        × ((bytes : List ℕ) → Holds (S.left source.old) ahead.old.bytes bytes → F.none bytes)) }
    // Where the reader failed, it wasn't there yet: nothing is asked for behind it.
    ensures unfinished { IsTrue (reader_failed result) → OfWhatCame (S.left source.old) ahead.old.bytes (S.left source.new) F.none }
    ensures counted { IsCounted (S.calls source.old) ahead.old.reads_left (S.calls source.new) ahead.new.reads_left (reader_failed result) }
{
    let mut seen = 0;
    let mut has_come = true;
    'front: loop {
        let length = ahead.as_slice().len();
        let room = MOST_FRONT - length;
        let is_last = room == 0 || !has_come;
        if is_last || front.may_end(ahead.as_slice(), seen) {
            match front.find(ahead.as_slice()) {
                Ok(true) => return Ok(()),
                Ok(false) if !is_last => {}
                _ => return Err(ReadEnd::Bytes(MessageFault::Malformed)),
            }
        }
        seen = length;
        has_come = ahead.more(source, room)?;
    }
}
