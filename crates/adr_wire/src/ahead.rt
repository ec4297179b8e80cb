//! Bytes that were read and not yet used.
ghost use Rattle.std.specs.Prelude.{◌≡◌, ◌+◌, ◌<◌, ◌≤◌, ℕ, List, [], length, take, drop, OnOk, IfOk, IsTrue, IsFalse};
ghost use Rattle.adr_wire.specs.Pieces.{Holds, IfRefused, IsCounted, reader_failed};

use crate::end::ReadEnd;
use adr_text::Source;
use std::alloc::{AllocError, Global};
use std::marker::Model;

/// The most bytes of one read.
const MOST_READ: usize = 4096;

/// What was read and not yet used, and how many reads may still be made.
#[derive(Drop)]
pub struct Ahead {
    alloc: Global,
    buffer: Vec<u8>,
    used: usize,
    reads_left: u32,
    piece: [u8; MOST_READ],
}

impl Model for Ahead {
    ghost use Rattle.std.specs.Prelude.{◌≤◌, length, drop};
    ghost use Rattle.adr_wire.specs.Pieces.{Waiting};

    ghost Value = { Waiting };

    ghost view = { λ a. record { bytes = drop a.used a.buffer.items; reads_left = a.reads_left } };

    ghost invariant = { λ a. a.used ≤ length a.buffer.items };
}

impl Ahead {
    /// Nothing yet. It takes no memory.
    pub fn new(alloc: Global, reads: u32) -> Ahead
        ensures bytes { result.bytes ≡ [] }
        ensures reads { result.reads_left ≡ reads }
    {
        Ahead {
            alloc,
            buffer: Vec::new(alloc),
            used: 0,
            reads_left: reads,
            piece: [0; MOST_READ],
        }
    }

    /// The bytes.
    pub fn as_slice(&self) -> &[u8]
        ensures { result.now ≡ self.now.bytes }
    {
        &self.buffer[self.used..]
    }

    /// Passes over the first bytes.
    pub fn skip(&mut self, n: usize)
        requires { n ≤ length self.old.bytes }
        ensures bytes { self.new.bytes ≡ drop n self.old.bytes }
        ensures reads { self.new.reads_left ≡ self.old.reads_left }
    {
        self.used += n;
    }

    /// Takes the first bytes out.
    pub fn front(&mut self, n: usize) -> Result<Vec<u8>, AllocError>
        requires { n ≤ length self.old.bytes }
        ensures taken { IfOk result (λ v. v.items ≡ take n self.old.bytes) }
        ensures bytes { OnOk result (self.new.bytes ≡ drop n self.old.bytes) }
        ensures reads { self.new.reads_left ≡ self.old.reads_left }
    {
        let taken = self.as_slice()[..n].to_vec(self.alloc)?;
        self.skip(n);
        Ok(taken)
    }

    /// Lets go of the bytes that were used.
    fn close_up(&mut self) -> Result<(), AllocError>
        ensures bytes { OnOk result (self.new.bytes ≡ self.old.bytes) }
        ensures reads { self.new.reads_left ≡ self.old.reads_left }
    {
        if self.used > 0 {
            self.buffer = self.buffer.split_off(self.used)?;
            self.used = 0;
        }
        Ok(())
    }

    /// One more read, of at most `most` bytes. It answers whether any came: if not, all have come.
    #[tactic(auto, using(crate::proofs::Readings::kept_holds))]
    pub fn more<S: Source>(&mut self, source: &mut S, most: usize) -> Result<bool, ReadEnd>
        requires { 0 < most }
        // No byte is lost: what is ahead and what is left are the same bytes together.
        ensures whole { OnOk result ((bytes : List ℕ) → Holds (S.left source.old) self.old.bytes bytes
            → Holds (S.left source.new) self.new.bytes bytes) }
        ensures end { IfOk result (λ came. IsFalse came → (bytes : List ℕ) → Holds (S.left source.old) self.old.bytes bytes
            → bytes ≡ self.old.bytes) }
        ensures same { IfOk result (λ came. IsFalse came → self.new.bytes ≡ self.old.bytes) }
        ensures came { IfOk result (λ came. IsTrue came → length self.old.bytes < length self.new.bytes) }
        ensures most { OnOk result (length self.new.bytes ≤ length self.old.bytes + most) }
        ensures behind { OnOk result (take (length self.old.bytes) self.new.bytes ≡ self.old.bytes) }
        ensures unread { IsTrue (reader_failed result) → (ahead bytes : List ℕ) → Holds (S.left source.old) ahead bytes → Holds (S.left source.new) ahead bytes }
        ensures fewer { OnOk result (self.new.reads_left < self.old.reads_left) }
        ensures not_refused { IfRefused result (λ f. ⊥) }
        ensures counted { IsCounted (S.calls source.old) self.old.reads_left (S.calls source.new) self.new.reads_left (reader_failed result) }
    {
        if self.reads_left == 0 {
            return Err(ReadEnd::Reader);
        }
        self.close_up()?;
        self.reads_left -= 1;
        let room = most.min(MOST_READ);
        let n = source.pull(&mut self.piece[..room])?;
        self.buffer.extend_from_slice(&self.piece[..n])?;
        Ok(n > 0)
    }
}
