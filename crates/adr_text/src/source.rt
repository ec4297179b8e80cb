ghost use Rattle.std.specs.Prelude.{◌≡◌, ◌<◌, ℕ, List, Option, is_err, length, IfOk};
ghost use Rattle.std.specs.Io.{ReadsAtMost, WritesAtMost};
ghost use Rattle.std.specs.Io.KnownBytes.{ReadConsumes, WriteAppends};
ghost use Rattle.adr_text.specs.Calls.{Calls, with_call};

/// A read or a write failed.
#[derive(Clone, Copy, PartialEq, Eq)]
pub struct IoFault;

/// Where bytes come from.
pub trait Source {
    /// The bytes that are left, where they are known.
    ghost left: { Self → Option (List ℕ) };

    /// The calls that were made.
    ghost calls: { Self → Calls };

    /// One read. It gives 0 only at the end, or where there is no room.
    fn pull(&mut self, into: &mut [u8]) -> Result<usize, IoFault>
        ensures bound { ReadsAtMost result into.new }
        ensures bytes { ReadConsumes (left self.old) (left self.new) result into.new }
        ensures calls { calls self.new ≡ with_call (is_err result) (calls self.old) };
}

/// Where bytes go.
pub trait Sink {
    /// The bytes that were written, where they are known.
    ghost written: { Self → Option (List ℕ) };

    /// The calls that were made.
    ghost calls: { Self → Calls };

    /// One write. It takes at least one byte, where there is one, or fails.
    fn push(&mut self, bytes: &[u8]) -> Result<usize, IoFault>
        ensures bound { WritesAtMost result bytes.now }
        ensures some { IfOk result (λ n. 0 < length bytes.now → 0 < n) }
        ensures bytes { WriteAppends (written self.old) (written self.new) result bytes.now }
        ensures calls { calls self.new ≡ with_call (is_err result) (calls self.old) };
}
