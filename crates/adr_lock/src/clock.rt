//! What time it is.
ghost use Rattle.std.specs.Prelude.{ℕ};

use adr_text::Moment;
use std::sync::Wait;

/// Tells what time it is.
pub trait Clock {
    /// The moments that it may tell.
    ghost tells: { Self → ℕ → Type 0 };

    /// The present moment. Of a time out of range the nearest moment is given, and the first one where the clock cannot
    /// be read.
    fn now<R: Wait>(&self, rt: &R) -> Moment
        ensures { tells self.now result };
}
