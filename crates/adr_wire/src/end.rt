//! Why no message was read.
ghost use Rattle.std.specs.Prelude.{◌≡◌};
ghost use Rattle.adr_wire.specs.declared.end.ReadEnd.TheVariants.{OutOfMemory, Reader};

use adr_text::IoFault;
use std::alloc::AllocError;

/// Why bytes are no message.
#[derive(Clone, Copy, Debug, PartialEq, Eq)]
pub enum MessageFault {
    /// They are of another form, or end too soon.
    Malformed,
    /// The body is too long.
    TooLarge,
    /// The body has a coding that isn't known, beside `chunked`.
    NoCoding,
}

/// Why no message was read.
#[derive(Clone, Copy, Debug, PartialEq, Eq)]
pub enum ReadEnd {
    /// The bytes are none.
    Bytes(MessageFault),
    /// A read failed, or there were too many.
    Reader,
    OutOfMemory,
}

impl From<AllocError> for ReadEnd {
    ghost from_gives = { λ _ e. e ≡ OutOfMemory };

    fn from(_e: AllocError) -> ReadEnd {
        ReadEnd::OutOfMemory
    }
}

impl From<IoFault> for ReadEnd {
    ghost from_gives = { λ _ e. e ≡ Reader };

    fn from(_e: IoFault) -> ReadEnd {
        ReadEnd::Reader
    }
}
