//! Why a script ended early.
ghost use Rattle.std.specs.Prelude.{◌≡◌};
ghost use Rattle.adr_script.specs.declared.fault.ScriptFault.TheVariants.{OutOfMemory};

use std::alloc::{AllocError, AllocFailed};
use thiserror::Error;

/// Why not all lines of a script were taken. The lines before are answered.
#[derive(Clone, Copy, Debug, PartialEq, Eq, Error)]
pub enum ScriptFault {
    /// A read failed, or there were too many.
    #[error("read fault")]
    Read,
    /// A write failed.
    #[error("write fault")]
    Write,
    /// A line of more than 1,048,576 bytes.
    #[error("line too long")]
    LineTooLong,
    /// A line behind 1,000,000 others.
    #[error("script too long")]
    ScriptTooLong,
    #[error("out of memory")]
    OutOfMemory,
}

impl From<AllocError> for ScriptFault {
    ghost from_gives = { λ _ e. e ≡ OutOfMemory };

    fn from(_e: AllocError) -> ScriptFault {
        ScriptFault::OutOfMemory
    }
}

impl<T: Drop> From<AllocFailed<T>> for ScriptFault {
    ghost from_gives = { λ _ e. e ≡ OutOfMemory };

    fn from(_e: AllocFailed<T>) -> ScriptFault {
        ScriptFault::OutOfMemory
    }
}
