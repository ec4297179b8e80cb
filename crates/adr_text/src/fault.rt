ghost use Rattle.std.specs.Prelude.{◌≡◌};
ghost use Rattle.adr_text.specs.Faults.{refusal_of};
ghost use Rattle.adr_text.specs.declared.fault.Fault.TheVariants.{OutOfMemory};

use crate::refusal::Refusal;
use std::alloc::{AllocError, AllocFailed};
use thiserror::Error;

/// Why a JSON value is not read as a type.
#[derive(Clone, Copy, Debug, PartialEq, Eq, Error)]
pub enum Fault {
    #[error("out of memory")]
    OutOfMemory,
    /// A number that is not whole.
    #[error("number is not whole")]
    Fraction,
    /// Not exactly one of what has to be there once.
    #[error("not exactly one")]
    NotOne,
    /// An id that was used before.
    #[error("id is repeated")]
    Repeated,
    /// A whole number beyond its range.
    #[error("number out of range")]
    OutOfRange,
    /// Anything else.
    #[error("malformed value")]
    BadShape,
}

impl From<AllocError> for Fault {
    ghost from_gives = { λ _ e. e ≡ OutOfMemory };

    fn from(_e: AllocError) -> Fault {
        Fault::OutOfMemory
    }
}

impl<T: Drop> From<AllocFailed<T>> for Fault {
    ghost from_gives = { λ _ e. e ≡ OutOfMemory };

    fn from(_e: AllocFailed<T>) -> Fault {
        Fault::OutOfMemory
    }
}

impl Fault {
    /// The refusal of who sent such a value.
    pub fn refusal(self) -> Refusal
        ensures { result ≡ refusal_of self }
    {
        match self {
            Fault::OutOfMemory => Refusal::OutOfMemory,
            Fault::Fraction | Fault::OutOfRange => Refusal::NotWhole,
            Fault::NotOne | Fault::Repeated | Fault::BadShape => Refusal::BadShape,
        }
    }
}
