//! Why nothing is told of a job that was to be sent.
ghost use Rattle.std.specs.Prelude.{◌≡◌};
ghost use Rattle.adr_text.specs.declared.refusal.Refusal.TheVariants.{OutOfMemory};
ghost use Rattle.adr_work.specs.declared.send_fault.SendFault.TheVariants.{Refused};

use adr_text::Refusal;
use std::alloc::AllocError;
use thiserror::Error;

/// Why nothing is told of a job that was to be sent.
#[derive(Clone, Copy, Debug, PartialEq, Eq, Error)]
pub enum SendFault {
    /// It has no request, or memory was wanting.
    #[error("no request")]
    Refused(Refusal),
    /// Its address is in none of the networks that may be called.
    #[error("address may not be called")]
    NotAllowed,
}

impl From<Refusal> for SendFault {
    ghost from_gives = { λ refusal fault. fault ≡ Refused refusal };

    fn from(refusal: Refusal) -> SendFault {
        SendFault::Refused(refusal)
    }
}

impl From<AllocError> for SendFault {
    ghost from_gives = { λ _ fault. fault ≡ Refused OutOfMemory };

    fn from(_e: AllocError) -> SendFault {
        SendFault::Refused(Refusal::OutOfMemory)
    }
}
