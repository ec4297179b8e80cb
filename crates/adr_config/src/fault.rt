//! Why bytes are not read as a configuration.
ghost use Rattle.std.specs.Prelude.{◌≡◌};
ghost use Rattle.adr_config.specs.declared.fault.ConfigFault.TheVariants.{OutOfMemory};

use crate::wrong::Wrong;
use std::alloc::{AllocError, AllocFailed};
use thiserror::Error;

/// Why bytes are not read as a configuration.
#[derive(Clone, Copy, Debug, Error)]
pub enum ConfigFault {
    #[error("out of memory")]
    OutOfMemory,
    /// They are JSON, and no object.
    #[error("not a JSON object")]
    NoObject,
    /// The first member that is wrong, in the order in which members are read; or where they are no JSON.
    #[error(transparent)]
    Wrong(Wrong),
}

impl From<AllocError> for ConfigFault {
    ghost from_gives = { λ _ e. e ≡ OutOfMemory };

    fn from(_e: AllocError) -> ConfigFault {
        ConfigFault::OutOfMemory
    }
}

impl<T: Drop> From<AllocFailed<T>> for ConfigFault {
    ghost from_gives = { λ _ e. e ≡ OutOfMemory };

    fn from(_e: AllocFailed<T>) -> ConfigFault {
        ConfigFault::OutOfMemory
    }
}
