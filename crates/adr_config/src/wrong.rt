//! Members that are wrong.
ghost use Rattle.std.specs.Prelude.{◌≡◌};
ghost use Rattle.adr_config.specs.Tellings.{told};

use crate::fault::ConfigFault;
use crate::place::Place;
use adr_text::Fault;
use thiserror::Error;

/// Why a member is wrong.
#[derive(Clone, Copy, Debug, Error)]
pub(crate) enum Why {
    #[error("not JSON")]
    NoJson,
    #[error("missing")]
    Missing,
    #[error("not a text")]
    NoText,
    #[error("not a list")]
    NoList,
    #[error("not an object")]
    NoObject,
    #[error("not a whole number from 1 to {0}")]
    NoCount(u64),
    #[error("not an IP address, a colon and a port")]
    NoListen,
    #[error("not an http address of an IP address or localhost")]
    NoUpstream,
    #[error("not a network")]
    NoNetwork,
    #[error("not 1 to 128 bytes")]
    NoName,
    #[error("not 1 to 1024 characters from ! to ~")]
    NoToken,
    #[error("the same as in an item before")]
    Repeated,
    #[error("not operator, utility or ven")]
    NoRole,
    #[error("not 1 to 128 letters, digits, - and _")]
    NoId,
    /// An id beside another role than a ven's.
    #[error("only a ven has one")]
    OfNoVen,
    #[error("not off, error, warn, info or debug")]
    NoLevel,
    #[error("not confirm or at once")]
    NoDeletion,
}

/// A member that is wrong, told by where it stands and why. No text of the file is told, least of all a token.
#[derive(Clone, Copy, Debug, Error)]
#[error("{place}: {why}")]
pub struct Wrong {
    place: Place,
    why: Why,
}

impl Wrong {
    /// What is told where reading it has that fault: want of memory, or that it is wrong.
    pub(crate) fn told(self, fault: Fault) -> ConfigFault
        ensures { result ≡ told fault self }
    {
        match fault {
            Fault::OutOfMemory => ConfigFault::OutOfMemory,
            _ => ConfigFault::Wrong(self),
        }
    }
}

impl Place {
    /// That what stands there is wrong, and why.
    pub(crate) fn wrong(self, why: Why) -> Wrong {
        Wrong { place: self, why }
    }
}
