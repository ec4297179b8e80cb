//! Why a reading stopped.
ghost use Rattle.std.specs.Prelude.{◌≡◌};
ghost use Rattle.adr_schema.specs.Stops.{IsStop, flawed_at};
ghost use Rattle.adr_schema.specs.declared.stopped.Stopped.TheVariants.{OutOfMemory};

use crate::defect::Defect;
use crate::flaw::{Flaw, Shape};
use crate::place::Place;
use adr_text::Fault;
use std::alloc::{AllocError, AllocFailed};

/// Why a reading stopped: memory was wanting, or there is a fault.
#[derive(Clone, Copy)]
pub(crate) enum Stopped {
    OutOfMemory,
    At(Defect),
}

impl From<AllocError> for Stopped {
    ghost from_gives = { λ _ e. e ≡ OutOfMemory };

    fn from(_e: AllocError) -> Stopped {
        Stopped::OutOfMemory
    }
}

impl<T: Drop> From<AllocFailed<T>> for Stopped {
    ghost from_gives = { λ _ e. e ≡ OutOfMemory };

    fn from(_e: AllocFailed<T>) -> Stopped {
        Stopped::OutOfMemory
    }
}

impl Stopped {
    /// That there is that flaw there.
    pub(crate) fn at(place: Place, flaw: Flaw) -> Stopped
        ensures { result ≡ flawed_at place flaw }
    {
        Stopped::At(Defect { place, flaw })
    }

    /// The fault of a reading there, which has only such faults as are told in one way, or the wrong
    /// shape.
    pub(crate) fn by(place: Place, fault: Fault, shape: Shape) -> Stopped
        ensures { IsStop place fault result }
    {
        let flaw = match fault {
            Fault::OutOfMemory => return Stopped::OutOfMemory,
            Fault::Fraction => Flaw::NotWhole,
            Fault::NotOne => Flaw::Several,
            Fault::Repeated => Flaw::Twice,
            Fault::OutOfRange => Flaw::OutOfRange,
            Fault::BadShape => Flaw::Shape(shape),
        };
        Stopped::at(place, flaw)
    }
}
