//! A fault of an object, where it is and what.
use crate::flaw::Flaw;
use crate::place::Place;
use std::fmt;

/// The first fault of an object: where it is, and what is wrong there. Its words tell nothing of the
/// object's own text.
#[derive(Clone, Copy)]
pub struct Defect {
    pub place: Place,
    pub flaw: Flaw,
}

impl fmt::Display for Defect {
    fn fmt<W: fmt::Write>(&self, f: &mut fmt::Formatter<W>) -> fmt::Result {
        let within = self.place.within;
        let part = self.place.part;
        let flaw = self.flaw;
        match flaw {
            Flaw::Several => write!(f, "{within}two {part}s"),
            _ => write!(f, "{within}{part}{flaw}"),
        }
    }
}
