//! What an element of a page is.
ghost use Rattle.std.specs.Prelude.{◌≡◌};
ghost use Rattle.adr_schema.specs.Elements.{version_of};

use crate::defect::Defect;
use adr_objects::Found;
use adr_text::Fault;

/// What an element of a page is, or one object.
#[derive(Drop)]
pub enum Element {
    /// A version that is read.
    Read(Found),
    /// A version of which the body is kept unread, for its first fault.
    Unread(Found, Defect),
    /// No version: its id or its moment has this fault.
    Skipped(Defect),
}

impl Element {
    /// The version that it is, or its fault.
    pub fn version(self) -> Result<Found, Fault>
        ensures { result ≡ version_of self }
    {
        match self {
            Element::Read(found) => Ok(found),
            Element::Unread(found, _) => Ok(found),
            Element::Skipped(defect) => Err(defect.flaw.fault()),
        }
    }
}
