//! The edits.
use adr_objects::{Found, Kind, Number, ReportIn, ResourceName};
use adr_text::{Name, ObjectId};

/// An edit of the mirror or of the portfolio.
pub enum Edit {
    /// Versions of upstream objects come.
    Page(Vec<Found>),
    /// An upstream object is gone.
    Gone(Kind, ObjectId),
    AddVen(Name),
    PutVen(Number, Name),
    RemoveVen(Number),
    /// A resource is added to a ven.
    AddResource(Number, ResourceName),
    /// A resource of a ven is renamed.
    PutResource(Number, Number, ResourceName),
    RemoveResource(Number, Number),
    /// The share of a resource in a program; 0 removes it.
    SetShare(ObjectId, Number, u32),
    PostReport(ReportIn),
    PutReport(Number, ReportIn),
    DeleteReport(Number),
}

impl Drop for Edit {
    fn drop(self) {
        match self {
            Edit::Page(_) => (),
            Edit::Gone(_, _) => (),
            Edit::AddVen(_) => (),
            Edit::PutVen(_, _) => (),
            Edit::RemoveVen(_) => (),
            Edit::AddResource(_, _) => (),
            Edit::PutResource(_, _, _) => (),
            Edit::RemoveResource(_, _) => (),
            Edit::SetShare(_, _, _) => (),
            Edit::PostReport(_) => (),
            Edit::PutReport(_, _) => (),
            Edit::DeleteReport(_) => (),
        }
    }
}

/// The kinds of edits, in words.
pub const KINDS: [&str; 13] = [
    "page",
    "gone",
    "ven added",
    "ven renamed",
    "ven removed",
    "resource added",
    "resource renamed",
    "resource removed",
    "share set",
    "share removed",
    "report posted",
    "report replaced",
    "report removed",
];

impl Edit {
    /// Where its kind stands among the kinds.
    pub fn kind(&self) -> usize {
        match self {
            Edit::Page(_) => 0,
            Edit::Gone(_, _) => 1,
            Edit::AddVen(_) => 2,
            Edit::PutVen(_, _) => 3,
            Edit::RemoveVen(_) => 4,
            Edit::AddResource(_, _) => 5,
            Edit::PutResource(_, _, _) => 6,
            Edit::RemoveResource(_, _) => 7,
            Edit::SetShare(_, _, 0) => 9,
            Edit::SetShare(_, _, _) => 8,
            Edit::PostReport(_) => 10,
            Edit::PutReport(_, _) => 11,
            Edit::DeleteReport(_) => 12,
        }
    }
}
