//! A report of which the shape has been read, and the numbers are still to be looked at.
ghost use Rattle.std.specs.Prelude.{◌≡◌};

use adr_objects::{HasId, IntervalList, ReportName};
use adr_text::{Name, ObjectId, Whole};

/// An interval of a report. Its usage is a number, which may be neither whole nor in range.
#[derive(Clone, Copy)]
pub(crate) struct PostedInterval {
    pub(crate) id: i32,
    pub(crate) usage: Option<Whole>,
}

impl HasId for PostedInterval {
    ghost id_of = { λ i. i.id };

    fn id(&self) -> i32 {
        self.id
    }
}

/// A report (OpenADR 3.0, REPORT).
#[derive(Drop)]
pub(crate) struct PostedReport {
    pub(crate) program: ObjectId,
    pub(crate) event: ObjectId,
    pub(crate) client: Name,
    pub(crate) name: Option<ReportName>,
    pub(crate) resource_name: Name,
    pub(crate) intervals: IntervalList<PostedInterval>,
}
