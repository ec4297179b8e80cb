//! Reports of usage, and their roll-up.
ghost use Rattle.std.specs.Prelude.{◌≡◌, IfOk};

use crate::interval::{HasId, IntervalList};
use crate::number::Number;
use crate::setpoint::Setpoint;
use crate::shown::Stamps;
use crate::text::{Text, same_name};
use adr_text::{Name, ObjectId, Rows};
use std::alloc::AllocError;

/// A `USAGE`: a whole number in the utility's unit, of the range of a setpoint.
pub type Usage = Setpoint;

/// The name of a report, which need not be there, and then may be empty (OpenADR 3.0, reportName).
pub type ReportName = Text<256>;

/// An interval of a report, with the usage in it, where the report says one.
#[derive(Clone, Copy, PartialEq, Eq)]
pub struct UsageInterval {
    pub id: i32,
    pub usage: Option<Usage>,
}

impl HasId for UsageInterval {
    ghost id_of = { λ i. i.id };

    fn id(&self) -> i32 {
        self.id
    }
}

/// The intervals of a report, in the order in which they were posted.
pub type UsageIntervals = IntervalList<UsageInterval>;

impl Clone for UsageIntervals {
    ghost is_clone = { λ x y. y ≡ x };

    fn clone(&self) -> Result<UsageIntervals, AllocError> {
        self.same()
    }
}

/// What a report is about, and who made it.
pub struct ReportHead {
    pub program: ObjectId,
    /// The id of the upstream event.
    pub event: ObjectId,
    /// The resource that the event is shown to.
    pub resource: Number,
    pub client: Name,
    pub name: Option<ReportName>,
    /// The name of the resource, as it was posted.
    pub resource_name: Name,
}

impl Drop for ReportHead {
    fn drop(self) {
        let ReportHead {
            program: _,
            event: _,
            resource: _,
            client: _,
            name: _,
            resource_name: _,
        } = self;
    }
}

/// What a report says: its intervals stand in the order in which they were posted.
pub struct ReportBody {
    pub head: ReportHead,
    pub intervals: Rows<UsageInterval>,
}

impl Drop for ReportBody {
    fn drop(self) {
        let ReportBody {
            head: _,
            intervals: _,
        } = self;
    }
}

/// A report of a site (OpenADR 3.0, REPORT).
#[derive(Clone)]
pub struct ReportObject {
    pub number: Number,
    pub body: ReportBody,
    pub stamps: Stamps,
}

impl Drop for ReportObject {
    fn drop(self) {
        let ReportObject {
            number: _,
            body: _,
            stamps: _,
        } = self;
    }
}

/// An interval of a roll-up: the sum of the usage of those that have one, in the utility's unit, and
/// the names of those that have none, ascending by bytes.
#[derive(Clone)]
pub struct RollupInterval {
    pub id: i32,
    pub sum: i64,
    pub missing: Rows<Name>,
}

impl Drop for RollupInterval {
    fn drop(self) {
        let RollupInterval {
            id: _,
            sum: _,
            missing: _,
        } = self;
    }
}

/// What the sites used in an upstream event, in all.
pub struct Rollup {
    pub program: ObjectId,
    pub intervals: Rows<RollupInterval>,
}

impl Drop for Rollup {
    fn drop(self) {
        let Rollup {
            program: _,
            intervals: _,
        } = self;
    }
}

/// A roll-up as it is told to the utility: under the node's name, and the id of the upstream event
/// (OpenADR 3.0, REPORT).
#[derive(Clone, Drop)]
pub struct RollupObject {
    pub client: Name,
    pub event: ObjectId,
    pub rollup: Rollup,
}

fn same_intervals(intervals: &Rows<UsageInterval>) -> Result<Rows<UsageInterval>, AllocError>
    ensures { IfOk result (λ copy. copy ≡ intervals.now) }
{
    intervals.clone()
}

fn same_sums(intervals: &Rows<RollupInterval>) -> Result<Rows<RollupInterval>, AllocError>
    ensures { IfOk result (λ copy. copy ≡ intervals.now) }
{
    intervals.clone()
}

// A clone is the same value: what a caller reads is this, and not a field at a time.
impl Clone for ReportHead {
    ghost is_clone = { λ x y. y ≡ x };

    fn clone(&self) -> Result<ReportHead, AllocError> {
        Ok(ReportHead {
            program: self.program.clone()?,
            event: self.event.clone()?,
            resource: self.resource,
            client: self.client.clone()?,
            name: same_name(&self.name)?,
            resource_name: self.resource_name.clone()?,
        })
    }
}

impl Clone for ReportBody {
    ghost is_clone = { λ x y. y ≡ x };

    fn clone(&self) -> Result<ReportBody, AllocError> {
        Ok(ReportBody {
            head: self.head.clone()?,
            intervals: same_intervals(&self.intervals)?,
        })
    }
}

impl Clone for Rollup {
    ghost is_clone = { λ x y. y ≡ x };

    fn clone(&self) -> Result<Rollup, AllocError> {
        Ok(Rollup {
            program: self.program.clone()?,
            intervals: same_sums(&self.intervals)?,
        })
    }
}
