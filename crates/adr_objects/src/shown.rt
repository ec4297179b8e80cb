//! Objects as the node shows them.
ghost use Rattle.std.specs.Prelude.{◌≡◌, IfOk};

use crate::interval::{Period, same_period};
use crate::number::Number;
use crate::setpoint::Priority;
use crate::text::{EventName, same_name};
use adr_text::{Moment, Name, ObjectId, Rows};
use std::alloc::AllocError;

/// When an object appeared, and when it last changed (OpenADR 3.0, createdDateTime and
/// modificationDateTime).
#[derive(Clone, Copy, PartialEq, Eq)]
pub struct Stamps {
    pub created: Moment,
    pub modified: Moment,
}

/// An interval of a shown event, with the resource's part of the setpoint, in the utility's unit,
/// where the upstream interval carries one.
#[derive(Clone, PartialEq, Eq)]
pub struct ShownInterval {
    pub id: i32,
    pub period: Option<Period>,
    pub part: Option<i64>,
}

impl Drop for ShownInterval {
    fn drop(self) {
        let ShownInterval {
            id: _,
            period: _,
            part: _,
        } = self;
    }
}

/// What one resource is shown of an upstream event.
pub struct ShownEvent {
    pub program: ObjectId,
    pub name: Option<EventName>,
    pub priority: Option<Priority>,
    pub period: Option<Period>,
    pub intervals: Rows<ShownInterval>,
    pub ven_name: Name,
    pub resource_name: Name,
}

impl Drop for ShownEvent {
    fn drop(self) {
        let ShownEvent {
            program: _,
            name: _,
            priority: _,
            period: _,
            intervals: _,
            ven_name: _,
            resource_name: _,
        } = self;
    }
}

/// A program of the utility (OpenADR 3.0, PROGRAM).
#[derive(Clone, PartialEq, Eq, Drop)]
pub struct ProgramObject {
    pub id: ObjectId,
    pub name: Name,
    pub stamps: Stamps,
}

/// A shown event, with its id's two parts and its stamps.
#[derive(Clone)]
pub struct EventObject {
    pub resource: Number,
    /// The id of the upstream event.
    pub event: ObjectId,
    pub shown: ShownEvent,
    pub stamps: Stamps,
}

impl Drop for EventObject {
    fn drop(self) {
        let EventObject {
            resource: _,
            event: _,
            shown: _,
            stamps: _,
        } = self;
    }
}

/// An enrolled ven (OpenADR 3.0, VEN).
#[derive(Clone, PartialEq, Eq, Drop)]
pub struct VenObject {
    pub number: Number,
    pub name: Name,
    pub stamps: Stamps,
}

/// A resource of a ven (OpenADR 3.0, RESOURCE).
#[derive(Clone, PartialEq, Eq, Drop)]
pub struct ResourceObject {
    pub number: Number,
    pub ven: Number,
    pub name: Name,
    pub stamps: Stamps,
}

/// The weight of a resource in a program.
#[derive(Clone, PartialEq, Eq, Drop)]
pub struct ShareObject {
    pub program: ObjectId,
    pub resource: Number,
    pub share: u32,
}

/// The weights that are kept for an upstream event, each behind the number of its resource, in the order of these.
#[derive(Clone, Drop)]
pub struct FrozenObject {
    pub event: ObjectId,
    pub shares: Rows<(Number, u32)>,
}

fn same_intervals(intervals: &Rows<ShownInterval>) -> Result<Rows<ShownInterval>, AllocError>
    ensures { IfOk result (λ copy. copy ≡ intervals.now) }
{
    intervals.clone()
}

impl Clone for ShownEvent {
    ghost is_clone = { λ x y. y ≡ x };

    fn clone(&self) -> Result<ShownEvent, AllocError> {
        Ok(ShownEvent {
            program: self.program.clone()?,
            name: same_name(&self.name)?,
            priority: self.priority,
            period: same_period(&self.period)?,
            intervals: same_intervals(&self.intervals)?,
            ven_name: self.ven_name.clone()?,
            resource_name: self.resource_name.clone()?,
        })
    }
}
