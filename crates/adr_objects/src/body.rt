//! What an upstream object says.
ghost use Rattle.std.specs.Prelude.{◌≡◌, IsTrue, IfOk};
ghost use Rattle.adr_text.specs.Faults.{Finds};
ghost use Rattle.adr_objects.specs.Limits.{is_upstream_id, upstream_id_of};

use crate::interval::{Intervals, Period, same_period};
use crate::kind::Kind;
use crate::name_set::NameSet;
use crate::setpoint::Priority;
use crate::text::{EventName, same_name};
use adr_text::{Fault, Moment, Name, ObjectId, Refusal};
use std::alloc::{AllocError, Global};
use std::marker::Model;

/// The id of an upstream object: an object id of at most 100 bytes, so that the ids of the events that
/// are made of it stay within 128.
#[derive(Clone)]
pub struct UpstreamId {
    id: ObjectId,
}

impl Drop for UpstreamId {
    fn drop(self) {
        let UpstreamId { id: _ } = self;
    }
}

impl Model for UpstreamId {
    ghost use Rattle.std.specs.Prelude.{List, ℕ, IsTrue};
    ghost use Rattle.adr_objects.specs.Limits.{is_upstream_id};

    ghost Value = { List ℕ };

    ghost view = { λ a. a.id };

    ghost invariant = { λ a. IsTrue (is_upstream_id a.id) };
}

/// Why the body of an event is kept unread. Its number is the reason that the canonical text says.
#[derive(Clone, Copy, PartialEq, Eq)]
pub enum Reason {
    /// 1: a setpoint that is no whole number.
    Fraction,
    /// 2: more than one setpoint in an interval, or not exactly one value in it.
    NotOne,
    /// 3: two intervals with one id.
    Repeated,
    /// 4: a number out of range.
    OutOfRange,
    /// 5: anything else.
    BadShape,
}

/// An event as the utility says it, so far as this node reads it (OpenADR 3.0, EVENT).
pub struct EventBody {
    pub program: ObjectId,
    pub name: Option<EventName>,
    pub priority: Option<Priority>,
    pub period: Option<Period>,
    /// The names of its `RESOURCE_NAME` targets, where it has such a target.
    pub resource_names: Option<NameSet>,
    pub intervals: Intervals,
}

impl Drop for EventBody {
    fn drop(self) {
        let EventBody {
            program: _,
            name: _,
            priority: _,
            period: _,
            resource_names: _,
            intervals: _,
        } = self;
    }
}

/// What an upstream object says.
pub enum Body {
    /// A program's name.
    Program(Name),
    Event(EventBody),
    /// A body with a fault, of which only the reason is kept.
    Opaque(Reason),
}

impl Drop for Body {
    fn drop(self) {
        match self {
            Body::Program(_) => (),
            Body::Event(_) => (),
            Body::Opaque(_) => (),
        }
    }
}

/// One version of an upstream object.
#[derive(Drop)]
pub struct Found {
    pub kind: Kind,
    pub id: UpstreamId,
    pub moment: Moment,
    pub body: Body,
}

impl UpstreamId {
    /// The id that the text is.
    pub fn new(alloc: Global, text: &str) -> Result<UpstreamId, Fault>
        ensures { Finds (λ id. id) result (upstream_id_of text.now) }
    {
        if text.len() > 100 {
            return Err(Fault::BadShape);
        }
        match ObjectId::new(alloc, text) {
            Ok(id) => Ok(UpstreamId { id }),
            Err(Refusal::OutOfMemory) => Err(Fault::OutOfMemory),
            Err(_) => Err(Fault::BadShape),
        }
    }

    /// The same id, as that of any object.
    pub fn as_id(&self) -> &ObjectId
        ensures value { result.now ≡ self.now }
        ensures valid { IsTrue (is_upstream_id self.now) }
    {
        &self.id
    }
}

impl Reason {
    ghost use Rattle.adr_objects.specs.Reasons.{reason_number};

    /// Its number, 1 to 5.
    pub fn number(self) -> u8
        ensures { result ≡ reason_number self }
    {
        match self {
            Reason::Fraction => 1,
            Reason::NotOne => 2,
            Reason::Repeated => 3,
            Reason::OutOfRange => 4,
            Reason::BadShape => 5,
        }
    }
}

fn same_names(names: &Option<NameSet>) -> Result<Option<NameSet>, AllocError>
    ensures { IfOk result (λ copy. copy ≡ names.now) }
{
    names.clone()
}

// A clone is the same value: what a caller reads is this, and not a field at a time.
impl Clone for EventBody {
    ghost is_clone = { λ x y. y ≡ x };

    fn clone(&self) -> Result<EventBody, AllocError> {
        Ok(EventBody {
            program: self.program.clone()?,
            name: same_name(&self.name)?,
            priority: self.priority,
            period: same_period(&self.period)?,
            resource_names: same_names(&self.resource_names)?,
            intervals: self.intervals.clone()?,
        })
    }
}

impl Clone for Body {
    ghost is_clone = { λ x y. y ≡ x };

    fn clone(&self) -> Result<Body, AllocError> {
        match self {
            Body::Program(name) => Ok(Body::Program(name.clone()?)),
            Body::Event(event) => Ok(Body::Event(event.clone()?)),
            Body::Opaque(reason) => Ok(Body::Opaque(*reason)),
        }
    }
}

impl Clone for Found {
    ghost is_clone = { λ x y. y ≡ x };

    fn clone(&self) -> Result<Found, AllocError> {
        Ok(Found {
            kind: self.kind,
            id: self.id.clone()?,
            moment: self.moment,
            body: self.body.clone()?,
        })
    }
}
