//! The intervals of an event, and of a report.
ghost use Rattle.std.specs.Prelude.{◌≡◌, ◌≤◌, [], ℤ, IsTrue, length, vec_len, IfOk};
ghost use Rattle.adr_text.specs.Faults.{Finds};
ghost use Rattle.adr_objects.specs.Limits.{most_intervals};
ghost use Rattle.adr_objects.specs.Intervals.{has_id, differ, apart};

use crate::setpoint::Setpoint;
use crate::text::PeriodText;
use adr_text::{Fault, Rows};
use std::alloc::{AllocError, Global};
use std::marker::Model;

/// When something is, in texts that are copied unread (OpenADR 3.0, intervalPeriod).
#[derive(Clone, PartialEq, Eq)]
pub struct Period {
    pub start: PeriodText,
    pub duration: Option<PeriodText>,
    pub randomize_start: Option<PeriodText>,
}

impl Drop for Period {
    fn drop(self) {
        let Period {
            start: _,
            duration: _,
            randomize_start: _,
        } = self;
    }
}

/// One interval of an upstream event. It is carried where it has a setpoint.
#[derive(Clone, PartialEq, Eq)]
pub struct Interval {
    pub id: i32,
    pub period: Option<Period>,
    pub setpoint: Option<Setpoint>,
}

impl Drop for Interval {
    fn drop(self) {
        let Interval {
            id: _,
            period: _,
            setpoint: _,
        } = self;
    }
}

/// What has an id among those that it is listed with.
pub trait HasId {
    /// Its id.
    ghost id_of: { Self → ℤ };

    fn id(&self) -> i32
        ensures { result ≡ id_of self.now };
}

impl HasId for Interval {
    ghost id_of = { λ i. i.id };

    fn id(&self) -> i32 {
        self.id
    }
}

/// At most 1,000 intervals, in the order in which they came, no two of them with one id.
pub struct IntervalList<T: HasId> {
    items: Vec<T>,
}

impl<T: HasId + Drop> Drop for IntervalList<T> {
    fn drop(self) {
        let IntervalList { items: _ } = self;
    }
}

impl<T: HasId> Model for IntervalList<T> {
    ghost use Rattle.std.specs.Prelude.{List, length, ◌≤◌, IsTrue};
    ghost use Rattle.adr_objects.specs.Intervals.{differ};
    ghost use Rattle.adr_objects.specs.Limits.{most_intervals};

    ghost Value = { List T };

    ghost view = { λ a. a.items.items };

    ghost invariant = { λ a. (length a.items.items ≤ most_intervals) × IsTrue (differ T.id_of a.items.items) };
}

/// The intervals of an event, in upstream order.
pub type Intervals = IntervalList<Interval>;

// A clone is the same value: what a caller reads is this, and not a field at a time.
impl Clone for Intervals {
    ghost is_clone = { λ x y. y ≡ x };

    fn clone(&self) -> Result<Intervals, AllocError> {
        self.same()
    }
}

impl<T: HasId> IntervalList<T> {
    /// No intervals.
    pub fn new(alloc: Global) -> Self
        ensures { result ≡ [] }
    {
        IntervalList {
            items: Vec::new(alloc),
        }
    }

    /// These intervals.
    pub fn of(items: Vec<T>) -> Self
        requires few { vec_len items ≤ most_intervals }
        requires apart { IsTrue (differ T.id_of items.items) }
        ensures { result ≡ items.items }
    {
        IntervalList { items }
    }

    /// These intervals, unless two of them have one id.
    pub fn apart(items: Vec<T>) -> Result<Self, Fault>
    where
        T: Drop,
        requires few { vec_len items ≤ most_intervals }
        ensures { Finds (λ is. is) result (apart T.id_of items.items) }
    {
        if !differ(&items) {
            return Err(Fault::Repeated);
        }
        Ok(IntervalList { items })
    }

    /// All of them.
    pub fn as_slice(&self) -> &[T]
        ensures value { result.now ≡ self.now }
        ensures few { length self.now ≤ most_intervals }
        ensures apart { IsTrue (differ T.id_of self.now) }
    {
        self.items.as_slice()
    }

    // The same intervals again, of a type whose clones are the same, and so keep their ids.
    pub(crate) fn same(&self) -> Result<Self, AllocError>
    where
        T: Clone,
        requires { (x y : T) → T.is_clone x y → y ≡ x }
        ensures { IfOk result (λ copy. copy ≡ self.now) }
    {
        Ok(IntervalList {
            items: self.items.clone()?,
        })
    }

    /// The same intervals as a list, which takes no memory.
    pub fn into_rows(self) -> Rows<T>
        ensures { result ≡ self }
    {
        let IntervalList { items } = self;
        Rows::from_vec(items)
    }
}

/// Whether one of them has the id.
pub fn has_id<T: HasId>(items: &[T], id: i32) -> bool
    ensures { result ≡ has_id T.id_of id items.now }
{
    items.iter().any(|item| item.id() == id)
}

// Whether no two of them have one id.
fn differ<T: HasId>(items: &[T]) -> bool
    ensures { result ≡ differ T.id_of items.now }
{
    for i in 0..items.len() {
        let before = &items[..i];
        if has_id(before, items[i].id()) {
            return false;
        }
    }
    true
}

// The same period again, if there is one.
pub(crate) fn same_period(period: &Option<Period>) -> Result<Option<Period>, AllocError>
    ensures { IfOk result (λ copy. copy ≡ period.now) }
{
    period.clone()
}
