//! What is wrong with a value.
ghost use Rattle.std.specs.Prelude.{◌≡◌};
ghost use Rattle.adr_schema.specs.Flaws.{fault_of};

use adr_text::Fault;
use std::fmt;

/// What a value of the wrong shape is not.
#[derive(Clone, Copy)]
pub enum Shape {
    Missing,
    NotText,
    Empty,
    /// It has more than so many bytes.
    Longer(usize),
    /// Others than object ids have.
    OtherCharacters,
    /// A text that would be a moment with `Z` behind it.
    NoOffset,
    NotMoment,
    NotNumber,
    NotList,
    NotObjects,
    /// No list of objects with a type each.
    NotTyped,
    /// More than 1,000 intervals.
    TooMany,
    /// More than 10,000 names of resources.
    TooManyNames,
    /// A period without a start.
    NoStart,
    /// A period of which the start, or the next two, is not a text of at most 64 bytes.
    Start,
    Duration,
    RandomizeStart,
    /// The value of that number, from 0, is no name.
    NotName(usize),
    /// A payload without a list of values.
    NoValues,
}

/// What is wrong with a value.
#[derive(Clone, Copy)]
pub enum Flaw {
    /// A number with a point or an exponent, or `-0`.
    NotWhole,
    /// A number that 64 bits do not hold.
    Beyond,
    OutOfRange,
    /// An id that an interval before has.
    Twice,
    /// More than one payload.
    Several,
    /// So many values, where one has to be.
    Count(usize),
    Shape(Shape),
}

impl Flaw {
    /// The fault that it is to the reading.
    pub fn fault(self) -> Fault
        ensures { result ≡ fault_of self }
    {
        match self {
            Flaw::NotWhole | Flaw::Beyond => Fault::Fraction,
            Flaw::OutOfRange => Fault::OutOfRange,
            Flaw::Twice => Fault::Repeated,
            Flaw::Several | Flaw::Count(_) => Fault::NotOne,
            Flaw::Shape(_) => Fault::BadShape,
        }
    }
}

impl fmt::Display for Shape {
    fn fmt<W: fmt::Write>(&self, f: &mut fmt::Formatter<W>) -> fmt::Result {
        match self {
            Shape::Missing => write!(f, " is missing"),
            Shape::NotText => write!(f, " is not a text"),
            Shape::Empty => write!(f, " is empty"),
            Shape::Longer(most) => write!(f, " is longer than {most} bytes"),
            Shape::OtherCharacters => {
                write!(f, " has other characters than letters, digits, - and _")
            }
            Shape::NoOffset => write!(f, " has no offset"),
            Shape::NotMoment => write!(f, " is not a moment from 1970 to 2199"),
            Shape::NotNumber => write!(f, " is not a number"),
            Shape::NotList => write!(f, ": not a list"),
            Shape::NotObjects => write!(f, ": not a list of objects"),
            Shape::NotTyped => write!(f, ": not a list of objects with a type"),
            Shape::TooMany => write!(f, ": more than 1,000"),
            Shape::TooManyNames => write!(f, ": more than 10,000 names"),
            Shape::NoStart => write!(f, ": start is missing"),
            Shape::Start => write!(f, ": start is not a text of at most 64 bytes"),
            Shape::Duration => write!(f, ": duration is not a text of at most 64 bytes"),
            Shape::RandomizeStart => {
                write!(f, ": randomizeStart is not a text of at most 64 bytes")
            }
            Shape::NotName(number) => write!(f, ": {number} is not a text of 1 to 128 bytes"),
            Shape::NoValues => write!(f, " has no list of values"),
        }
    }
}

impl fmt::Display for Flaw {
    fn fmt<W: fmt::Write>(&self, f: &mut fmt::Formatter<W>) -> fmt::Result {
        match self {
            Flaw::NotWhole => write!(f, " is not a whole number"),
            Flaw::Beyond => write!(f, " is beyond 64 bits"),
            Flaw::OutOfRange => write!(f, " is out of range"),
            Flaw::Twice => write!(f, " stands twice"),
            Flaw::Several => write!(f, ": more than one"),
            Flaw::Count(count) => write!(f, " has {count} values"),
            Flaw::Shape(shape) => write!(f, "{shape}"),
        }
    }
}
