//! Where in an object a fault is.
ghost use Rattle.std.specs.Prelude.{◌≡◌};
ghost use Rattle.adr_schema.specs.Places.{part_of};

use std::fmt;

/// A part of an object, of a target or of an interval.
#[derive(Clone, Copy)]
pub enum Part {
    Id,
    ModificationDateTime,
    ProgramName,
    ProgramId,
    EventName,
    Priority,
    IntervalPeriod,
    Targets,
    Type,
    Values,
    Intervals,
    Payloads,
    /// The one value of the payload of type `DISPATCH_SETPOINT`.
    Setpoint,
}

/// What the part is of. Targets and intervals are counted from 0, as they are listed.
#[derive(Clone, Copy)]
pub enum Within {
    Object,
    Target(usize),
    Interval(usize),
}

/// Where a fault is.
#[derive(Clone, Copy)]
pub struct Place {
    pub within: Within,
    pub part: Part,
}

impl Within {
    /// That part of it.
    pub(crate) fn at(self, part: Part) -> Place
        ensures { result ≡ part_of self part }
    {
        Place { within: self, part }
    }
}

impl fmt::Display for Within {
    fn fmt<W: fmt::Write>(&self, f: &mut fmt::Formatter<W>) -> fmt::Result {
        match self {
            Within::Object => Ok(()),
            Within::Target(number) => write!(f, "target {number}: "),
            Within::Interval(number) => write!(f, "interval {number}: "),
        }
    }
}

impl fmt::Display for Part {
    fn fmt<W: fmt::Write>(&self, f: &mut fmt::Formatter<W>) -> fmt::Result {
        f.write_str(match self {
            Part::Id => "id",
            Part::ModificationDateTime => "modificationDateTime",
            Part::ProgramName => "programName",
            Part::ProgramId => "programID",
            Part::EventName => "eventName",
            Part::Priority => "priority",
            Part::IntervalPeriod => "intervalPeriod",
            Part::Targets => "targets",
            Part::Type => "type",
            Part::Values => "values",
            Part::Intervals => "intervals",
            Part::Payloads => "payloads",
            Part::Setpoint => "setpoint",
        })
    }
}
