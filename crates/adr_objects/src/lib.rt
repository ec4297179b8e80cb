//! The types of objects, and the canonical text of a body, both ways.
#![tactic(auto)]

mod body;
mod counts;
mod interval;
mod kind;
pub mod laws;
mod name_set;
mod number;
mod read_body;
mod read_fields;
mod report;
mod setpoint;
mod shown;
mod site;
mod text;
mod write_body;
mod write_fields;

pub use body::{Body, EventBody, Found, Reason, UpstreamId};
pub use counts::OutboxCounts;
pub use interval::{HasId, Interval, IntervalList, Intervals, Period, has_id};
pub use kind::Kind;
pub use name_set::NameSet;
pub use number::Number;
pub use read_body::{read_canonical, read_text};
pub use report::{
    ReportBody, ReportHead, ReportName, ReportObject, Rollup, RollupInterval, RollupObject, Usage,
    UsageInterval, UsageIntervals,
};
pub use setpoint::{Priority, Setpoint};
pub use shown::{
    EventObject, FrozenObject, ProgramObject, ResourceObject, ShareObject, ShownEvent,
    ShownInterval, Stamps, VenObject,
};
pub use site::{ReportIn, ResourceIn, ResourceName, ShareIn, VenIn};
pub use text::{EventName, PeriodText, Text};
pub use write_body::canonical;
