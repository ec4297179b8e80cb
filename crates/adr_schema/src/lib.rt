//! The grammars of what is posted: what a page, an object or a notification reads as.
#![tactic(auto)]

mod defect;
mod element;
mod flaw;
pub mod laws;
mod notice;
mod passed_over;
mod place;
mod posted;
mod read_event;
mod read_found;
mod read_intervals;
mod read_member;
mod read_notices;
mod read_payloads;
mod read_reports;
mod read_site;
mod read_targets;
mod read_typed;
mod read_version;
mod shape;
mod stopped;

pub use adr_objects::{
    Body, EventBody, EventName, Found, HasId, Interval, IntervalList, Intervals, Kind, NameSet,
    Period, PeriodText, Priority, Reason, ReportIn, ReportName, ResourceIn, ResourceName, Setpoint,
    ShareIn, Text, UpstreamId, Usage, UsageInterval, UsageIntervals, VenIn, canonical,
    read_canonical,
};
pub use defect::Defect;
pub use element::Element;
pub use flaw::{Flaw, Shape};
pub use notice::NoticeIn;
pub use passed_over::{PassedOver, PassedTarget, TargetType, targets_passed_over};
pub use place::{Part, Place, Within};
pub use read_found::{read_one, read_page};
pub use read_notices::read_notice;
pub use read_reports::read_report;
pub use read_site::{read_anything, read_resource, read_share, read_ven};
pub use read_targets::{is_resource_target, names_of_target, names_resources};
pub use read_typed::{is_of_type, only_of_type, text_at, typed, value_of, values_of};
pub use read_version::{ShownId, read_element, reason_of, shown_id};
