//! What an edit of the portfolio or evidence touches, asked of the tables before it, on a lent transaction: which upstream
//! events and roll-ups, and which programs and reports, with what stood there.
#![tactic(auto)]

mod by_evidence;
mod by_report;
mod by_resource;
mod by_share;
mod by_ven;
mod events;
mod frozen;
pub mod laws;
mod object_keys;
mod ordered;
mod programs;
mod reports;
mod stood;
mod touched;

pub use by_evidence::{stood_program, stood_programs, touched_by_evidence};
pub use by_report::{stood_report, touched_by_report};
pub use by_resource::{touched_as_resource_goes, touched_by_resource};
pub use by_share::touched_by_share;
pub use by_ven::{touched_as_ven_goes, touched_by_ven};
pub use events::{events_by_share, events_of_program, events_of_resource, events_of_ven};
pub use programs::programs_of_resource;
pub use reports::reports_of_ven;
pub use touched::Touched;
