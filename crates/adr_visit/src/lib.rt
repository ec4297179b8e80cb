//! What is shown visited item by item: what tables keep of an upstream event, of its roll-up, of a program or of a report is
//! refreshed, and the changes are told and let go before the next one.
#![tactic(auto)]

mod heard;
mod kept_up;
mod tells;
mod visit;
mod visits;

pub use tells::Tells;
pub use visit::Visit;
pub use visits::{visit_events, visit_objects, visit_rollups};
