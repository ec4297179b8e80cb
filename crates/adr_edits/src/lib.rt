//! What a command does with what is kept as plain maps: each call carries out one kind of decision on it.
#![tactic(auto)]

mod evidence;
mod frozen;
mod report;
mod resource;
mod scan;
mod share;
mod sub;
mod ven;

pub use evidence::{take_deletion, take_evidence};
pub use frozen::freeze;
pub use report::{report_delete, report_post, report_put};
pub use resource::{resource_add, resource_put, resource_remove};
pub use scan::{begin_scan, end_scan};
pub use share::share_set;
pub use sub::{sub_delete, sub_post, sub_put};
pub use ven::{ven_add, ven_put, ven_remove};
