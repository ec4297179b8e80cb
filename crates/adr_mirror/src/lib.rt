//! The mirror of the utility's objects and its scans, in the tables, on a lent transaction.
#![tactic(auto)]

mod evidence;
mod known;
mod raise;
mod risen;
mod scan;

pub use evidence::{gone, put_evidence};
pub use scan::scan_begin;
