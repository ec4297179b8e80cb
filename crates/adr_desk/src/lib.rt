//! The desk over SQL: the machine's state in tables, one transaction a call.
#![tactic(auto)]

mod answered;
mod ask;
mod asked;
mod create;
mod decided;
mod deliver;
mod desk;
mod ended;
mod evidence;
mod frame;
mod image;
mod inspect;
mod kept;
pub mod laws;
mod listing;
pub mod ready;
mod report_listing;
mod reports;
pub mod restart;
mod scans;
pub mod sent;
mod site_listing;
mod sites;
mod step;
mod subs;
mod told;
mod totals;

pub use desk::{MemoryDesk, SqlDesk};
pub use listing::page;
pub use ready::Start;
