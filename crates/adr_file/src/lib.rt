//! A desk over a file, for a node that runs.
#![tactic(auto)]

mod desk;
pub mod sent;

pub use desk::FileDesk;
