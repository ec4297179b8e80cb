//! The configuration of a node that serves, read from JSON.
#![tactic(auto)]

mod callbacks;
mod config;
mod deletion;
mod fault;
mod grants;
mod level;
mod limits;
mod members;
mod oddity;
mod place;
mod read;
mod texts;
mod wrong;

pub use config::Config;
pub use deletion::MassDeletion;
pub use fault::ConfigFault;
pub use level::log_of;
pub use oddity::{Oddity, oddities};
pub use wrong::Wrong;
