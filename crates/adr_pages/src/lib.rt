//! What is kept of shown events, told as objects, each with its stamps.
#![tactic(auto)]

pub mod laws;
mod objects;
mod single;
mod stamps;

pub use objects::objects_of;
pub use single::event;
