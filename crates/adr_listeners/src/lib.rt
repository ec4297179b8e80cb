//! The subscriptions by which changes are told, read as far as they may hear of them: those of the operator and of the
//! vens whose things have changed.
#![tactic(auto)]

mod hearers;
mod listeners;
mod read;

pub use hearers::Hearers;
pub use listeners::Listeners;
