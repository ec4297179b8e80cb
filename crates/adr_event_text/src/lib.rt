//! The text of a shown event, made of the text that is kept of it: its bytes as they are, with the id and the stamps
//! between them, which are found by a walk over its brackets and strings.
#![tactic(auto)]

mod kept_event;
pub mod laws;
mod pieces;
mod spliced;
mod walk;

pub use kept_event::KeptEvent;
