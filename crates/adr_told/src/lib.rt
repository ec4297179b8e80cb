//! What is told of the changes that a refresh of the tables answers, and laws that it is what the machine tells of whole views.
#![tactic(auto)]

pub mod laws;
mod teller;

pub use teller::Teller;
