//! Laws of what is read, shown, listed and kept.
#![tactic(auto)]

pub mod laws;
