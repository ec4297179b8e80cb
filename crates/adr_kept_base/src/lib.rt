//! Tables that keep exactly what is shown of a base: laws of what they are while a command is committed.
#![tactic(auto)]

pub mod laws;
