//! A state that the tables hold together with what is shown of it, and laws of that, which a desk keeps.
#![tactic(auto)]

pub mod laws;
