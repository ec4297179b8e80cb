//! Laws over whole runs of events that are frozen.
#![tactic(auto)]

pub mod laws;
