//! What leases and the commit of a command keep of the outbox: laws over whole runs.
#![tactic(auto)]

pub mod laws;
