//! What one node writes and another reads: laws over both sides of HTTP, by which two nodes understand each other.
#![tactic(auto)]

pub mod laws;
