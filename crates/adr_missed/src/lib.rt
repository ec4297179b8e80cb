//! The live keys that a scan missed, read row by row while a connection is borrowed.
#![tactic(auto)]

pub mod laws;
mod missed;
mod taken;
mod unseen;

pub use missed::{probes, scan_shut};
pub use unseen::{lend_unseen, unseen_keys};
