//! What a scan of the utility's objects is good for: the law of catch-up.
#![tactic(auto)]

pub mod laws;
