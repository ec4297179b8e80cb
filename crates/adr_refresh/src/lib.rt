//! What the rows of the view are made of, what an edit touches of them, and how tables that keep them are refreshed.
#![tactic(auto)]

pub mod laws;
