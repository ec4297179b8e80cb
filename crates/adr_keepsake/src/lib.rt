//! What a database held at some moment, for contracts alone.
#![tactic(auto)]

mod keepsake;

pub use keepsake::Keepsake;
