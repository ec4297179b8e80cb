//! What the programs that run tables have in common: a folder of files, bytes as a line of text writes them, and pieces in
//! which bytes come.
#![tactic(auto)]

mod escape;
mod files;
mod pieces;

pub use escape::push_text;
pub use files::{Table, folder, run_each, status_of};
pub use pieces::Pieces;
