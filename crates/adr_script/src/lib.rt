//! The node as a script sees it: lines that are read, taken as steps on a desk, and answered by lines.
#![tactic(auto)]

mod bodies;
mod fault;
pub mod laws;
mod progress;
mod request;
mod script;
mod step;
mod turn;
mod words;

pub use fault::ScriptFault;
pub use script::{MOST_BYTES, MOST_LINES, MOST_READS, run_script};
pub use turn::answer_line;
