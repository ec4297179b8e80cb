//! The log: what a node tells on standard error, a line for each thing that happened.
//!
//! What is told comes from outside in part. So each line is made of printable ASCII alone, is cut where it grows long, and
//! is written at once, by a thread of its own: whatever a peer sends, it stays within the line that tells of it, and
//! nobody who tells something waits until it is written.
#![tactic(auto)]

mod console;
mod shown;
mod stopwatch;

pub use console::{Console, Writer};
pub use shown::{MOST_SHOWN, Shown};
pub use stopwatch::Stopwatch;
