//! What is kept of shown events and of roll-ups, the stamps of one event, and the live events of a program, in the tables,
//! one typed call per statement, on a lent transaction.
#![tactic(auto)]

mod programs;
mod rollup;
mod shown;
mod stamps;

pub use programs::read_live_events;
pub use rollup::{put_rollup, read_rollup, remove_rollup};
pub use shown::{put_shown, read_shown_at, read_shown_of, remove_shown};
pub use stamps::{read_event_stamps, read_stamps_between};
