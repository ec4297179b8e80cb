//! Entries that come one group after another are appended while there is room for them. Where there is none, the rest is
//! counted and not written, so that in the end the refusal is that of all of them at once.
#![tactic(auto)]

mod room;

pub use room::Room;
