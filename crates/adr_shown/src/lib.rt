//! The texts that tables keep of shown events and of roll-ups, written and read back.
#![tactic(auto)]

mod kept;
pub mod laws;
mod read_fields;
mod rolled_up;
mod shown;
mod tokens;

pub use rolled_up::{read_rolled_up, write_rolled_up};
pub use shown::{read_shown, write_shown};
