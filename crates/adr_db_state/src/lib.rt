//! The stamps of what is shown in the tables, on a lent transaction.
#![tactic(auto)]

mod stamp;

pub use stamp::{put_stamps, read_stamps_of, remove_stamps};
