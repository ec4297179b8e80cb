//! The mirror and the polled keys in the tables, one typed call per statement, on a lent transaction.
#![tactic(auto)]

mod mirror;
mod polled;

pub use mirror::{put_mark, read_kind, read_known, read_mark};
pub use polled::{clear_polled, put_polled};
