//! Statements on a lent transaction, and what they make of the tables of a database.
#![tactic(auto)]

mod create;
mod statement;

pub use create::create_tables;
pub use statement::{rows_of, run};
