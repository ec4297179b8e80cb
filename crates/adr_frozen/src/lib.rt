//! Events frozen in the tables, and what is kept for them, on a lent transaction.
#![tactic(auto)]

mod freezing;
mod pairs;

pub use freezing::freeze;
pub use pairs::pairs_kept;
