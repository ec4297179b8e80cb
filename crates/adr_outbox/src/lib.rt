//! The outbox in the tables, on a lent transaction: entries are appended, leased, settled as sent or failed, and
//! dropped with their subscription.
#![tactic(auto)]

mod appending;
mod dropping;
mod leasing;
mod settle;
mod totals;

pub use appending::append;
pub use dropping::drop_lost;
pub use leasing::lease;
pub use settle::{failed, sent};
pub use totals::counts;
