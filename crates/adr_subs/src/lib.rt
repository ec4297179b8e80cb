//! Subscriptions in the tables, on a lent transaction: posted, replaced and removed.
#![tactic(auto)]

mod found;
mod posting;

pub use found::in_sight;
pub use posting::{delete, post, put};
