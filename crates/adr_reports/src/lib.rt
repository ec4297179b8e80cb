//! Reports of sites in the tables, on a lent transaction: posted, replaced and removed.
#![tactic(auto)]

mod frozen_share;
mod on;
mod posting;
mod sight;

pub use on::resource_named;
pub use posting::{delete, post, put};
