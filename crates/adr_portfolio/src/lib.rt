//! Vens, their resources and shares, in the tables, on a lent transaction.
#![tactic(auto)]

mod found;
mod names;
mod participant;
mod resource;
mod share;
mod ven;

pub use participant::participants;
pub use resource::{resource_add, resource_put, resource_remove};
pub use share::share_set;
pub use ven::{ven_add, ven_put, ven_remove};
