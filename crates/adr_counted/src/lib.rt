//! Vens, resources, shares, reports and subscriptions put and removed in the tables, and events frozen, where the numbers of
//! the node go along with how many there are: on a lent transaction.
#![tactic(auto)]

mod along;
mod counts;
mod frozen;
mod gone;
mod report;
mod resource;
mod share;
mod sub;
mod ven;

pub use frozen::freeze;
pub use report::{add_report, put_report, remove_report};
pub use resource::{add_resource, put_resource, remove_resource};
pub use share::{put_share, remove_share};
pub use sub::{add_sub, put_sub, remove_sub};
pub use ven::{add_ven, put_ven, remove_ven};
