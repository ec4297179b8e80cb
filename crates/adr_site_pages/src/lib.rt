//! Pages of vens, of the resources of a ven and of subscriptions, of which no more is read than is told: all vens and all
//! subscriptions, whose rows are lent one after another, and those of a ven, by their numbers; and what is told of them.
#![tactic(auto)]

mod answers;
mod by_number;
mod every;
pub mod laws;
mod objects;
mod own;
mod wanted;

pub use answers::{own_subs, own_vens, resources};
pub use every::{subs_page, vens_page};
pub use objects::{Told, objects_of};
pub use own::{own_subs_page, own_vens_page, resources_page};
