//! Pages of the reports that are wanted, of which no more is read than is told: all, whose rows are lent one after another,
//! and those on the resources of a ven, by their numbers; and such reports told as objects, each with its intervals and its
//! stamps.
#![tactic(auto)]

mod by_key;
mod every;
pub mod laws;
mod objects;
mod own;
mod wanted;

pub use every::every_page;
pub use objects::objects_of;
pub use own::own_page;
