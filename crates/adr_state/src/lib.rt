//! What the node keeps, as plain maps: the mirror of the utility's objects, vens, resources, shares, reports,
//! subscriptions and the outbox; and what is decided of it.
#![tactic(auto)]

mod base;
mod digits;
mod frozen;
mod image;
mod keys;
pub mod laws;
mod limits;
mod lists;
mod marks;
mod mirror;
mod names;
mod participants;
mod polled;
mod portfolio;
mod serial;
mod shown_id;
mod stamping;
mod state;

pub use base::{Base, Mark};
pub use digits::{MOST_NUMBER, number_in, number_within};
pub use frozen::{frozen_weight, is_frozen, pairs_kept};
pub use image::Image;
pub use keys::{FrozenKey, MirrorKey, ShareKey, ViewKey};
pub use limits::{Limit, Limits, Settings};
pub use lists::push_some;
pub use mirror::{join, key_of, mark_of, raise};
pub use names::{Named, check_free, check_new, is_taken, is_taken_by_another};
pub use participants::{Participant, is_for, participant_of, participants_of};
pub use polled::{Polled, poll, probes};
pub use portfolio::{Portfolio, Report, Resource, Resources, Ven, Weight};
pub use serial::Serial;
pub use shown_id::{id_in, id_parts, resource_named, resource_with_id};
pub use stamping::{fresh, modified_at};
pub use state::State;
