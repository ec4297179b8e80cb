//! Subscriptions as the node keeps them.
use crate::subscription::SubIn;
use adr_objects::{Number, Stamps};

/// A subscription that is kept.
#[derive(Clone, Drop)]
pub struct Sub {
    /// The ven that it is of; without one it is the operator's.
    pub owner: Option<Number>,
    pub body: SubIn,
    pub stamps: Stamps,
}
