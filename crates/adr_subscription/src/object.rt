//! Subscriptions as the node shows them.
use crate::subscription::SubIn;
use adr_objects::{Number, Stamps};

/// A subscription with its number and its stamps (OpenADR 3.0, SUBSCRIPTION).
#[derive(Clone)]
pub struct SubObject {
    pub number: Number,
    pub sub: SubIn,
    pub stamps: Stamps,
}

impl Drop for SubObject {
    fn drop(self) {
        let SubObject {
            number: _,
            sub: _,
            stamps: _,
        } = self;
    }
}
