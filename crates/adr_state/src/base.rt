//! What the node keeps, as plain maps.
use crate::keys::MirrorKey;
use crate::polled::Polled;
use crate::portfolio::Portfolio;
use crate::serial::Serial;
use adr_objects::Body;
use adr_text::{Moment, Table};

/// What is known of an upstream key of which there was evidence.
#[derive(Clone)]
pub enum Mark {
    /// A version, by its moment and what it says.
    Live(Moment, Body),
    /// Deleted, for ever.
    Dead,
}

impl Drop for Mark {
    fn drop(self) {
        match self {
            Mark::Live(_, _) => (),
            Mark::Dead => (),
        }
    }
}

/// What the view is computed from.
pub struct Base {
    /// The upstream keys of which there was evidence.
    pub mirror: Table<MirrorKey, Mark>,
    /// While a scan is open, the keys that were polled since it began.
    pub scan: Option<Polled>,
    pub portfolio: Portfolio,
    /// The last number that was drawn.
    pub serial: Serial,
}

impl Drop for Base {
    fn drop(self) {
        let Base {
            mirror: _,
            scan: _,
            portfolio: _,
            serial: _,
        } = self;
    }
}
