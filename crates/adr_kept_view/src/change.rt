//! The changes that a refresh answers, each with what telling it needs.
use adr_objects::{Number, Rollup, ShownEvent, Stamps};
use adr_view::Operation;

/// A change of what a resource is shown of an upstream event.
pub struct ShownChange {
    pub resource: Number,
    pub operation: Operation,
    /// What the resource is shown now; where that goes, what it was shown.
    pub shown: ShownEvent,
    /// The stamps of that.
    pub stamps: Stamps,
    /// The ven that owns the resource, also where the resource is gone.
    pub ven: Number,
}

impl Drop for ShownChange {
    fn drop(self) {
        let ShownChange {
            resource: _,
            operation: _,
            shown: _,
            stamps: _,
            ven: _,
        } = self;
    }
}

/// A change of the roll-up of an upstream event, which appears or differs: where it goes, nothing is told.
pub struct RollupChange {
    pub operation: Operation,
    pub rollup: Rollup,
}

impl Drop for RollupChange {
    fn drop(self) {
        let RollupChange {
            operation: _,
            rollup: _,
        } = self;
    }
}
