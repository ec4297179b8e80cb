//! The keys of the maps, in the order of their fields.
use adr_objects::{Kind, Number};
use adr_text::ObjectId;

/// The key of an upstream object.
#[derive(Clone, PartialEq, Eq, PartialOrd, Ord)]
pub struct MirrorKey {
    pub kind: Kind,
    pub id: ObjectId,
}

impl Drop for MirrorKey {
    fn drop(self) {
        let MirrorKey { kind: _, id: _ } = self;
    }
}

/// The key of a share: a program, known or not, and a resource.
#[derive(Clone, PartialEq, Eq, PartialOrd, Ord, Drop)]
pub struct ShareKey {
    pub program: ObjectId,
    pub resource: Number,
}

/// The key of a share that is frozen: an event, by its upstream id, and a resource.
#[derive(Clone, PartialEq, Eq, PartialOrd, Ord, Drop)]
pub struct FrozenKey {
    pub event: ObjectId,
    pub resource: Number,
}

/// The key of what is shown.
#[derive(Clone, PartialEq, Eq, PartialOrd, Ord)]
pub enum ViewKey {
    /// A program, by its upstream id.
    Program(ObjectId),
    /// What a resource is shown of an upstream event.
    Event(ObjectId, Number),
    /// A report, by its number.
    Report(Number),
    /// The roll-up of an upstream event.
    Rollup(ObjectId),
}

impl Drop for ViewKey {
    fn drop(self) {
        match self {
            ViewKey::Program(_) => (),
            ViewKey::Event(_, _) => (),
            ViewKey::Report(_) => (),
            ViewKey::Rollup(_) => (),
        }
    }
}
