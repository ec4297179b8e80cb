//! What is one of a few words.
use crate::sameness::Same;
use adr_delivery::JobMethod;
use adr_objects::{Kind, Reason};
use adr_subscription::{ObjectKind, OperationKind};

impl Same for bool {
    fn is_same(&self, other: &bool) -> bool {
        *self == *other
    }
}

impl Same for Kind {
    fn is_same(&self, other: &Kind) -> bool {
        self == other
    }
}

impl Same for Reason {
    fn is_same(&self, other: &Reason) -> bool {
        self == other
    }
}

impl Same for ObjectKind {
    fn is_same(&self, other: &ObjectKind) -> bool {
        self == other
    }
}

impl Same for OperationKind {
    fn is_same(&self, other: &OperationKind) -> bool {
        self == other
    }
}

impl Same for JobMethod {
    fn is_same(&self, other: &JobMethod) -> bool {
        self == other
    }
}
