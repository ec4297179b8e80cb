//! Texts, which are the same where their bytes are.
use crate::sameness::Same;
use adr_objects::{ResourceName, Text, UpstreamId};
use adr_subscription::{BearerToken, FreeText};
use adr_text::{Name, ObjectId};

impl Same for ObjectId {
    fn is_same(&self, other: &ObjectId) -> bool {
        self == other
    }
}

impl Same for UpstreamId {
    fn is_same(&self, other: &UpstreamId) -> bool {
        self.as_id().is_same(other.as_id())
    }
}

impl Same for Name {
    fn is_same(&self, other: &Name) -> bool {
        self == other
    }
}

impl Same for ResourceName {
    fn is_same(&self, other: &ResourceName) -> bool {
        self.as_name().is_same(other.as_name())
    }
}

impl<const MOST: usize> Same for Text<MOST> {
    fn is_same(&self, other: &Text<MOST>) -> bool {
        self == other
    }
}

impl Same for FreeText {
    fn is_same(&self, other: &FreeText) -> bool {
        self == other
    }
}

impl Same for BearerToken {
    fn is_same(&self, other: &BearerToken) -> bool {
        self == other
    }
}
