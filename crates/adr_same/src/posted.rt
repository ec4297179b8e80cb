//! What sites and operators post.
use crate::sameness::Same;
use adr_objects::{ReportIn, ResourceIn, ShareIn, VenIn};

impl Same for VenIn {
    fn is_same(&self, other: &VenIn) -> bool {
        self.name.is_same(&other.name)
    }
}

impl Same for ResourceIn {
    fn is_same(&self, other: &ResourceIn) -> bool {
        self.name.is_same(&other.name)
    }
}

impl Same for ShareIn {
    fn is_same(&self, other: &ShareIn) -> bool {
        self.share.is_same(&other.share)
    }
}

impl Same for ReportIn {
    fn is_same(&self, other: &ReportIn) -> bool {
        self.program.is_same(&other.program)
            && self.event.is_same(&other.event)
            && self.client.is_same(&other.client)
            && self.name.is_same(&other.name)
            && self.resource_name.is_same(&other.resource_name)
            && self.intervals.is_same(&other.intervals)
    }
}
