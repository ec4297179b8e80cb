//! Objects as the node shows them.
use crate::sameness::Same;
use adr_event_text::KeptEvent;
use adr_objects::{ProgramObject, ResourceObject, ShareObject, Stamps, VenObject};

impl Same for Stamps {
    fn is_same(&self, other: &Stamps) -> bool {
        self.created.is_same(&other.created) && self.modified.is_same(&other.modified)
    }
}

impl Same for KeptEvent {
    fn is_same(&self, other: &KeptEvent) -> bool {
        self.resource.is_same(&other.resource)
            && self.event.is_same(&other.event)
            && self.program.is_same(&other.program)
            && self.ven_name.is_same(&other.ven_name)
            && self.resource_name.is_same(&other.resource_name)
            && self.stamps.is_same(&other.stamps)
            && self.body.is_same(&other.body)
    }
}

impl Same for ProgramObject {
    fn is_same(&self, other: &ProgramObject) -> bool {
        self.id.is_same(&other.id)
            && self.name.is_same(&other.name)
            && self.stamps.is_same(&other.stamps)
    }
}

impl Same for VenObject {
    fn is_same(&self, other: &VenObject) -> bool {
        self.number.is_same(&other.number)
            && self.name.is_same(&other.name)
            && self.stamps.is_same(&other.stamps)
    }
}

impl Same for ResourceObject {
    fn is_same(&self, other: &ResourceObject) -> bool {
        self.number.is_same(&other.number)
            && self.ven.is_same(&other.ven)
            && self.name.is_same(&other.name)
            && self.stamps.is_same(&other.stamps)
    }
}

impl Same for ShareObject {
    fn is_same(&self, other: &ShareObject) -> bool {
        self.program.is_same(&other.program)
            && self.resource.is_same(&other.resource)
            && self.share.is_same(&other.share)
    }
}
