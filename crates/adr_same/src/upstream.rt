//! What the utility shows: its objects, by their keys, and versions of them.
use crate::sameness::Same;
use adr_objects::{Body, EventBody, Found, Interval, Period};
use adr_state::MirrorKey;

impl Same for Period {
    fn is_same(&self, other: &Period) -> bool {
        self.start.is_same(&other.start)
            && self.duration.is_same(&other.duration)
            && self.randomize_start.is_same(&other.randomize_start)
    }
}

impl Same for Interval {
    fn is_same(&self, other: &Interval) -> bool {
        self.id.is_same(&other.id)
            && self.period.is_same(&other.period)
            && self.setpoint.is_same(&other.setpoint)
    }
}

impl Same for EventBody {
    fn is_same(&self, other: &EventBody) -> bool {
        self.program.is_same(&other.program)
            && self.name.is_same(&other.name)
            && self.priority.is_same(&other.priority)
            && self.period.is_same(&other.period)
            && self.resource_names.is_same(&other.resource_names)
            && self.intervals.is_same(&other.intervals)
    }
}

impl Same for Body {
    fn is_same(&self, other: &Body) -> bool {
        match (self, other) {
            (Body::Program(name), Body::Program(another)) => name.is_same(another),
            (Body::Event(event), Body::Event(another)) => event.is_same(another),
            (Body::Opaque(reason), Body::Opaque(another)) => reason.is_same(another),
            _ => false,
        }
    }
}

impl Same for Found {
    fn is_same(&self, other: &Found) -> bool {
        self.kind.is_same(&other.kind)
            && self.id.is_same(&other.id)
            && self.moment.is_same(&other.moment)
            && self.body.is_same(&other.body)
    }
}

impl Same for MirrorKey {
    fn is_same(&self, other: &MirrorKey) -> bool {
        self.kind.is_same(&other.kind) && self.id.is_same(&other.id)
    }
}
