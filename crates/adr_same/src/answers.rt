//! Answers, and the objects in them.
use crate::sameness::Same;
use adr_objects::{FrozenObject, Number};
use adr_queries::{Answer, Object};

impl Same for Object {
    fn is_same(&self, other: &Object) -> bool {
        match (self, other) {
            (Object::Program(program), Object::Program(another)) => program.is_same(another),
            (Object::Event(event), Object::Event(another)) => event.is_same(another),
            (Object::Report(report), Object::Report(another)) => report.is_same(another),
            (Object::Ven(ven), Object::Ven(another)) => ven.is_same(another),
            (Object::Resource(resource), Object::Resource(another)) => resource.is_same(another),
            (Object::Share(share), Object::Share(another)) => share.is_same(another),
            (Object::Sub(sub), Object::Sub(another)) => sub.is_same(another),
            _ => false,
        }
    }
}

impl Same for (Number, u32) {
    fn is_same(&self, other: &(Number, u32)) -> bool {
        self.0.is_same(&other.0) && self.1.is_same(&other.1)
    }
}

impl Same for FrozenObject {
    fn is_same(&self, other: &FrozenObject) -> bool {
        self.event.is_same(&other.event) && self.shares.is_same(&other.shares)
    }
}

impl Same for Answer {
    fn is_same(&self, other: &Answer) -> bool {
        match (self, other) {
            (Answer::Done, Answer::Done) => true,
            (Answer::Changes(count), Answer::Changes(another)) => count.is_same(another),
            (Answer::Probes(keys), Answer::Probes(others)) => keys.is_same(others),
            (Answer::Object(object), Answer::Object(another)) => object.is_same(another),
            (Answer::List(objects), Answer::List(others)) => objects.is_same(others),
            (Answer::Share(share), Answer::Share(another)) => share.is_same(another),
            (Answer::Frozen(frozen), Answer::Frozen(another)) => frozen.is_same(another),
            (Answer::Rollup(event, rollup), Answer::Rollup(other_event, another)) => {
                event.is_same(other_event) && rollup.is_same(another)
            }
            (Answer::Counts(counts), Answer::Counts(others)) => counts.is_same(others),
            (Answer::Job(job), Answer::Job(another)) => job.is_same(another),
            _ => false,
        }
    }
}
