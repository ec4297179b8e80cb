//! Reports, and their roll-up.
use crate::sameness::Same;
use adr_objects::{ReportBody, ReportHead, ReportObject, Rollup, RollupInterval, UsageInterval};

impl Same for UsageInterval {
    fn is_same(&self, other: &UsageInterval) -> bool {
        self.id.is_same(&other.id) && self.usage.is_same(&other.usage)
    }
}

impl Same for ReportHead {
    fn is_same(&self, other: &ReportHead) -> bool {
        self.program.is_same(&other.program)
            && self.event.is_same(&other.event)
            && self.resource.is_same(&other.resource)
            && self.client.is_same(&other.client)
            && self.name.is_same(&other.name)
            && self.resource_name.is_same(&other.resource_name)
    }
}

impl Same for ReportBody {
    fn is_same(&self, other: &ReportBody) -> bool {
        self.head.is_same(&other.head) && self.intervals.is_same(&other.intervals)
    }
}

impl Same for ReportObject {
    fn is_same(&self, other: &ReportObject) -> bool {
        self.number.is_same(&other.number)
            && self.body.is_same(&other.body)
            && self.stamps.is_same(&other.stamps)
    }
}

impl Same for RollupInterval {
    fn is_same(&self, other: &RollupInterval) -> bool {
        self.id.is_same(&other.id)
            && self.sum.is_same(&other.sum)
            && self.missing.is_same(&other.missing)
    }
}

impl Same for Rollup {
    fn is_same(&self, other: &Rollup) -> bool {
        self.program.is_same(&other.program) && self.intervals.is_same(&other.intervals)
    }
}
