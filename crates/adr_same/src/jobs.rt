//! What a sender is told to send, and what came of all that was to be sent.
use crate::sameness::Same;
use adr_delivery::Job;
use adr_objects::OutboxCounts;

impl Same for Job {
    fn is_same(&self, other: &Job) -> bool {
        self.entry.is_same(&other.entry)
            && self.lease.is_same(&other.lease)
            && self.destination.is_same(&other.destination)
            && self.method.is_same(&other.method)
            && self.target.is_same(&other.target)
            && self.token.is_same(&other.token)
            && self.body.is_same(&other.body)
    }
}

impl Same for OutboxCounts {
    fn is_same(&self, other: &OutboxCounts) -> bool {
        self.made.is_same(&other.made)
            && self.sent.is_same(&other.sent)
            && self.given_up.is_same(&other.given_up)
            && self.dropped.is_same(&other.dropped)
            && self.pending.is_same(&other.pending)
    }
}
