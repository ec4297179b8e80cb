//! What the log is told of objects that notifications bring. No contract says anything of it.
use adr_http::Asked;
use adr_machine::Command;
use adr_objects::{Body, Found, Reason};
use adr_work::kind_name;
use log::{Log, debug};

fn words_of(reason: Reason) -> &'static str {
    match reason {
        Reason::Fraction => "a setpoint is not a whole number",
        Reason::NotOne => "an interval has more than one setpoint, or not one value in it",
        Reason::Repeated => "two intervals have one id",
        Reason::OutOfRange => "a number is out of range",
        Reason::BadShape => "a member is missing or of another form",
    }
}

fn tell_version<R: Log>(rt: &R, found: &Found) {
    if let Body::Opaque(reason) = &found.body {
        let (kind, id) = (kind_name(found.kind), found.id.as_id().as_str());
        debug!(rt; target: "object", kind, id; "unread in a notification: {}", words_of(*reason));
    }
}

/// Tells of the objects that are kept unread of what is asked.
pub fn tell_asked<R: Log>(rt: &R, asked: &Asked) {
    if let Asked::Command(Command::Evidence { found, polled: _ }) = asked {
        for version in found.as_slice() {
            tell_version(rt, version);
        }
    }
}
