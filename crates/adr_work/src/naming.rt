//! What objects are called in the log.
use adr_objects::Kind;

/// What a kind of object is called in the log.
pub fn kind_name(kind: Kind) -> &'static str {
    match kind {
        Kind::Program => "program",
        Kind::Event => "event",
    }
}
