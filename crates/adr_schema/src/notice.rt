//! What a notification of the utility tells.
use adr_objects::{Found, Kind, UpstreamId};

/// What a notification tells (OpenADR 3.0, notification).
#[derive(Drop)]
pub enum NoticeIn {
    /// A version of a program or an event.
    Found(Found),
    /// A program or an event that was deleted.
    Gone { kind: Kind, id: UpstreamId },
    /// Something about an object of a kind that is not mirrored.
    Ignored,
}
