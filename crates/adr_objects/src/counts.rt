//! How many notifications there were.

/// What became of the notifications that were made, and how many are still to be sent.
#[derive(Clone, Copy, PartialEq, Eq)]
pub struct OutboxCounts {
    pub made: u64,
    pub sent: u64,
    /// Those that failed too often.
    pub given_up: u64,
    /// Those whose subscription went before they were sent.
    pub dropped: u64,
    pub pending: u64,
}
