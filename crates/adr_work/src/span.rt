//! How long a job is away from its lease to its settlement.
use std::time::Duration;

/// How many jobs wait in the queue for a sender. While all senders are at work one waits, so that the next to be done finds
/// it there; a second one would wait for as many exchanges as went before it, and its lease could end meanwhile.
pub const ROOM: usize = 1;

/// How many seconds an exchange takes at most, from the connection to the last byte of the reply.
const EXCHANGE_SECONDS: u64 = 12;

/// How many seconds a lease lasts.
const LEASE_SECONDS: u64 = 30;

// A job that is leased waits until the first sender is done, which is one exchange at most for each that waits there, and
// then for its own. So it is settled under its lease, with six seconds left for the lock.
const _: () = prove!((ROOM as u64 + 1) * EXCHANGE_SECONDS < LEASE_SECONDS);

/// How long an exchange takes at most.
pub fn exchange() -> Duration {
    Duration::from_secs(EXCHANGE_SECONDS)
}
