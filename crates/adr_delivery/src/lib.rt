//! The outbox: the entries that wait for the utility and for subscriptions, which of them leaves next, and what a lease, a
//! success and a failure make of them.
#![tactic(auto)]

mod addressee;
mod append;
mod delivery;
mod entry;
mod failures;
mod job;
mod lease;
mod next;
mod outbox;
mod settle;
mod tally;

pub use addressee::Addressee;
pub use append::check_room;
pub use delivery::Delivery;
pub use entry::Entry;
pub use failures::Failures;
pub use job::{Job, JobMethod, job_for};
pub use outbox::{EntryCounts, Outbox};
pub use tally::Tally;
