//! What the log is told of messages. No contract says anything of it.
use crate::account::Account;
use crate::send_fault::SendFault;
use adr_delivery::{Failures, Job};
use adr_link::{Outcome, is_for_utility};
use adr_log::Stopwatch;
use log::{Log, debug, info, warn};
use std::time::Clock;

/// How often the delivery of an entry fails until it is given up.
const MOST_FAILURES: u64 = 8;

fn kind_of(job: &Job) -> &'static str {
    if is_for_utility(job) {
        "report"
    } else {
        "notification"
    }
}

// The host and the port in an address, without a user or a path, in which there may be a secret.
fn host_in(address: &str) -> &str {
    let behind = match address.split_once("://") {
        Some((_, behind)) => behind,
        None => address,
    };
    let authority = match behind.split_once('/') {
        Some((authority, _)) => authority,
        None => behind,
    };
    match authority.rsplit_once('@') {
        Some((_, host)) => host,
        None => authority,
    }
}

fn host_of(job: &Job) -> &str {
    if is_for_utility(job) {
        return "utility";
    }
    host_in(job.target.as_str())
}

// After how many seconds a job that failed is tried again: at the latest, since a lease that was lost is no failure.
fn again(job: &Job) -> u64 {
    let before = job.lease.saturating_sub(1).min(7) as u32;
    match Failures::new(before) {
        Some(failures) => failures.wait() as u64,
        None => 60,
    }
}

/// Tells what came of a job that was sent, or why it was not.
pub(crate) fn tell_message<R: Log + Clock>(
    rt: &R,
    job: &Job,
    account: Account,
    sent: &Result<Outcome, SendFault>,
    begun: Stopwatch,
) {
    let (entry, attempt) = (job.entry.get(), job.lease);
    let (kind, host) = (kind_of(job), host_of(job));
    let ms = begun.millis(rt);
    let again = again(job);
    match sent {
        Ok(Outcome::Sent(_)) => {
            debug!(rt; target: "message", entry, kind, host, attempt, ms; "sent: {account}")
        }
        Ok(_) if attempt < MOST_FAILURES => {
            info!(rt; target: "message", entry, kind, host, attempt, ms, again; "failed: {account}")
        }
        Ok(_) => {
            warn!(rt; target: "message", entry, kind, host, attempt, ms; "failed, and is given up: {account}")
        }
        Err(fault) if attempt < MOST_FAILURES => {
            warn!(rt; target: "message", entry, kind, host, attempt, again; "not sent: {fault}")
        }
        Err(fault) => {
            warn!(rt; target: "message", entry, kind, host, attempt; "not sent, and is given up: {fault}")
        }
    }
}
