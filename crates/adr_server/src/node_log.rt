//! What the log is told of the node as a whole. No contract says anything of it.
use crate::request_log::Who;
use adr_config::Config;
use adr_log::Stopwatch;
use adr_work::Failure;
use log::{Log, error, info, warn};
use std::alloc::Global;
use std::io;
use std::net::TcpListener;
use std::time::Clock;

fn tell_limits<R: Log>(rt: &R, config: &Config) {
    let limits = &config.settings.limits;
    info!(
        rt; target: "node",
        keys = limits.keys.get(), vens = limits.vens.get(), subs = limits.subs.get(),
        resources = limits.resources.get(), shares = limits.shares.get(), reports = limits.reports.get(),
        frozen = limits.frozen.get(), pending = limits.pending.get(), serial = limits.serial.get();
        "limits"
    );
}

// Whom the tokens are for. No token is told.
fn tell_roles<R: Log>(rt: &R, config: &Config) {
    for grant in config.roles.grants() {
        let role = Who(Some(&grant.role));
        info!(rt; target: "node", role:%; "token");
    }
}

/// Tells where the node listens, and what it is set to.
pub fn tell_start<R: Log>(rt: &R, alloc: Global, config: &Config, listener: &TcpListener) {
    let (workers, poll) = (config.workers.get(), config.poll.get());
    // The port is the system's choice where the configuration says 0.
    let at = listener.local_addr().unwrap_or(config.listen);
    info!(rt; target: "node", at:%, workers, poll; "listening");
    if let Ok(upstream) = config.upstream.endpoint(alloc) {
        info!(rt; target: "node", at = upstream.as_str(); "upstream");
    }
    tell_limits(rt, config);
    tell_roles(rt, config);
}

/// Tells that it can't listen there, and why.
pub fn tell_bind_fault<R: Log>(rt: &R, config: &Config, error: &io::Error) {
    let at = config.listen;
    error!(rt; target: "node", at:%; "bind fault: {}", Failure::of(error));
}

/// Tells that it stopped, since as many connections were served as it was to serve.
pub fn tell_stop<R: Log>(rt: &R) {
    info!(rt; target: "node", "stopped: stopAfter connections were served");
}

/// How many seconds lie between two lines on connections that can't be accepted, at least.
const QUIET: u64 = 60;

/// Tells of connections that can't be accepted: of the first at once, and of others once a minute, with their number.
#[derive(Drop)]
pub struct AcceptLog {
    last: Option<Stopwatch>,
    faults: u64,
}

impl AcceptLog {
    /// There was none yet.
    pub fn new() -> AcceptLog {
        AcceptLog {
            last: None,
            faults: 0,
        }
    }

    /// One can't be accepted.
    pub fn note<R: Log + Clock>(&mut self, rt: &R, error: &io::Error) {
        self.faults = self.faults.saturating_add(1);
        let is_quiet = match self.last {
            Some(last) => last.millis(rt) / 1_000 < QUIET,
            None => false,
        };
        if is_quiet {
            return;
        }
        warn!(rt; target: "node", faults = self.faults; "accept: {}", Failure::of(error));
        self.faults = 0;
        self.last = Some(Stopwatch::start(rt));
    }
}
