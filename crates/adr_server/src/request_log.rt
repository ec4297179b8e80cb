//! What the log is told of requests. No contract says anything of it.
use crate::traffic::Traffic;
use adr_http::{Asked, HttpRequest, ServeFault, Witness};
use adr_log::Shown;
use adr_machine::Role;
use adr_reply::Problem;
use adr_wire::ReadEnd;
use log::{Level, Log, debug, info, log_enabled, warn};
use std::fmt;
use std::fmt::{Display, Formatter, Write};
use std::time::{Clock, Instant};

/// Who asks, as far as the token tells.
#[derive(Clone, Copy)]
pub struct Who<'a>(pub Option<&'a Role>);

impl Display for Who<'_> {
    fn fmt<W: fmt::Write>(&self, f: &mut Formatter<W>) -> fmt::Result {
        match self.0 {
            None => f.write_str("none"),
            Some(Role::Operator) => f.write_str("operator"),
            Some(Role::Utility) => f.write_str("utility"),
            Some(Role::Ven(id)) => write!(f, "ven ven={}", id.as_str()),
        }
    }
}

/// Sees a request: who asks, by which method and path, and the status of the reply.
#[derive(Drop)]
pub struct RequestLog {
    /// Whether the log is told of requests at all: else nothing is noted.
    is_told: bool,
    /// Who asks, as far as the token tells.
    who: Shown,
    /// The method and the path. A query isn't shown.
    line: Shown,
    status: u16,
}

// The bytes as text, where each that is no character from a space to `~` is shown by its number.
fn show(line: &mut Shown, bytes: &[u8]) {
    for byte in bytes.iter().take(MOST_BYTES) {
        let _ = line.write_char(*byte as char);
    }
}

/// How many bytes of a method or a path are shown, so that what stands behind them has room.
const MOST_BYTES: usize = 100;

// The target without its query.
fn path_of(target: &[u8]) -> &[u8] {
    match target.iter().position(|byte| *byte == b'?') {
        Some(end) => &target[..end],
        None => target,
    }
}

// Who asks, as text.
fn shown(who: Who<'_>) -> Shown {
    let mut text = Shown::new();
    let _ = write!(text, "{who}");
    text
}

impl RequestLog {
    /// Nothing was read yet.
    pub fn new<R: Log>(rt: &R) -> RequestLog {
        RequestLog {
            is_told: log_enabled!(rt; target: "request", Level::Warn),
            who: shown(Who(None)),
            line: Shown::new(),
            status: 0,
        }
    }
}

impl Witness for RequestLog {
    fn reads(&mut self, reading: &Result<HttpRequest, ReadEnd>) {
        if !self.is_told {
            return;
        }
        match reading {
            Ok(request) => {
                show(&mut self.line, &request.method);
                show(&mut self.line, b" ");
                show(&mut self.line, path_of(&request.target));
            }
            Err(_) => show(&mut self.line, b"no request"),
        }
    }

    fn plans(&mut self, role: Option<&Role>, _plan: &Result<Asked, Problem>) {
        if self.is_told {
            self.who = shown(Who(role));
        }
    }

    fn replies(&mut self, status: u16) {
        self.status = status;
    }
}

/// Why a request was not served, in words.
#[derive(Clone, Copy)]
struct Why<'a>(ServeFault, &'a Traffic);

impl Display for Why<'_> {
    fn fmt<W: fmt::Write>(&self, f: &mut Formatter<W>) -> fmt::Result {
        let when = match self.0 {
            ServeFault::Read => "before the request was whole",
            ServeFault::Write => "before the reply was whole",
        };
        match self.1.fault {
            _ if self.1.is_late() => write!(f, "timed out {when}"),
            Some(failure) => write!(f, "cut {when}: {failure}"),
            None => write!(f, "cut {when}"),
        }
    }
}

/// Tells how a request was served that began then.
pub fn tell_request<R: Log + Clock>(
    rt: &R,
    seen: &RequestLog,
    served: Result<(), ServeFault>,
    read: &Traffic,
    written: &Traffic,
    ms: u64,
) {
    let (line, status, role) = (seen.line.as_str(), seen.status, seen.who.as_str());
    let (read_bytes, written_bytes) = (read.bytes, written.bytes);
    match served {
        Ok(()) if status == 500 => {
            warn!(rt; target: "request", role:%, status, read = read_bytes, written = written_bytes, ms; "{line}")
        }
        Ok(()) => {
            debug!(rt; target: "request", role:%, status, read = read_bytes, written = written_bytes, ms; "{line}")
        }
        Err(ServeFault::Read) => {
            info!(rt; target: "request", read = read_bytes, ms; "{}", Why(ServeFault::Read, read))
        }
        Err(ServeFault::Write) => {
            info!(rt; target: "request", role:%, status, read = read_bytes, written = written_bytes, ms; "{line} {}", Why(ServeFault::Write, written))
        }
    }
}
