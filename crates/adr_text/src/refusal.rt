ghost use Rattle.std.specs.Prelude.{◌≡◌, IfErr};
ghost use Rattle.adr_text.specs.Faults.{refusal_of};
ghost use Rattle.adr_text.specs.declared.refusal.Refusal.TheVariants.{OutOfMemory};

use crate::fault::Fault;
use std::alloc::{AllocError, AllocFailed};
use std::error::Error;
use std::fmt;

/// Why a call gave no value.
#[derive(Clone, Copy, Debug, PartialEq, Eq)]
pub enum Refusal {
    OutOfMemory,
    Store,
    OutboxFull,
    Exhausted,
    TrailFull,
    NotFound,
    Conflict,
    Forbidden,
    BadShare,
    LimitReached,
    ResourceNotOfEvent,
    NoScan,
    LeaseLost,
    BadShape,
    NotWhole,
    /// It holds the turn.
    Stale(u64),
    BadFile,
}

/// As its detail.
impl fmt::Display for Refusal {
    fn fmt<W: fmt::Write>(&self, f: &mut fmt::Formatter<W>) -> fmt::Result {
        write!(f, "{}", self.detail())
    }
}

impl Error for Refusal {}

impl From<AllocError> for Refusal {
    ghost from_gives = { λ _ e. e ≡ OutOfMemory };

    fn from(_e: AllocError) -> Refusal {
        Refusal::OutOfMemory
    }
}

impl<T: Drop> From<AllocFailed<T>> for Refusal {
    ghost from_gives = { λ _ e. e ≡ OutOfMemory };

    fn from(_e: AllocFailed<T>) -> Refusal {
        Refusal::OutOfMemory
    }
}

impl From<Fault> for Refusal {
    ghost from_gives = { λ fault e. e ≡ refusal_of fault };

    fn from(fault: Fault) -> Refusal {
        fault.refusal()
    }
}

// What is said of a refusal.
#[derive(Clone, Copy)]
struct Said {
    number: u8,
    title: &'static str,
    detail: &'static str,
    status: u16,
}

// One line of the table.
fn says(number: u8, title: &'static str, detail: &'static str, status: u16) -> Said
    ensures number { result.number ≡ number }
    ensures title { result.title.now ≡ title.now }
    ensures detail { result.detail.now ≡ detail.now }
    ensures status { result.status ≡ status }
{
    Said {
        number,
        title,
        detail,
        status,
    }
}

impl Refusal {
    ghost use Rattle.adr_text.specs.Refusals.{number_of, title_of, detail_of, status_of, unless};

    // What is said of each: the table of refusals.
    fn said(self) -> Said
        ensures number { result.number ≡ number_of self }
        ensures title { result.title.now ≡ title_of self }
        ensures detail { result.detail.now ≡ detail_of self }
        ensures status { result.status ≡ status_of self }
    {
        match self {
            Refusal::OutOfMemory => says(1, "OutOfMemory", "out of memory", 500),
            Refusal::Store => says(2, "Store", "store refused", 500),
            Refusal::OutboxFull => says(3, "OutboxFull", "outbox is full", 500),
            Refusal::Exhausted => says(4, "Exhausted", "no numbers left", 500),
            Refusal::TrailFull => says(5, "TrailFull", "trail is full", 500),
            Refusal::NotFound => says(6, "NotFound", "no such object", 404),
            Refusal::Conflict => says(7, "Conflict", "name is taken", 409),
            Refusal::Forbidden => says(8, "Forbidden", "not allowed for this token", 403),
            Refusal::BadShare => says(9, "BadShare", "share above 1000000", 400),
            Refusal::LimitReached => says(10, "LimitReached", "too many objects", 409),
            Refusal::ResourceNotOfEvent => says(
                11,
                "ResourceNotOfEvent",
                "report does not fit its event",
                400,
            ),
            Refusal::NoScan => says(12, "NoScan", "no scan is open", 409),
            Refusal::LeaseLost => says(13, "LeaseLost", "lease is lost", 500),
            Refusal::BadShape => says(14, "BadShape", "malformed object", 400),
            Refusal::NotWhole => says(15, "NotWhole", "not a whole number in range", 400),
            Refusal::Stale(_) => says(16, "Stale", "pass is ahead", 500),
            Refusal::BadFile => says(17, "BadFile", "not a file of this node", 500),
        }
    }

    /// Its number, 1 to 17, which never changes.
    pub fn number(self) -> u8
        ensures { result ≡ number_of self }
    {
        self.said().number
    }

    /// Its name: a problem's `title` (OpenADR 3.0, RFC 9457).
    pub fn title(self) -> &'static str
        ensures { result.now ≡ title_of self }
    {
        self.said().title
    }

    /// What went wrong in a few words: a problem's `detail` (OpenADR 3.0, RFC 9457).
    pub fn detail(self) -> &'static str
        ensures { result.now ≡ detail_of self }
    {
        self.said().detail
    }

    /// The HTTP status of a reply that says so.
    pub fn status(self) -> u16
        ensures { result ≡ status_of self }
    {
        self.said().status
    }

    /// Nothing where it holds, else this refusal.
    pub fn unless(self, holds: bool) -> Result<(), Refusal>
        ensures gives { result ≡ unless self holds }
        ensures refused { IfErr result (λ refusal. refusal ≡ self) }
    {
        if holds {
            return Ok(());
        }
        Err(self)
    }
}
