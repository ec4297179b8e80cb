ghost use Rattle.std.specs.Prelude.{◌≡◌, ◌≤◌, ◌+◌, ◌*◌, min, pos, IfOk, string_bytes};
ghost use Rattle.adr_text.specs.Moments.{moment_at, moment_of, last_nanos, moment_text};

use crate::refusal::Refusal;
use arrayvec::ArrayString;
use jiff::Timestamp;
use jiff_fmt::temporal::DateTimePrinter;
use std::alloc::{AllocError, Global};
use std::marker::Model;

// 2199-12-31T23:59:59.999999999Z
const LAST_NANOS: u64 = 7_258_118_399_999_999_999;

const NANOS_PER_SECOND: u64 = 1_000_000_000;

/// An instant from 1970-01-01T00:00:00Z to 2199-12-31T23:59:59.999999999Z, in whole nanoseconds
/// since the first of them.
#[derive(Clone, Copy, PartialEq, Eq, PartialOrd, Ord)]
pub struct Moment {
    count: u64,
}

impl Model for Moment {
    ghost use Rattle.std.specs.Prelude.{ℕ, ◌≤◌};
    ghost use Rattle.adr_text.specs.Moments.{last_nanos};

    ghost Value = { ℕ };

    ghost view = { λ a. a.count };

    ghost invariant = { λ a. a.count ≤ last_nanos };

    ghost inverse = { λ n. record { count = n } };
}

// The instant of a count with a sign, as the calendar has it.
fn in_range(nanos: i128) -> Result<Moment, Refusal>
    ensures { result ≡ moment_at nanos }
{
    if nanos < 0 || nanos > LAST_NANOS as i128 {
        return Err(Refusal::BadShape);
    }
    Ok(Moment {
        count: nanos as u64,
    })
}

impl Moment {
    /// The instant that a text of at most 64 bytes says (RFC 3339), or `BadShape`.
    #[tactic(auto, unfolding(crate::specs::Moments::moment_of))]
    pub fn read(text: &str) -> Result<Moment, Refusal>
        ensures { result ≡ moment_of text.now }
    {
        if text.len() > 64 {
            return Err(Refusal::BadShape);
        }
        match text.parse::<Timestamp>() {
            Ok(timestamp) => in_range(timestamp.as_nanosecond()),
            Err(_) => Err(Refusal::BadShape),
        }
    }

    /// So many nanoseconds after 1970-01-01T00:00:00Z, or `BadShape` where that is after the last
    /// instant.
    pub fn at(nanos: u64) -> Result<Moment, Refusal>
        ensures { result ≡ moment_at (pos nanos) }
    {
        if nanos > LAST_NANOS {
            return Err(Refusal::BadShape);
        }
        Ok(Moment { count: nanos })
    }

    /// Nanoseconds since 1970-01-01T00:00:00Z.
    pub fn nanos(self) -> u64
        ensures value { result ≡ self }
        ensures small { self ≤ last_nanos }
    {
        self.count
    }

    /// So many seconds later, or the last instant.
    pub fn plus_seconds(self, seconds: u32) -> Moment
        ensures { result ≡ min (self + seconds * 1_000_000_000) last_nanos }
    {
        let count = self.count + seconds as u64 * NANOS_PER_SECOND;
        Moment {
            count: count.min(LAST_NANOS),
        }
    }

    /// Its text, `YYYY-MM-DDTHH:MM:SSZ` (RFC 3339), with nine places of a second that isn't whole.
    pub fn text(self, alloc: Global) -> Result<String, AllocError>
        ensures { IfOk result (λ s. string_bytes s ≡ moment_text self) }
    {
        String::from_str(alloc, printed(self.count).as_str())
    }
}

// The text of an instant.
fn printed(count: u64) -> ArrayString<33>
    requires { count ≤ last_nanos }
    ensures { result.bytes ≡ moment_text count }
{
    let precision = if count % 1_000_000_000 == 0 { 0 } else { 9 };
    let printer = DateTimePrinter::new().precision(Some(precision));
    printer.timestamp_text(jiff_core::Timestamp {
        nanosecond: count as i128,
    })
}
