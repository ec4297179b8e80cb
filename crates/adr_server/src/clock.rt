//! The clock of the system.
ghost use Rattle.std.specs.Prelude.{◌≡◌, min};
ghost use Rattle.std.specs.Duration.{as_nanos};
ghost use Rattle.adr_text.specs.Moments.{last_nanos};

use adr_lock::Clock;
use adr_text::Moment;
use std::sync::Wait;
use std::time;
use std::time::{Duration, SystemTime};

/// The last nanosecond of 2199, from 1970 on.
const LAST: u128 = 7_258_118_399_999_999_999;

/// The clock of the system.
#[derive(Clone, Copy, Drop)]
pub struct HostClock<T: time::Clock + Drop>(pub T);

// The moment so long after the first one, or the nearest that there is.
fn moment_after(since: Duration) -> Moment
    ensures { result ≡ min (as_nanos since) last_nanos }
{
    let nanos = since.as_nanos().min(LAST);
    match Moment::at(nanos as u64) {
        Ok(moment) => moment,
        Err(_) => first(),
    }
}

// 1970-01-01T00:00:00Z
fn first() -> Moment
    ensures { result ≡ 0 }
{
    let Ok(moment) = Moment::at(0) else {
        unreachable!()
    };
    moment
}

impl<T: time::Clock + Drop> Clock for HostClock<T> {
    ghost use Rattle.std.specs.Prelude.{⊤};

    // What the system's clock says no contract knows.
    ghost tells = { λ clock moment. ⊤ };

    fn now<R: Wait>(&self, _rt: &R) -> Moment {
        let Ok(now) = SystemTime::now(&self.0) else {
            return first();
        };
        match now.duration_since(SystemTime::UNIX_EPOCH) {
            Ok(since) => moment_after(since),
            Err(_) => first(),
        }
    }
}
