//! Clocks of the days.
ghost use Rattle.std.specs.Prelude.{⊤};

use adr_text::Moment;
use adr_work::Clock;
use std::alloc::Global;
use std::sync::atomic::{AtomicU64, Ordering};
use std::sync::{Arc, Wait};

/// So many seconds after a moment.
fn later(since: Moment, seconds: u64) -> Moment {
    since.plus_seconds(u32::try_from(seconds).unwrap_or(u32::MAX))
}

/// A clock that stands still.
#[derive(Clone, Copy, Drop)]
pub struct Still(pub Moment);

impl Clock for Still {
    ghost use Rattle.std.specs.Prelude.{◌≡◌};

    ghost tells = { λ clock moment. moment ≡ clock.0 };

    fn now<R: Wait>(&self, _rt: &R) -> Moment {
        self.0
    }
}

/// A clock that is a second later each time that it is read.
#[derive(Drop)]
pub struct Ticks {
    pub since: Moment,
    pub count: AtomicU64,
}

impl Clock for Ticks {
    ghost tells = { λ clock moment. ⊤ };

    fn now<R: Wait>(&self, _rt: &R) -> Moment {
        later(self.since, self.count.fetch_add(1, Ordering::SeqCst))
    }
}

/// Seconds that pass, by whoever says so.
#[derive(Drop)]
pub struct Seconds {
    passed: AtomicU64,
}

impl Seconds {
    pub fn new() -> Seconds {
        Seconds {
            passed: AtomicU64::new(0),
        }
    }

    /// So many more pass.
    pub fn pass(&self, seconds: u64) {
        self.passed.fetch_add(seconds, Ordering::SeqCst);
    }
}

/// A clock that moves with those seconds, and some of its own each time that it is read.
#[derive(Drop)]
pub struct Moving {
    pub since: Moment,
    pub seconds: Arc<Seconds, Global>,
    pub each: u64,
}

impl Clock for Moving {
    ghost tells = { λ clock moment. ⊤ };

    fn now<R: Wait>(&self, _rt: &R) -> Moment {
        let seconds = self.seconds.passed.fetch_add(self.each, Ordering::SeqCst);
        later(self.since, seconds)
    }
}
