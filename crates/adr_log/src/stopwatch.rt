//! How long something takes, for the log.
use std::time::{Clock, Duration, Instant};

// How many whole milliseconds it is, or as many as a number has room for.
fn millis_in(time: Duration) -> u64 {
    time.as_millis().min(u64::MAX as u128) as u64
}

/// When something began, where the clock could be read.
#[derive(Clone, Copy)]
pub struct Stopwatch(Option<Instant>);

impl Stopwatch {
    /// It begins.
    pub fn start<T: Clock>(time: &T) -> Stopwatch {
        Stopwatch(Instant::now(time).ok())
    }

    /// How many milliseconds it took so far; 0 where the clock can't be read.
    pub fn millis<T: Clock>(&self, time: &T) -> u64 {
        match (self.0, Instant::now(time)) {
            (Some(begun), Ok(now)) => millis_in(now.saturating_duration_since(begun)),
            _ => 0,
        }
    }
}
