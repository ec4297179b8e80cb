//! Streams on which nobody waits long.
ghost use Rattle.std.specs.Prelude.{◌≡◌, ◌≤◌, IfOk};
ghost use Rattle.std.specs.Duration.{as_nanos};

use std::io;
use std::io::{ErrorKind, Read, Write};
use std::net::TcpStream;
use std::time::{Clock, Duration, Instant};

/// How long each call may wait, and how long all of them together, from the first one on.
#[derive(Clone, Copy)]
pub struct Term {
    each: Duration,
    whole: Duration,
    until: Option<Instant>,
}

impl Term {
    /// Nothing has been called yet.
    pub fn new(each: Duration, whole: Duration) -> Term {
        Term {
            each,
            whole,
            until: None,
        }
    }

    /// When it is over. It begins here, if it has not begun.
    fn until(&mut self, now: Instant) -> io::Result<Instant>
        ensures { self.new.each ≡ self.old.each }
    {
        if let Some(until) = self.until {
            return Ok(until);
        }
        let until = now
            .checked_add(self.whole)
            .ok_or(io::Error::from(ErrorKind::InvalidInput))?;
        self.until = Some(until);
        Ok(until)
    }

    /// How long the next call may wait.
    pub fn wait<T: Clock>(&mut self, time: &T) -> io::Result<Duration>
        ensures { IfOk result (λ wait. as_nanos wait ≤ as_nanos self.old.each) }
    {
        let now = Instant::now(time)?;
        let until = self.until(now)?;
        match until.checked_duration_since(now) {
            Some(left) if left > Duration::ZERO => Ok(left.min(self.each)),
            _ => Err(io::Error::from(ErrorKind::TimedOut)),
        }
    }
}

/// A stream whose reads and writes fail once they have waited too long.
#[derive(Drop)]
pub struct Paced<'a, T: Clock> {
    pub time: &'a T,
    pub stream: &'a TcpStream,
    pub term: Term,
}

impl<T: Clock> Read for Paced<'_, T> {
    fn read(&mut self, buf: &mut [u8]) -> io::Result<usize> {
        let wait = self.term.wait(self.time)?;
        self.stream.set_read_timeout(Some(wait))?;
        let mut stream = self.stream;
        stream.read(buf)
    }
}

impl<T: Clock> Write for Paced<'_, T> {
    fn write(&mut self, buf: &[u8]) -> io::Result<usize> {
        let wait = self.term.wait(self.time)?;
        self.stream.set_write_timeout(Some(wait))?;
        let mut stream = self.stream;
        stream.write(buf)
    }

    fn flush(&mut self) -> io::Result<()> {
        Ok(())
    }
}
