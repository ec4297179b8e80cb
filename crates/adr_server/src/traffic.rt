//! What goes over a stream, counted for the log.
use adr_work::Failure;
use std::io;
use std::io::{Read, Write};

/// How many bytes came or went, and how that ended. No contract says anything of it.
#[derive(Clone, Copy)]
pub struct Traffic {
    pub bytes: u64,
    /// What the last call failed by, if it did.
    pub fault: Option<Failure>,
    /// Whether the other side has ended.
    pub is_ended: bool,
}

impl Traffic {
    /// Nothing yet.
    pub fn none() -> Traffic {
        Traffic {
            bytes: 0,
            fault: None,
            is_ended: false,
        }
    }

    /// Whether the last call has waited too long.
    pub fn is_late(&self) -> bool {
        match &self.fault {
            Some(failure) => failure.is_late(),
            None => false,
        }
    }

    // A call gave this.
    fn note(&mut self, came: &io::Result<usize>) {
        match came {
            Ok(0) => self.is_ended = true,
            Ok(bytes) => self.bytes = self.bytes.saturating_add(*bytes as u64),
            Err(error) => self.fault = Some(Failure::of(error)),
        }
    }
}

/// A stream of which the traffic is counted.
#[derive(Drop)]
pub struct Metered<'a, S> {
    pub stream: S,
    pub traffic: &'a mut Traffic,
}

impl<S: Read> Read for Metered<'_, S> {
    fn read(&mut self, buf: &mut [u8]) -> io::Result<usize> {
        let came = self.stream.read(buf);
        self.traffic.note(&came);
        came
    }
}

impl<S: Write> Write for Metered<'_, S> {
    fn write(&mut self, buf: &[u8]) -> io::Result<usize> {
        let went = self.stream.write(buf);
        self.traffic.note(&went);
        went
    }

    fn flush(&mut self) -> io::Result<()> {
        self.stream.flush()
    }
}
