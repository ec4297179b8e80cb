ghost use Rattle.std.specs.Prelude.{◌≡◌, ◌<◌};
ghost use Rattle.adr_text.specs.Calls.{no_calls};

use crate::counts::Counts;
use crate::source::{IoFault, Sink, Source};
use std::io::{Read, Write};
use std::sync::ledger::{Blank, Ledger};

/// A source over a reader.
#[derive(Drop)]
pub struct Reader<R: Read + Drop, L: Ledger> {
    inner: R,
    counts: Counts<L>,
}

impl<R: Read + Drop, L: Ledger> Reader<R, L> {
    pub fn new(inner: R, blank: Blank) -> Reader<R, L>
        requires name { blank.name ≡ L.name }
        requires parts { blank.parts ≡ L.parts }
        requires two { 1 < blank.parts }
        ensures inner { result.inner ≡ inner }
        ensures counts { result.counts ≡ no_calls }
    {
        Reader {
            inner,
            counts: Counts::new(blank),
        }
    }
}

impl<R: Read + Drop, L: Ledger> Source for Reader<R, L> {
    ghost left = { λ r. R.remaining r.inner };

    ghost calls = { λ r. r.counts };

    fn pull(&mut self, into: &mut [u8]) -> Result<usize, IoFault> {
        match self.inner.read(into) {
            Ok(n) => {
                self.counts.went();
                Ok(n)
            }
            Err(_) => {
                self.counts.failed();
                Err(IoFault)
            }
        }
    }
}

/// A sink over a writer.
#[derive(Drop)]
pub struct Writer<W: Write + Drop, L: Ledger> {
    inner: W,
    counts: Counts<L>,
}

impl<W: Write + Drop, L: Ledger> Writer<W, L> {
    pub fn new(inner: W, blank: Blank) -> Writer<W, L>
        requires name { blank.name ≡ L.name }
        requires parts { blank.parts ≡ L.parts }
        requires two { 1 < blank.parts }
        ensures inner { result.inner ≡ inner }
        ensures counts { result.counts ≡ no_calls }
    {
        Writer {
            inner,
            counts: Counts::new(blank),
        }
    }
}

impl<W: Write + Drop, L: Ledger> Sink for Writer<W, L> {
    ghost written = { λ r. W.contents r.inner };

    ghost calls = { λ r. r.counts };

    fn push(&mut self, bytes: &[u8]) -> Result<usize, IoFault> {
        match self.inner.write(bytes) {
            Ok(n) if n > 0 || bytes.is_empty() => {
                self.counts.went();
                Ok(n)
            }
            _ => {
                self.counts.failed();
                Err(IoFault)
            }
        }
    }
}
