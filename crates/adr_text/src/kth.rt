ghost use Rattle.std.specs.Prelude.{◌≡◌, ◌↔◌, ◌+◌, ◌<◌, ◌≤◌, ◌-◌, [], ◌++◌, length, min, take, Some, IsTrue, IfOk, IsErr, vec_len, is_err, drop};
ghost use Rattle.adr_text.specs.Calls.{counted_down, no_calls, with_call};
ghost use Rattle.std.specs.Io.{ReadsAtMost, WritesAtMost};
ghost use Rattle.std.specs.Io.KnownBytes.{ReadConsumes, WriteAppends};

use crate::counts::Counts;
use crate::source::{IoFault, Sink, Source};
use std::sync::ledger::{Blank, Ledger};

/// Bytes in memory, to read and to write, of which each call moves as many as it can, at most
/// `most`. The call after `until` others fails, and those behind it go well.
#[derive(Drop)]
pub struct KthFails<L: Ledger> {
    content: Vec<u8>,
    out: Vec<u8>,
    at: usize,
    most: usize,
    until: Option<u64>,
    counts: Counts<L>,
    ghost within: { at ≤ vec_len content },
    ghost moves: { 0 < most },
}

impl<L: Ledger> KthFails<L> {
    /// The bytes `content`, to be read, and those of `out`, behind which others are written.
    pub fn new(
        content: Vec<u8>,
        out: Vec<u8>,
        most: usize,
        until: Option<u64>,
        blank: Blank,
    ) -> KthFails<L>
        requires most { 0 < most }
        requires name { blank.name ≡ L.name }
        requires parts { blank.parts ≡ L.parts }
        requires two { 1 < blank.parts }
        ensures content { result.content.items ≡ content.items }
        ensures out { result.out.items ≡ out.items }
        ensures at { result.at ≡ 0 }
        ensures most { result.most ≡ most }
        ensures until { result.until ≡ until }
        ensures counts { result.counts ≡ no_calls }
    {
        KthFails {
            content,
            out,
            at: 0,
            most,
            until,
            counts: Counts::new(blank),
        }
    }
}

impl<L: Ledger> Source for KthFails<L> {
    ghost left = { λ s. Some (drop s.at s.content.items) };

    ghost calls = { λ s. s.counts };

    fn pull(&mut self, into: &mut [u8]) -> Result<usize, IoFault>
        ensures bound { ReadsAtMost result into.new }
        ensures bytes { ReadConsumes (Some (drop self.old.at self.old.content.items)) (Some (drop self.new.at self.new.content.items)) result into.new }
        ensures calls { self.new.counts ≡ with_call (is_err result) self.old.counts }
        ensures kth { IsErr result ↔ (self.old.until ≡ Some 0) }
        ensures later { self.new.until ≡ counted_down self.old.until }
        ensures count { IfOk result (λ n. n ≡ min (min (length self.old.content.items - self.old.at) self.old.most) (length into.new)) }
        ensures most { self.new.most ≡ self.old.most }
    {
        if strikes(&mut self.until) {
            self.counts.failed();
            return Err(IoFault);
        }
        self.counts.went();
        let n = give(&self.content[self.at..], self.most, into);
        self.at += n;
        Ok(n)
    }
}

impl<L: Ledger> Sink for KthFails<L> {
    ghost written = { λ s. Some s.out.items };

    ghost calls = { λ s. s.counts };

    // It fails too where memory runs out.
    fn push(&mut self, bytes: &[u8]) -> Result<usize, IoFault>
        ensures bound { WritesAtMost result bytes.now }
        ensures some { IfOk result (λ n. 0 < length bytes.now → 0 < n) }
        ensures bytes { WriteAppends (Some self.old.out.items) (Some self.new.out.items) result bytes.now }
        ensures calls { self.new.counts ≡ with_call (is_err result) self.old.counts }
        ensures kth { self.old.until ≡ Some 0 → IsErr result }
        ensures later { self.new.until ≡ counted_down self.old.until }
        ensures count { IfOk result (λ n. n ≡ min (length bytes.now) self.old.most) }
        ensures most { self.new.most ≡ self.old.most }
    {
        if strikes(&mut self.until) {
            self.counts.failed();
            return Err(IoFault);
        }
        let n = bytes.len().min(self.most);
        if self.out.extend_from_slice(&bytes[..n]).is_err() {
            self.counts.failed();
            return Err(IoFault);
        }
        self.counts.went();
        Ok(n)
    }
}

// Whether the call fails. It counts down to that call.
fn strikes(until: &mut Option<u64>) -> bool
    ensures now { IsTrue result ↔ (until.old ≡ Some 0) }
    ensures later { until.new ≡ counted_down until.old }
{
    match *until {
        Some(0) => {
            *until = None;
            true
        }
        Some(n) => {
            *until = Some(n - 1);
            false
        }
        None => false,
    }
}

// Copies as many bytes as there are, at most `most`.
fn give(from: &[u8], most: usize, into: &mut [u8]) -> usize
    requires { 0 < most }
    ensures count { result ≡ min (min (length from.now) most) (length into.new) }
    ensures few { result ≤ length from.now }
    ensures room { result ≤ length into.new }
    ensures bytes { from.now ≡ take result into.new ++ drop result from.now }
    ensures none { result ≡ 0 → 0 < length into.new → from.now ≡ [] }
{
    let n = from.len().min(most).min(into.len());
    into[..n].copy_from_slice(&from[..n]);
    n
}
