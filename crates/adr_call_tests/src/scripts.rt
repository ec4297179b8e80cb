//! Scripts over sources and sinks that fail, and in pieces.
ghost use Rattle.std.specs.Prelude.{◌≡◌, ◌<◌};

use crate::machine::desk;
use adr_script::{ScriptFault, run_script};
use adr_text::{KthFails, Refusal, Sink, Writer};
use std::alloc::{AllocError, Global};
use std::io;
use std::marker::Brand;
use std::sync::ledger::{Blank, Ledger};
use std::test::Fail;

// Two vens, three resources with equal shares, an event of 100, and two listings.
const SCRIPT: &str = concat!(
    "2024-07-01T10:00:00Z operator POST /vens {\"venName\":\"alpha\"}\n",
    "2024-07-01T10:00:00Z operator POST /vens {\"venName\":\"beta\"}\n",
    "2024-07-01T10:00:00Z operator POST /vens/v1/resources {\"resourceName\":\"a1\"}\n",
    "2024-07-01T10:00:00Z operator POST /vens/v1/resources {\"resourceName\":\"a2\"}\n",
    "2024-07-01T10:00:00Z operator POST /vens/v2/resources {\"resourceName\":\"b1\"}\n",
    "2024-07-01T10:00:00Z operator PUT /shares/p1/r3 {\"share\":1}\n",
    "2024-07-01T10:00:00Z operator PUT /shares/p1/r4 {\"share\":1}\n",
    "2024-07-01T10:00:00Z operator PUT /shares/p1/r5 {\"share\":1}\n",
    "2024-07-01T10:00:00Z node page events [{\"id\":\"e1\",\"modificationDateTime\":\"2024-07-01T09:00:00Z\",\"programID\":\"p1\",\"intervals\":[{\"id\":0,\"payloads\":[{\"type\":\"DISPATCH_SETPOINT\",\"values\":[100]}]}]}]\n",
    "2024-07-01T10:00:00Z ven:v1 GET /events?limit=1\n",
    "2024-07-01T10:00:00Z operator GET /events?skip=2\n",
);

// What it prints.
const PRINTED: &str = concat!(
    "201 {\"createdDateTime\":\"2024-07-01T10:00:00Z\",\"id\":\"v1\",\"modificationDateTime\":\"2024-07-01T10:00:00Z\",\"objectType\":\"VEN\",\"venName\":\"alpha\"}\n",
    "201 {\"createdDateTime\":\"2024-07-01T10:00:00Z\",\"id\":\"v2\",\"modificationDateTime\":\"2024-07-01T10:00:00Z\",\"objectType\":\"VEN\",\"venName\":\"beta\"}\n",
    "201 {\"createdDateTime\":\"2024-07-01T10:00:00Z\",\"id\":\"r3\",\"modificationDateTime\":\"2024-07-01T10:00:00Z\",\"objectType\":\"RESOURCE\",\"resourceName\":\"a1\",\"venID\":\"v1\"}\n",
    "201 {\"createdDateTime\":\"2024-07-01T10:00:00Z\",\"id\":\"r4\",\"modificationDateTime\":\"2024-07-01T10:00:00Z\",\"objectType\":\"RESOURCE\",\"resourceName\":\"a2\",\"venID\":\"v1\"}\n",
    "201 {\"createdDateTime\":\"2024-07-01T10:00:00Z\",\"id\":\"r5\",\"modificationDateTime\":\"2024-07-01T10:00:00Z\",\"objectType\":\"RESOURCE\",\"resourceName\":\"b1\",\"venID\":\"v2\"}\n",
    "200 {\"programID\":\"p1\",\"resourceID\":\"r3\",\"share\":1}\n",
    "200 {\"programID\":\"p1\",\"resourceID\":\"r4\",\"share\":1}\n",
    "200 {\"programID\":\"p1\",\"resourceID\":\"r5\",\"share\":1}\n",
    "changes 3 skipped 0\n",
    "200 [{\"createdDateTime\":\"2024-07-01T10:00:00Z\",\"id\":\"r3-e1\",\"intervals\":[{\"id\":0,\"payloads\":[{\"type\":\"DISPATCH_SETPOINT\",\"values\":[34]}]}],\"modificationDateTime\":\"2024-07-01T10:00:00Z\",\"objectType\":\"EVENT\",\"programID\":\"p1\",\"targets\":[{\"type\":\"VEN_NAME\",\"values\":[\"alpha\"]},{\"type\":\"RESOURCE_NAME\",\"values\":[\"a1\"]}]}]\n",
    "200 [{\"createdDateTime\":\"2024-07-01T10:00:00Z\",\"id\":\"r5-e1\",\"intervals\":[{\"id\":0,\"payloads\":[{\"type\":\"DISPATCH_SETPOINT\",\"values\":[33]}]}],\"modificationDateTime\":\"2024-07-01T10:00:00Z\",\"objectType\":\"EVENT\",\"programID\":\"p1\",\"targets\":[{\"type\":\"VEN_NAME\",\"values\":[\"beta\"]},{\"type\":\"RESOURCE_NAME\",\"values\":[\"b1\"]}]}]\n",
);

// Runs the bytes from an empty state, in pieces of at most `most`, where the read after `until`
// others fails.
fn run_into<K: Ledger, S: Sink>(
    alloc: Global,
    script: Vec<u8>,
    most: usize,
    until: Option<u64>,
    sink: &mut S,
    reads: Blank,
) -> Result<Result<u64, ScriptFault>, Refusal>
    requires most { 0 < most }
    requires read_name { reads.name ≡ K.name }
    requires read_parts { reads.parts ≡ K.parts }
    requires read_two { 1 < reads.parts }
{
    let mut desk = desk(alloc)?;
    let mut source = KthFails::<K>::new(script, Vec::new(alloc), most, until, reads);
    Ok(run_script(alloc, &mut desk, &mut source, sink))
}

// The same, written behind `out`.
fn run_to_memory<L: Ledger>(
    alloc: Global,
    script: Vec<u8>,
    most: usize,
    until: Option<u64>,
    out: &mut Vec<u8>,
    writes: Blank,
) -> Result<Result<u64, ScriptFault>, Refusal>
    requires most { 0 < most }
    requires write_name { writes.name ≡ L.name }
    requires write_parts { writes.parts ≡ L.parts }
    requires write_two { 1 < writes.parts }
{
    let mut sink = Writer::<&mut Vec<u8>, L>::new(out, writes);
    run_into::<Brand, _>(alloc, script, most, until, &mut sink, Blank::new(2))
}

fn reads(
    alloc: Global,
    script: &[u8],
    most: usize,
    until: Option<u64>,
    out: &mut Vec<u8>,
) -> Result<Result<u64, ScriptFault>, Refusal>
    requires most { 0 < most }
{
    let script = script.to_vec(alloc)?;
    run_to_memory::<Brand>(alloc, script, most, until, out, Blank::new(2))
}

// The same in whole pieces, written at most `most` bytes a time, where the write after `until` others
// fails.
fn run_to_failing<L: Ledger>(
    alloc: Global,
    script: Vec<u8>,
    most: usize,
    until: Option<u64>,
    writes: Blank,
) -> Result<Result<u64, ScriptFault>, Refusal>
    requires most { 0 < most }
    requires write_name { writes.name ≡ L.name }
    requires write_parts { writes.parts ≡ L.parts }
    requires write_two { 1 < writes.parts }
{
    let mut sink = KthFails::<L>::new(Vec::new(alloc), Vec::new(alloc), most, until, writes);
    run_into::<Brand, _>(alloc, script, 4096, None, &mut sink, Blank::new(2))
}

fn writes(
    alloc: Global,
    most: usize,
    until: Option<u64>,
) -> Result<Result<u64, ScriptFault>, Refusal>
    requires most { 0 < most }
{
    let script = SCRIPT.as_bytes().to_vec(alloc)?;
    run_to_failing::<Brand>(alloc, script, most, until, Blank::new(2))
}

// A writer of which the call after `until` others fails, and those behind it go well.
#[derive(Drop)]
struct FailsAfter<'v> {
    out: &'v mut Vec<u8>,
    until: Option<u64>,
}

impl io::Write for FailsAfter<'_> {
    fn write(&mut self, bytes: &[u8]) -> io::Result<usize> {
        match self.until {
            Some(0) => {
                self.until = None;
                return Err(io::ErrorKind::Other.into());
            }
            Some(n) => self.until = Some(n - 1),
            None => {}
        }
        self.out.extend_from_slice(bytes)?;
        Ok(bytes.len())
    }

    fn flush(&mut self) -> io::Result<()> {
        Ok(())
    }
}

fn run_to_failing_writer<L: Ledger>(
    alloc: Global,
    script: Vec<u8>,
    until: u64,
    out: &mut Vec<u8>,
    writes: Blank,
) -> Result<Result<u64, ScriptFault>, Refusal>
    requires write_name { writes.name ≡ L.name }
    requires write_parts { writes.parts ≡ L.parts }
    requires write_two { 1 < writes.parts }
{
    let mut sink = Writer::<FailsAfter<'_>, L>::new(
        FailsAfter {
            out,
            until: Some(until),
        },
        writes,
    );
    run_into::<Brand, _>(alloc, script, 4096, None, &mut sink, Blank::new(2))
}

fn writes_until(
    alloc: Global,
    until: u64,
    out: &mut Vec<u8>,
) -> Result<Result<u64, ScriptFault>, Refusal> {
    let script = SCRIPT.as_bytes().to_vec(alloc)?;
    run_to_failing_writer::<Brand>(alloc, script, until, out, Blank::new(2))
}

// Whether the script ends with a write fault where the write after `until` others fails, and the lines
// before are written, no more and no less.
fn ends_where_a_write_fails(alloc: Global, until: u64) -> Result<bool, Refusal> {
    let mut out = Vec::new(alloc);
    let ended = writes_until(alloc, until, &mut out)?;
    Ok(ended == Err(ScriptFault::Write) && out.as_slice() == first_lines(until as usize))
}

// Whether the script, read in pieces of at most `most`, prints all that it has to.
fn prints_all(alloc: Global, most: usize) -> Result<bool, Refusal>
    requires most { 0 < most }
{
    let mut out = Vec::new(alloc);
    let ended = reads(alloc, SCRIPT.as_bytes(), most, None, &mut out)?;
    Ok(ended == Ok(11) && out.as_slice() == PRINTED.as_bytes())
}

#[test]
fn in_any_pieces(rt: HostRuntime) -> Result<(), Fail> {
    for most in 1..40 {
        assert!(rt; prints_all(rt.alloc(), most)?, "{most}");
    }
    Ok(())
}

// How many lines end in the bytes.
fn lines_in(bytes: &[u8]) -> usize {
    bytes.iter().filter(|b| **b == b'\n').count()
}

// The first lines of what the script prints.
fn first_lines(count: usize) -> &'static [u8] {
    let mut first: &'static [u8] = &[];
    for end in 0..=PRINTED.len() {
        let front = PRINTED.as_bytes().get(..end).unwrap_or_default();
        if lines_in(front) <= count && front.ends_with(b"\n") {
            first = front;
        }
    }
    first
}

// Whether the script ends so where the read of 64 bytes after `until` others fails, and prints what
// answers the lines before, no more and no less.
fn ends_where_a_read_fails(
    alloc: Global,
    until: u64,
    wanted: Result<u64, ScriptFault>,
) -> Result<bool, Refusal>
    requires { until < 100 }
{
    let mut out = Vec::new(alloc);
    let ended = reads(alloc, SCRIPT.as_bytes(), 64, Some(until), &mut out)?;
    let read = SCRIPT.as_bytes().iter().take(until as usize * 64);
    let lines = read.filter(|b| **b == b'\n').count();
    Ok(ended == wanted && out.as_slice() == first_lines(lines))
}

#[test]
fn each_read_fails(rt: HostRuntime) -> Result<(), Fail> {
    // 821 bytes in pieces of 64 are 13 reads, and one more finds the end.
    for k in 0..14 {
        assert!(rt;
            ends_where_a_read_fails(rt.alloc(), k, Err(ScriptFault::Read))?,
            "{k}"
        );
    }
    assert!(rt; ends_where_a_read_fails(rt.alloc(), 14, Ok(11))?);
    Ok(())
}

#[test]
fn each_write_fails(rt: HostRuntime) -> Result<(), Fail> {
    for k in 0..11 {
        assert!(rt; ends_where_a_write_fails(rt.alloc(), k)?, "{k}");
    }
    assert!(rt; writes(rt.alloc(), 4096, Some(11))? == Ok(11));
    assert!(rt; writes(rt.alloc(), 1, Some(100))? == Err(ScriptFault::Write));
    assert!(rt; writes(rt.alloc(), 1, None)? == Ok(11));
    Ok(())
}

// A script that has so many of a byte in it.
fn long(
    alloc: Global,
    head: &str,
    byte: u8,
    count: usize,
    tail: &str,
) -> Result<Vec<u8>, AllocError> {
    let mut script = head.as_bytes().to_vec(alloc)?;
    script.resize(script.len().saturating_add(count), byte)?;
    script.extend_from_slice(tail.as_bytes())?;
    Ok(script)
}

// Whether a script ends so, and prints so many lines that are bad.
fn ends(
    alloc: Global,
    script: &[u8],
    wanted: Result<u64, ScriptFault>,
    bad: usize,
) -> Result<bool, Refusal> {
    let mut out = Vec::new(alloc);
    let ended = reads(alloc, script, 4096, None, &mut out)?;
    Ok(ended == wanted && out.as_slice() == "bad line\n".repeat(alloc, bad)?.as_bytes())
}

// The last line may lack its end; empty lines are passed over; a line has at most a mebibyte, and a
// script at most a million lines, empty ones too.
const LONG: [(&str, u8, usize, &str, Result<u64, ScriptFault>, usize); 7] = [
    ("x\n\ny", b'y', 0, "", Ok(2), 2),
    ("", b'x', 0, "", Ok(0), 0),
    ("\n\n\n", b'x', 0, "", Ok(0), 0),
    ("", b'x', 1_048_576, "\ny", Ok(2), 2),
    ("x\n", b'x', 1_048_577, "", Err(ScriptFault::LineTooLong), 1),
    ("x\n", b'\n', 999_999, "", Ok(1), 1),
    (
        "x\n",
        b'\n',
        1_000_000,
        "",
        Err(ScriptFault::ScriptTooLong),
        1,
    ),
];

#[test]
fn long_scripts(rt: HostRuntime) -> Result<(), Fail> {
    for (head, byte, count, tail, ended, bad) in LONG {
        let script = long(rt.alloc(), head, byte, count, tail)?;
        assert!(rt; ends(rt.alloc(), &script, ended, bad)?, "{count}");
    }
    Ok(())
}
