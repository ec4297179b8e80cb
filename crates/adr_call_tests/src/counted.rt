//! Reads and writes that are counted, and those that fail.
ghost use Rattle.std.specs.Prelude.{◌≡◌, ◌<◌};

use adr_text::{IoFault, KthFails, Reader, Sink, Source, Writer};
use std::alloc::{AllocError, Global};
use std::io;
use std::io::Cursor;
use std::marker::Brand;
use std::sync::ledger::{Blank, Ledger};
use std::test::Fail;

// A reader whose second call fails.
#[derive(Drop)]
struct SecondFails {
    calls: u8,
}

impl io::Read for SecondFails {
    fn read(&mut self, into: &mut [u8]) -> io::Result<usize> {
        self.calls = self.calls.saturating_add(1);
        if self.calls == 2 {
            return Err(io::ErrorKind::Other.into());
        }
        match into.first_mut() {
            Some(place) => {
                *place = self.calls;
                Ok(1)
            }
            None => Ok(0),
        }
    }
}

// What three pulls give.
fn three_pulls<S: Source>(source: &mut S) -> [Result<usize, IoFault>; 3] {
    let mut into = [0u8; 4];
    let first = source.pull(&mut into);
    let second = source.pull(&mut into);
    [first, second, source.pull(&mut into)]
}

fn first_pull<L: Ledger>(blank: Blank) -> (Result<usize, IoFault>, [u8; 4])
    requires name { blank.name ≡ L.name }
    requires parts { blank.parts ≡ L.parts }
    requires two { 1 < blank.parts }
{
    let mut into = [0u8; 4];
    let mut source = Reader::<Cursor<&[u8]>, L>::new(Cursor::new(b"abcdef".as_slice()), blank);
    let pulled = source.pull(&mut into);
    (pulled, into)
}

fn pulls_of_cursor<L: Ledger>(blank: Blank) -> [Result<usize, IoFault>; 3]
    requires name { blank.name ≡ L.name }
    requires parts { blank.parts ≡ L.parts }
    requires two { 1 < blank.parts }
{
    three_pulls(&mut Reader::<Cursor<&[u8]>, L>::new(Cursor::new(b"abcdef".as_slice()), blank))
}

fn pulls_of_failing<L: Ledger>(blank: Blank) -> [Result<usize, IoFault>; 3]
    requires name { blank.name ≡ L.name }
    requires parts { blank.parts ≡ L.parts }
    requires two { 1 < blank.parts }
{
    three_pulls(&mut Reader::<SecondFails, L>::new(SecondFails { calls: 0 }, blank))
}

fn pulls_of_memory<L: Ledger>(
    alloc: Global,
    until: Option<u64>,
    blank: Blank,
) -> Result<[Result<usize, IoFault>; 3], AllocError>
    requires name { blank.name ≡ L.name }
    requires parts { blank.parts ≡ L.parts }
    requires two { 1 < blank.parts }
{
    let content = b"abcdef".to_vec(alloc)?;
    let mut memory = KthFails::<L>::new(content, Vec::new(alloc), 3, until, blank);
    Ok(three_pulls(&mut memory))
}

// What three pushes of three bytes give.
fn three_pushes<S: Sink>(sink: &mut S) -> [Result<usize, IoFault>; 3] {
    let first = sink.push(b"abc");
    let second = sink.push(b"def");
    [first, second, sink.push(b"ghi")]
}

fn pushes_to_room<L: Ledger>(room: &mut [u8], blank: Blank) -> [Result<usize, IoFault>; 3]
    requires name { blank.name ≡ L.name }
    requires parts { blank.parts ≡ L.parts }
    requires two { 1 < blank.parts }
{
    three_pushes(&mut Writer::<Cursor<&mut [u8]>, L>::new(Cursor::new(room), blank))
}

fn pushes_to_memory<L: Ledger>(
    alloc: Global,
    until: Option<u64>,
    blank: Blank,
) -> [Result<usize, IoFault>; 3]
    requires name { blank.name ≡ L.name }
    requires parts { blank.parts ≡ L.parts }
    requires two { 1 < blank.parts }
{
    let mut memory = KthFails::<L>::new(Vec::new(alloc), Vec::new(alloc), 2, until, blank);
    three_pushes(&mut memory)
}

// Each of these compares what it got behind a reference, and holds nothing else.
fn is_first_pull(pulled: &(Result<usize, IoFault>, [u8; 4])) -> bool {
    pulled.0 == Ok(4) && pulled.1 == *b"abcd"
}

#[test]
fn reads(rt: HostRuntime) {
    assert!(rt; is_first_pull(&first_pull::<Brand>(Blank::new(2))));
}

#[test]
fn reads_to_the_end(rt: HostRuntime) {
    assert!(rt; pulls_of_cursor::<Brand>(Blank::new(2)) == [Ok(4), Ok(2), Ok(0)]);
}

#[test]
fn reads_that_fail(rt: HostRuntime) {
    assert!(rt; pulls_of_failing::<Brand>(Blank::new(2)) == [Ok(1), Err(IoFault), Ok(1)]);
}

#[test]
fn writes(rt: HostRuntime) {
    let mut room = [0u8; 5];
    let pushed = pushes_to_room::<Brand>(&mut room, Blank::new(2));
    assert!(rt; pushed == [Ok(3), Ok(2), Err(IoFault)]);
    assert!(rt; room == [97, 98, 99, 100, 101]);
}

const PULLS: [(Option<u64>, [Result<usize, IoFault>; 3]); 4] = [
    (None, [Ok(3), Ok(3), Ok(0)]),
    (Some(0), [Err(IoFault), Ok(3), Ok(3)]),
    (Some(1), [Ok(3), Err(IoFault), Ok(3)]),
    (Some(3), [Ok(3), Ok(3), Ok(0)]),
];

fn pulls_so(
    alloc: Global,
    until: Option<u64>,
    wanted: &[Result<usize, IoFault>; 3],
) -> Result<bool, AllocError> {
    Ok(pulls_of_memory::<Brand>(alloc, until, Blank::new(2))? == *wanted)
}

#[test]
fn kth_read_fails(rt: HostRuntime) -> Result<(), Fail> {
    for (until, wanted) in &PULLS {
        assert!(rt; pulls_so(rt.alloc(), *until, wanted)?);
    }
    Ok(())
}

const PUSHES: [(Option<u64>, [Result<usize, IoFault>; 3]); 3] = [
    (None, [Ok(2), Ok(2), Ok(2)]),
    (Some(0), [Err(IoFault), Ok(2), Ok(2)]),
    (Some(2), [Ok(2), Ok(2), Err(IoFault)]),
];

fn pushes_so(alloc: Global, until: Option<u64>, wanted: &[Result<usize, IoFault>; 3]) -> bool {
    pushes_to_memory::<Brand>(alloc, until, Blank::new(2)) == *wanted
}

#[test]
fn kth_write_fails(rt: HostRuntime) {
    for (until, wanted) in &PUSHES {
        assert!(rt; pushes_so(rt.alloc(), *until, wanted));
    }
}
