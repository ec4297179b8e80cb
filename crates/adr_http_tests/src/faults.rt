//! Reads and writes that fail.
ghost use Rattle.std.specs.Prelude.{◌≡◌, ◌<◌};

use crate::few::Few;
use crate::front::{CREATED, GET, NONE, POST, POST_LENGTH, desk, roles_of, ten};
use adr_http::{Routes, ServeFault, serve_one};
use adr_machine::{Answer, Desk, Page, PlainDesk, Query, Role};
use adr_text::{KthFails, Refusal, Writer};
use std::alloc::Global;
use std::marker::Brand;
use std::sync::ledger::{Blank, Ledger};
use std::test::Fail;

/// Which calls fail, and how many bytes each moves at most.
#[derive(Clone, Copy)]
struct Calls {
    most: usize,
    read: Option<u64>,
    write: Option<u64>,
}

fn serve_over<K: Ledger, L: Ledger>(
    alloc: Global,
    desk: &mut PlainDesk,
    request: &[u8],
    calls: Calls,
    out: &mut Vec<u8>,
    reads: Blank,
    writes: Blank,
) -> Result<Result<(), ServeFault>, Refusal>
    requires most { 0 < calls.most }
    requires read_name { reads.name ≡ K.name }
    requires read_parts { reads.parts ≡ K.parts }
    requires read_two { 1 < reads.parts }
    requires write_name { writes.name ≡ L.name }
    requires write_parts { writes.parts ≡ L.parts }
    requires write_two { 1 < writes.parts }
{
    let roles = roles_of(alloc, "t0", "u0")?;
    let routes = Routes::new(alloc)?;
    let now = ten()?;
    let request = request.to_vec(alloc)?;
    let mut source = KthFails::<K>::new(request, Vec::new(alloc), calls.most, calls.read, reads);
    let few = Few {
        out,
        most: calls.most,
        until: calls.write,
    };
    let mut sink = Writer::<Few<'_>, L>::new(few, writes);
    Ok(serve_one(alloc, desk, &roles, &routes, &mut source, &mut sink, now))
}

/// Serves a request on a desk, where such calls fail.
fn serve(
    alloc: Global,
    desk: &mut PlainDesk,
    request: &[u8],
    calls: Calls,
    out: &mut Vec<u8>,
) -> Result<Result<(), ServeFault>, Refusal>
    requires most { 0 < calls.most }
{
    serve_over::<Brand, Brand>(
        alloc,
        desk,
        request,
        calls,
        out,
        Blank::new(2),
        Blank::new(2),
    )
}

/// How many vens there are.
fn vens(desk: &mut PlainDesk) -> Result<usize, Refusal> {
    let query = Query::Vens {
        role: Role::Operator,
        page: Page { skip: 0, limit: 50 },
    };
    let answer = desk.ask(&query)?;
    match &answer {
        Answer::List(objects) => Ok(objects.len()),
        _ => Ok(99),
    }
}

/// Whether the request, byte by byte, ends as a read fault where the read after `read` others fails, with nothing written
/// and no step taken.
fn ends_where_a_read_fails(alloc: Global, request: &[u8], read: u64) -> Result<bool, Refusal> {
    let mut desk = desk(alloc)?;
    let mut out = Vec::new(alloc);
    let calls = Calls {
        most: 1,
        read: Some(read),
        write: None,
    };
    let served = serve(alloc, &mut desk, request, calls, &mut out)?;
    Ok(served == Err(ServeFault::Read) && out.is_empty() && vens(&mut desk)? == 0)
}

/// Whether the request, byte by byte, is replied so where the read behind its last byte fails: so none is made.
fn asks_for_no_more(alloc: Global, request: &[u8], reply: &[u8]) -> Result<bool, Refusal> {
    let mut desk = desk(alloc)?;
    let mut out = Vec::new(alloc);
    let calls = Calls {
        most: 1,
        read: Some(request.len() as u64),
        write: None,
    };
    let served = serve(alloc, &mut desk, request, calls, &mut out)?;
    Ok(served == Ok(()) && out.as_slice() == reply)
}

#[test]
fn a_read_that_fails(rt: HostRuntime) -> Result<(), Fail> {
    for request in [POST, POST_LENGTH, GET] {
        for read in 0..request.len() as u64 {
            assert!(rt;
                ends_where_a_read_fails(rt.alloc(), request, read)?,
                "{read}"
            );
        }
    }
    Ok(())
}

#[test]
fn nothing_is_read_behind_a_request(rt: HostRuntime) -> Result<(), Fail> {
    assert!(rt; asks_for_no_more(rt.alloc(), POST, CREATED)?);
    assert!(rt; asks_for_no_more(rt.alloc(), POST_LENGTH, CREATED)?);
    assert!(rt; asks_for_no_more(rt.alloc(), GET, NONE)?);
    Ok(())
}

/// Whether a post, written 7 bytes a time, ends as a write fault where the write after `write` others fails, with the bytes
/// before written and the step taken.
fn ends_where_a_write_fails(alloc: Global, write: u64) -> Result<bool, Refusal> {
    let mut desk = desk(alloc)?;
    let mut out = Vec::new(alloc);
    let calls = Calls {
        most: 7,
        read: None,
        write: Some(write),
    };
    let served = serve(alloc, &mut desk, POST, calls, &mut out)?;
    let written = CREATED
        .get(..(write as usize).saturating_mul(7))
        .unwrap_or_default();
    Ok(served == Err(ServeFault::Write) && out.as_slice() == written && vens(&mut desk)? == 1)
}

#[test]
fn a_write_that_fails(rt: HostRuntime) -> Result<(), Fail> {
    for write in 0..30 {
        assert!(rt; ends_where_a_write_fails(rt.alloc(), write)?, "{write}");
    }
    Ok(())
}
