//! A request served on a desk, from bytes that come in pieces.
ghost use Rattle.std.specs.Prelude.{◌≡◌, ◌<◌};

use adr_http::{Roles, Routes, ServeFault, run_script, serve_one};
use adr_machine::Desk;
use adr_text::{KthFails, Moment, Reader, Source, Writer};
use std::alloc::Global;
use std::io::Read;
use std::marker::Brand;
use std::sync::ledger::{Blank, Ledger};
use table_files::Pieces;

/// What stands around a case: who may ask, the paths, and the moment of all requests.
#[derive(Clone, Copy)]
pub struct Front<'f> {
    pub roles: &'f Roles,
    pub routes: &'f Routes,
    pub now: Moment,
}

/// Serves one request from a source, and writes the reply into `out`.
fn serve_from<D: Desk, S: Source, L: Ledger>(
    alloc: Global,
    desk: &mut D,
    front: &Front,
    source: &mut S,
    out: &mut Vec<u8>,
    writes: Blank,
) -> Result<(), ServeFault>
    requires write_name { writes.name ≡ L.name }
    requires write_parts { writes.parts ≡ L.parts }
    requires write_two { 1 < writes.parts }
{
    let mut sink = Writer::<&mut Vec<u8>, L>::new(out, writes);
    serve_one(
        alloc,
        desk,
        front.roles,
        front.routes,
        source,
        &mut sink,
        front.now,
    )
}

/// The same from pieces of at most so many bytes.
fn serve_pieces<D: Desk, K: Ledger>(
    alloc: Global,
    desk: &mut D,
    front: &Front,
    request: Vec<u8>,
    most: usize,
    out: &mut Vec<u8>,
    reads: Blank,
) -> Result<(), ServeFault>
    requires most { 0 < most }
    requires read_name { reads.name ≡ K.name }
    requires read_parts { reads.parts ≡ K.parts }
    requires read_two { 1 < reads.parts }
{
    let mut source = KthFails::<K>::new(request, Vec::new(alloc), most, None, reads);
    serve_from::<D, _, Brand>(alloc, desk, front, &mut source, out, Blank::new(2))
}

/// The same from a reader.
fn serve_reader<D: Desk, R: Read + Drop, K: Ledger>(
    alloc: Global,
    desk: &mut D,
    front: &Front,
    reader: R,
    out: &mut Vec<u8>,
    reads: Blank,
) -> Result<(), ServeFault>
    requires read_name { reads.name ≡ K.name }
    requires read_parts { reads.parts ≡ K.parts }
    requires read_two { 1 < reads.parts }
{
    let mut source = Reader::<R, K>::new(reader, reads);
    serve_from::<D, _, Brand>(alloc, desk, front, &mut source, out, Blank::new(2))
}

/// Serves one request, whose bytes come in such pieces, and answers whether its reply was written.
pub fn serve<D: Desk>(
    alloc: Global,
    desk: &mut D,
    front: &Front,
    request: &[u8],
    pieces: Pieces,
    out: &mut Vec<u8>,
) -> bool {
    match pieces {
        Pieces::Cut(at) if at <= request.len() => {
            let reader = (&request[..at]).chain(&request[at..]);
            serve_reader::<D, _, Brand>(alloc, desk, front, reader, out, Blank::new(2)).is_ok()
        }
        Pieces::Of(most) if 0 < most => match request.to_vec(alloc) {
            Ok(request) => {
                serve_pieces::<D, Brand>(
                    alloc,
                    desk,
                    front,
                    request,
                    most,
                    out,
                    Blank::new(2),
                ).is_ok()
            }
            Err(_) => false,
        },
        _ => false,
    }
}

/// Runs a script over a reader and a writer.
fn script_over<D: Desk, R: Read + Drop, K: Ledger, L: Ledger>(
    alloc: Global,
    desk: &mut D,
    reader: R,
    out: &mut Vec<u8>,
    reads: Blank,
    writes: Blank,
) -> bool
    requires read_name { reads.name ≡ K.name }
    requires read_parts { reads.parts ≡ K.parts }
    requires read_two { 1 < reads.parts }
    requires write_name { writes.name ≡ L.name }
    requires write_parts { writes.parts ≡ L.parts }
    requires write_two { 1 < writes.parts }
{
    let mut source = Reader::<R, K>::new(reader, reads);
    let mut sink = Writer::<&mut Vec<u8>, L>::new(out, writes);
    run_script(alloc, desk, &mut source, &mut sink).is_ok()
}

/// Takes the lines of a script, and answers whether they were all taken.
pub fn take_lines<D: Desk>(alloc: Global, desk: &mut D, script: &[u8], out: &mut Vec<u8>) -> bool {
    script_over::<D, _, Brand, Brand>(alloc, desk, script, out, Blank::new(2), Blank::new(2))
}
