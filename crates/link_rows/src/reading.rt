//! Replies read from bytes that come in pieces.
ghost use Rattle.std.specs.Prelude.{◌≡◌, ◌<◌};

use adr_link::{HttpReply, LinkFault, read_reply};
use adr_text::{KthFails, Reader};
use std::alloc::Global;
use std::io::Read;
use std::marker::Brand;
use std::sync::ledger::{Blank, Ledger};
use table_files::Pieces;

/// From pieces of at most so many bytes.
fn read_pieces<K: Ledger>(
    alloc: Global,
    bytes: Vec<u8>,
    most: usize,
    reads: Blank,
) -> Result<HttpReply, LinkFault>
    requires most { 0 < most }
    requires name { reads.name ≡ K.name }
    requires parts { reads.parts ≡ K.parts }
    requires two { 1 < reads.parts }
{
    let mut source = KthFails::<K>::new(bytes, Vec::new(alloc), most, None, reads);
    read_reply(alloc, &mut source)
}

/// From a reader.
fn read_reader<R: Read + Drop, K: Ledger>(
    alloc: Global,
    reader: R,
    reads: Blank,
) -> Result<HttpReply, LinkFault>
    requires name { reads.name ≡ K.name }
    requires parts { reads.parts ≡ K.parts }
    requires two { 1 < reads.parts }
{
    let mut source = Reader::<R, K>::new(reader, reads);
    read_reply(alloc, &mut source)
}

/// Reads a reply, whose bytes come in such pieces.
pub fn read(alloc: Global, bytes: &[u8], pieces: Pieces) -> Result<HttpReply, LinkFault> {
    match pieces {
        Pieces::Cut(at) if at <= bytes.len() => {
            let reader = (&bytes[..at]).chain(&bytes[at..]);
            read_reader::<_, Brand>(alloc, reader, Blank::new(2))
        }
        Pieces::Of(most) if 0 < most => match bytes.to_vec(alloc) {
            Ok(bytes) => read_pieces::<Brand>(alloc, bytes, most, Blank::new(2)),
            Err(_) => Err(LinkFault::Memory),
        },
        _ => Err(LinkFault::Memory),
    }
}
