//! Requests.
ghost use Rattle.std.specs.Prelude.{◌≡◌, ◌≢◌, ◌+◌, ◌⊎◌, ◌≤◌, ℕ, List, [], Some, Ok, Err};
ghost use Rattle.adr_wire.specs.Calls.{NoneFails, LastFails, RunsOut};
ghost use Rattle.adr_wire.specs.Pieces.{OfWhatCame, IsReading};
ghost use Rattle.adr_wire.specs.declared.end.ReadEnd.TheVariants.{Reader};
ghost use Rattle.adr_request.specs.Requests.{most_reads, RequestParts, request_parts, IsRequest};

use crate::body::read_body;
use crate::head::read_head;
use adr_text::Source;
use adr_wire::{Ahead, ReadEnd};
use std::alloc::Global;

/// The most reads of one request, 2^24.
const MOST_READS: u32 = 16_777_216;

/// A request.
#[derive(Drop)]
pub struct HttpRequest {
    pub method: Vec<u8>,
    /// The path, and behind `?` a query. It is as it was sent: nothing is decoded.
    pub target: Vec<u8>,
    /// The bearer token that is shown, where one is.
    pub token: Option<Vec<u8>>,
    pub body: Vec<u8>,
}

/// Reads a request: what the whole list of the source's bytes is, in whatever pieces it gives them.
///
/// A head has at most 16,384 bytes and 64 fields, a body at most 1,048,576 bytes, a chunk line and the trailers at most
/// 16,384 bytes each. A failed read ends it at once; so does the read after 16,777,216 others.
pub fn read_request<S: Source>(alloc: Global, source: &mut S) -> Result<HttpRequest, ReadEnd>
    ensures reading { IsReading request_parts result (λ read. (bytes : List ℕ) → S.left source.old ≡ Some bytes → IsRequest bytes read) }
    ensures reads { (S.calls source.new).made ≤ (S.calls source.old).made + most_reads }
    // Where the reader failed, what had come was no whole request: nothing is asked for behind one.
    ensures unfinished { result ≡ Err Reader → OfWhatCame (S.left source.old) [] (S.left source.new) (λ came. (request : RequestParts) → ¬ (IsRequest came (Ok request))) }
    ensures read_fault { result ≡ Err Reader → LastFails (S.calls source.old) (S.calls source.new) ⊎ RunsOut most_reads (S.calls source.old) (S.calls source.new) }
    ensures no_read_fault { result ≢ Err Reader → NoneFails (S.calls source.old) (S.calls source.new) }
{
    let mut ahead = Ahead::new(alloc, MOST_READS);
    let head = read_head(alloc, source, &mut ahead)?;
    let body = read_body(alloc, source, &mut ahead, head.extent)?;
    Ok(HttpRequest {
        method: head.method,
        target: head.target,
        token: head.token,
        body,
    })
}
