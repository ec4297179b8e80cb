//! One request that is written, and the reply to it that is read.
ghost use Rattle.std.specs.Prelude.{◌≡◌, ◌≢◌, ◌<◌, ℕ, List, Some, Err};
ghost use Rattle.std.specs.Io.KnownBytes.{Appends};
ghost use Rattle.adr_wire.specs.Calls.{WritesPart};
ghost use Rattle.adr_link.specs.Replies.{IsLinkReading, IsReply};
ghost use Rattle.adr_link.specs.declared.reply.LinkFault.TheVariants.{Read};

use crate::paced::{Paced, Term};
use crate::traffic::{Metered, Traffic};
use adr_link::{HttpReply, LinkFault, read_reply};
use adr_text::{Reader, Sink, Source, Writer};
use adr_wire::write_all;
use std::alloc::Global;
use std::marker::Brand;
use std::net::TcpStream;
use std::sync::ledger::{Blank, Ledger};
use std::time::Clock;

/// Writes a request, whole and once, and reads the reply to it. Where it can't be written, that counts as a read that
/// failed, and no reply is read.
#[tactic(auto, using(crate::proofs::Parts::whole_is_part))]
pub fn exchange<S: Source, W: Sink>(
    alloc: Global,
    source: &mut S,
    sink: &mut W,
    request: &[u8],
) -> Result<HttpReply, LinkFault>
    ensures whole { result ≢ Err Read → Appends (W.written sink.old) (W.written sink.new) request.now }
    ensures part { WritesPart (W.written sink.old) (W.written sink.new) request.now }
    ensures reading { IsLinkReading result (λ read. (bytes : List ℕ) → S.left source.old ≡ Some bytes → IsReply bytes read) }
{
    match write_all(sink, request) {
        Ok(()) => read_reply(alloc, source),
        Err(_) => Err(LinkFault::Read),
    }
}

fn exchange_over<T: Clock, K: Ledger, M: Ledger>(
    alloc: Global,
    reader: Metered<'_, Paced<'_, T>>,
    writer: Metered<'_, Paced<'_, T>>,
    request: &[u8],
    reads: Blank,
    writes: Blank,
) -> Result<HttpReply, LinkFault>
where
    requires reads { (reads.name ≡ K.name) × (reads.parts ≡ K.parts) × (1 < reads.parts) }
    requires writes { (writes.name ≡ M.name) × (writes.parts ≡ M.parts) × (1 < writes.parts) }
{
    let mut source = Reader::<Metered<'_, Paced<'_, T>>, K>::new(reader, reads);
    let mut sink = Writer::<Metered<'_, Paced<'_, T>>, M>::new(writer, writes);
    exchange(alloc, &mut source, &mut sink, request)
}

/// The same over a connection, within a term. What was read and written is counted.
pub fn exchange_paced<T: Clock>(
    alloc: Global,
    time: &T,
    stream: &TcpStream,
    term: Term,
    request: &[u8],
    read: &mut Traffic,
    written: &mut Traffic,
) -> Result<HttpReply, LinkFault> {
    let reader = Metered {
        stream: Paced { time, stream, term },
        traffic: read,
    };
    let writer = Metered {
        stream: Paced { time, stream, term },
        traffic: written,
    };
    exchange_over::<T, Brand, Brand>(alloc, reader, writer, request, Blank::new(2), Blank::new(2))
}
