//! One request, from its bytes to those of its reply, whoever takes what it asks.
ghost use Rattle.std.specs.Prelude.{◌≡◌, ◌≢◌, ◌⊎◌, ◌≤◌, ◌+◌, IfSome, IfOk, OnOk, Ok, Err, ℕ, List, []};
ghost use Rattle.adr_wire.specs.Calls.{NoneFails, LastFails, RunsOut};
ghost use Rattle.adr_wire.specs.Pieces.{OfWhatCame, IsReading};
ghost use Rattle.adr_wire.specs.declared.end.ReadEnd.TheVariants as read_end;
ghost use Rattle.adr_request.specs.Requests.{most_reads, RequestParts, request_parts, IsRequest};
ghost use Rattle.adr_http.specs.Plans.{plan_of};
ghost use Rattle.adr_http.specs.Serving.{fault_problem, outgoing_bytes, IsTold, IsToldAtEnd};
ghost use Rattle.adr_http.specs.Takers.{TakesOnce, IsReplied, IsServedBy, ServesBy, ServesPartBy};
ghost use Rattle.adr_http.specs.declared.fault.ServeFault.TheVariants.{Read, Write};

use crate::answering::answer_by;
use crate::fault::ServeFault;
use crate::outgoing::Outgoing;
use crate::replying::problem_seen;
use crate::roles::Roles;
use crate::taker::Taker;
use crate::witness::Witness;
use adr_reply::Problem;
use adr_request::{HttpRequest, read_request};
use adr_routes::Routes;
use adr_text::{Refusal, Sink, Source};
use adr_wire::{MessageFault, ReadEnd, write_all};
use std::alloc::Global;

/// The problem of bytes that are no request.
fn fault_problem(fault: MessageFault) -> Problem
    ensures { result ≡ fault_problem fault }
{
    match fault {
        MessageFault::Malformed => Problem::BadRequest,
        MessageFault::TooLarge => Problem::TooLarge,
        MessageFault::NoCoding => Problem::NoCoding,
    }
}

/// What is replied to a request.
fn reply_to_request<T: Taker, V: Witness>(
    alloc: Global,
    roles: &Roles,
    routes: &Routes,
    taker: &mut T,
    request: &HttpRequest,
    witness: &mut V,
) -> Outgoing
    ensures replied { IsReplied T.takes (T.client taker.old) taker.old (plan_of roles.now (request_parts request.now)) (outgoing_bytes result) taker.new }
    ensures once { TakesOnce T.takes taker.old taker.new }
{
    match answer_by(alloc, roles, routes, taker, request, witness) {
        Ok(bytes) => Outgoing::Bytes(bytes),
        Err(_) => Outgoing::Memory,
    }
}

/// What is replied to bytes that are no request.
fn reply_to_fault<V: Witness>(alloc: Global, fault: MessageFault, witness: &mut V) -> Outgoing
    ensures { IsTold (outgoing_bytes result) fault }
{
    match problem_seen(alloc, fault_problem(fault), witness) {
        Ok(bytes) => Outgoing::Bytes(bytes),
        Err(_) => Outgoing::Memory,
    }
}

/// What is replied where no request was read; nothing, where a read failed.
pub(crate) fn reply_to_end<V: Witness>(
    alloc: Global,
    end: ReadEnd,
    witness: &mut V,
) -> Result<Outgoing, ServeFault>
    ensures told { IfOk result (λ out. IsToldAtEnd (outgoing_bytes out) end) }
    ensures read_fault { result ≡ Err Read → end ≡ read_end.Reader }
    ensures no_write_fault { result ≢ Err Write }
    ensures no_read_fault { result ≢ Err Read → end ≢ read_end.Reader }
{
    match end {
        ReadEnd::Bytes(fault) => Ok(reply_to_fault(alloc, fault, witness)),
        ReadEnd::OutOfMemory => Ok(Outgoing::Memory),
        ReadEnd::Reader => Err(ServeFault::Read),
    }
}

/// What is replied to what was read; nothing, where a read failed.
fn reply_to_reading<T: Taker, V: Witness>(
    alloc: Global,
    roles: &Roles,
    routes: &Routes,
    taker: &mut T,
    reading: &Result<HttpRequest, ReadEnd>,
    witness: &mut V,
) -> Result<Outgoing, ServeFault>
    ensures served { IfOk result (λ out. (bytes : List ℕ) → IsReading request_parts reading.now (λ read. IsRequest bytes read) → IsServedBy T.takes (T.client taker.old) roles.now taker.old bytes (outgoing_bytes out) taker.new) }
    ensures read_fault { result ≡ Err Read → (reading.now ≡ Err read_end.Reader) × (taker.new ≡ taker.old) }
    ensures no_write_fault { result ≢ Err Write }
    ensures no_read_fault { result ≢ Err Read → reading.now ≢ Err read_end.Reader }
    ensures once { TakesOnce T.takes taker.old taker.new }
{
    match reading {
        Ok(request) => Ok(reply_to_request(alloc, roles, routes, taker, request, witness)),
        Err(end) => reply_to_end(alloc, *end, witness),
    }
}

// Tells of the reply for want of memory, which stands in place of the one that was told of.
fn see_memory<V: Witness>(witness: &mut V, out: &Outgoing) {
    match out {
        Outgoing::Bytes(_) => (),
        Outgoing::Memory => witness.replies(Refusal::OutOfMemory.status()),
    }
}

/// Reads a request, takes what it asks once at most, and writes the reply.
///
/// Bytes that are no request are told so, and nothing is taken. Where memory runs out, that is what is replied, in place of
/// the taking or behind it. A read that fails ends it at once: nothing is written, and nothing is taken. After a write that
/// fails a part of the reply is written, and what was taken stays. Who sees it changes nothing.
pub fn serve<T: Taker, S: Source, W: Sink, V: Witness>(
    alloc: Global,
    roles: &Roles,
    routes: &Routes,
    taker: &mut T,
    source: &mut S,
    sink: &mut W,
    witness: &mut V,
) -> Result<(), ServeFault>
    ensures all { OnOk result (IfSome (S.left source.old) (λ bytes. ServesBy T.takes (T.client taker.old) roles.now taker.old bytes taker.new (W.written sink.old) (W.written sink.new))) }
    ensures part { result ≡ Err Write → IfSome (S.left source.old) (λ bytes. ServesPartBy T.takes (T.client taker.old) roles.now taker.old bytes taker.new (W.written sink.old) (W.written sink.new)) }
    ensures nothing { result ≡ Err Read → (sink.new ≡ sink.old) × (taker.new ≡ taker.old) }
    ensures once { TakesOnce T.takes taker.old taker.new }
    ensures reads { (S.calls source.new).made ≤ (S.calls source.old).made + most_reads }
    // Where a read failed, what had come was no whole request: nothing is asked for behind one.
    ensures unfinished { result ≡ Err Read → OfWhatCame (S.left source.old) [] (S.left source.new) (λ came. (request : RequestParts) → ¬ (IsRequest came (Ok request))) }
    ensures read_fault { result ≡ Err Read → LastFails (S.calls source.old) (S.calls source.new) ⊎ RunsOut most_reads (S.calls source.old) (S.calls source.new) }
    ensures no_read_fault { result ≢ Err Read → NoneFails (S.calls source.old) (S.calls source.new) }
    ensures write_fault { result ≡ Err Write → LastFails (W.calls sink.old) (W.calls sink.new) }
    ensures no_write_fault { result ≢ Err Write → NoneFails (W.calls sink.old) (W.calls sink.new) }
{
    let reading = read_request(alloc, source);
    witness.reads(&reading);
    let out = reply_to_reading(alloc, roles, routes, taker, &reading, witness)?;
    see_memory(witness, &out);
    match write_all(sink, out.bytes()) {
        Ok(()) => Ok(()),
        Err(_) => Err(ServeFault::Write),
    }
}
