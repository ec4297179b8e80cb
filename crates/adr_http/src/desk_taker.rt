//! A desk that takes what is asked, at one moment.
ghost use Rattle.std.specs.Prelude.{◌≡◌, ◌≢◌, ◌⊎◌, ◌≤◌, ◌+◌, IfSome, IfOk, OnOk, OnErr, Ok, Err, []};
ghost use Rattle.adr_wire.specs.Calls.{NoneFails, LastFails, RunsOut};
ghost use Rattle.adr_wire.specs.Pieces.{OfWhatCame};
ghost use Rattle.adr_request.specs.Requests.{most_reads, RequestParts, request_parts, IsRequest};
ghost use Rattle.adr_asked.specs.Turns.{asked_step, asks_desk, Outcome, MayLeave};
ghost use Rattle.adr_http.specs.Serving.{request_turn, IsBuilt, Serves, ServesPart};
ghost use Rattle.adr_http.specs.declared.fault.ServeFault.TheVariants.{Read, Write};

use crate::answering::answer_by;
use crate::fault::ServeFault;
use crate::roles::Roles;
use crate::serving::serve;
use crate::taker::Taker;
use crate::witness::Unseen;
use adr_asked::{Asked, take_asked};
use adr_machine::{Answer, Desk};
use adr_request::HttpRequest;
use adr_routes::Routes;
use adr_text::{Moment, Name, Refusal, Sink, Source};
use std::alloc::{AllocError, Global};

/// A desk, and the moment at which it is asked.
#[derive(Drop)]
pub struct DeskTaker<'a, D: Desk> {
    pub desk: &'a mut D,
    pub now: Moment,
}

impl<'a, D: Desk> Taker for DeskTaker<'a, D> {
    ghost takes = { λ before asked outcome after.
        (after.desk.ghost_name ≡ before.desk.ghost_name)
        × (D.is_sound after.desk.now → Outcome D.may_refuse (asks_desk asked) (D.state before.desk.now) (asked_step (D.settings before.desk.now) (D.state before.desk.now) before.now asked) outcome (D.state after.desk.now))
        × (D.is_sound after.desk.now → D.is_sound before.desk.now)
        × (D.settings after.desk.now ≡ D.settings before.desk.now) };

    ghost client = { λ t. (D.settings t.desk.now).client };

    fn take(&mut self, asked: &Asked) -> Result<Answer, Refusal> {
        take_asked(self.desk, self.now, asked)
    }

    fn client(&self) -> &Name {
        &self.desk.settings().client
    }
}

/// Answers a request over the desk that is lent there.
fn answer_lent<D: Desk>(
    alloc: Global,
    roles: &Roles,
    routes: &Routes,
    taker: &mut DeskTaker<'_, D>,
    request: &HttpRequest,
) -> Result<Vec<u8>, AllocError>
    ensures ok { IfOk result (λ out. D.is_sound taker.new.desk.now → IsBuilt D.may_refuse (D.state taker.old.desk.now) (request_turn (D.settings taker.old.desk.now) roles.now (D.state taker.old.desk.now) taker.old.now (request_parts request.now)) out.items (D.state taker.new.desk.now)) }
    ensures err { OnErr result (D.is_sound taker.new.desk.now → MayLeave (D.state taker.old.desk.now) (request_turn (D.settings taker.old.desk.now) roles.now (D.state taker.old.desk.now) taker.old.now (request_parts request.now)) (D.state taker.new.desk.now)) }
    ensures was_sound { D.is_sound taker.new.desk.now → D.is_sound taker.old.desk.now }
    ensures same_settings { D.settings taker.new.desk.now ≡ D.settings taker.old.desk.now }
    ensures same_desk { taker.new.desk.ghost_name ≡ taker.old.desk.ghost_name }
{
    answer_by(alloc, roles, routes, taker, request, &mut Unseen)
}

/// Takes the step that a request asks for, at that moment, and gives the bytes of the reply. Where memory runs out for
/// these, the step may have been taken.
pub fn answer<D: Desk>(
    alloc: Global,
    desk: &mut D,
    roles: &Roles,
    routes: &Routes,
    request: &HttpRequest,
    now: Moment,
) -> Result<Vec<u8>, AllocError>
    ensures ok { IfOk result (λ out. D.is_sound desk.new → IsBuilt D.may_refuse (D.state desk.old) (request_turn (D.settings desk.old) roles.now (D.state desk.old) now (request_parts request.now)) out.items (D.state desk.new)) }
    ensures err { OnErr result (D.is_sound desk.new → MayLeave (D.state desk.old) (request_turn (D.settings desk.old) roles.now (D.state desk.old) now (request_parts request.now)) (D.state desk.new)) }
    ensures was_sound { D.is_sound desk.new → D.is_sound desk.old }
    ensures same_settings { D.settings desk.new ≡ D.settings desk.old }
{
    let mut taker = DeskTaker { desk, now };
    answer_lent(alloc, roles, routes, &mut taker, request)
}

/// Serves one request over the desk that is lent there.
fn serve_lent<D: Desk, S: Source, W: Sink>(
    alloc: Global,
    roles: &Roles,
    routes: &Routes,
    taker: &mut DeskTaker<'_, D>,
    source: &mut S,
    sink: &mut W,
) -> Result<(), ServeFault>
    ensures all { OnOk result (IfSome (S.left source.old) (λ bytes. D.is_sound taker.new.desk.now → Serves D.may_refuse (D.settings taker.old.desk.now) roles.now (D.state taker.old.desk.now) taker.old.now bytes (D.state taker.new.desk.now) (W.written sink.old) (W.written sink.new))) }
    ensures part { result ≡ Err Write → IfSome (S.left source.old) (λ bytes. D.is_sound taker.new.desk.now → ServesPart D.may_refuse (D.settings taker.old.desk.now) roles.now (D.state taker.old.desk.now) taker.old.now bytes (D.state taker.new.desk.now) (W.written sink.old) (W.written sink.new)) }
    ensures nothing { result ≡ Err Read → (sink.new ≡ sink.old) × (D.is_sound taker.new.desk.now → D.state taker.new.desk.now ≡ D.state taker.old.desk.now) }
    ensures reads { (S.calls source.new).made ≤ (S.calls source.old).made + most_reads }
    ensures unfinished { result ≡ Err Read → OfWhatCame (S.left source.old) [] (S.left source.new) (λ came. (request : RequestParts) → ¬ (IsRequest came (Ok request))) }
    ensures read_fault { result ≡ Err Read → LastFails (S.calls source.old) (S.calls source.new) ⊎ RunsOut most_reads (S.calls source.old) (S.calls source.new) }
    ensures no_read_fault { result ≢ Err Read → NoneFails (S.calls source.old) (S.calls source.new) }
    ensures write_fault { result ≡ Err Write → LastFails (W.calls sink.old) (W.calls sink.new) }
    ensures no_write_fault { result ≢ Err Write → NoneFails (W.calls sink.old) (W.calls sink.new) }
    ensures was_sound { D.is_sound taker.new.desk.now → D.is_sound taker.old.desk.now }
    ensures same_settings { D.settings taker.new.desk.now ≡ D.settings taker.old.desk.now }
    ensures same_desk { taker.new.desk.ghost_name ≡ taker.old.desk.ghost_name }
{
    serve(alloc, roles, routes, taker, source, sink, &mut Unseen)
}

/// Reads a request, takes its step at that moment, and writes the reply.
///
/// Bytes that are no request are told so, and take no step. Where memory runs out, that is what is replied, in place of
/// the step or behind it. A read that fails ends it at once: nothing is written, and no step is taken. After a write that
/// fails a part of the reply is written, and the step stays.
pub fn serve_one<D: Desk, S: Source, W: Sink>(
    alloc: Global,
    desk: &mut D,
    roles: &Roles,
    routes: &Routes,
    source: &mut S,
    sink: &mut W,
    now: Moment,
) -> Result<(), ServeFault>
    ensures all { OnOk result (IfSome (S.left source.old) (λ bytes. D.is_sound desk.new → Serves D.may_refuse (D.settings desk.old) roles.now (D.state desk.old) now bytes (D.state desk.new) (W.written sink.old) (W.written sink.new))) }
    ensures part { result ≡ Err Write → IfSome (S.left source.old) (λ bytes. D.is_sound desk.new → ServesPart D.may_refuse (D.settings desk.old) roles.now (D.state desk.old) now bytes (D.state desk.new) (W.written sink.old) (W.written sink.new)) }
    ensures nothing { result ≡ Err Read → (sink.new ≡ sink.old) × (D.is_sound desk.new → D.state desk.new ≡ D.state desk.old) }
    ensures reads { (S.calls source.new).made ≤ (S.calls source.old).made + most_reads }
    // Where a read failed, what had come was no whole request: nothing is asked for behind one.
    ensures unfinished { result ≡ Err Read → OfWhatCame (S.left source.old) [] (S.left source.new) (λ came. (request : RequestParts) → ¬ (IsRequest came (Ok request))) }
    ensures read_fault { result ≡ Err Read → LastFails (S.calls source.old) (S.calls source.new) ⊎ RunsOut most_reads (S.calls source.old) (S.calls source.new) }
    ensures no_read_fault { result ≢ Err Read → NoneFails (S.calls source.old) (S.calls source.new) }
    ensures write_fault { result ≡ Err Write → LastFails (W.calls sink.old) (W.calls sink.new) }
    ensures no_write_fault { result ≢ Err Write → NoneFails (W.calls sink.old) (W.calls sink.new) }
    ensures was_sound { D.is_sound desk.new → D.is_sound desk.old }
    ensures same_settings { D.settings desk.new ≡ D.settings desk.old }
{
    let mut taker = DeskTaker { desk, now };
    serve_lent(alloc, roles, routes, &mut taker, source, sink)
}
