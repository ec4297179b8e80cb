//! An office that takes what is asked, under its lock.
ghost use Rattle.std.specs.Prelude.{◌≡◌, Ok, Err, IfSome, OnOk};
ghost use Rattle.adr_lock.specs.Outcomes.{StepsInOffice, LooksInOffice, TakesOneAtMost};
ghost use Rattle.adr_http.specs.Takers.{TakesOnce, ServesBy, ServesPartBy};
ghost use Rattle.adr_http.specs.declared.fault.ServeFault.TheVariants.{Read, Write};
ghost use Rattle.adr_server.specs.Outcomes.{AsksOffice};

use crate::notice_log::tell_asked;
use crate::shared::Shared;
use adr_book::{Office, Pass, Trail};
use adr_http::{Asked, Routes, ServeFault, Taker, Witness, serve};
use adr_lock::{Call, Clock, Steps, halts, take_under_lock};
use adr_machine::{Answer, Command, Desk, Query};
use adr_text::{Name, Refusal, Sink, Source};
use log::Log;
use std::sync::Wait;
use std::sync::ledger::Ledger;

/// An office, what all threads know, the clock by which it answers, and the pass of who comes to it. Where the store refuses
/// what is asked, and that ends the node, it sets the flag.
#[derive(Drop)]
pub struct OfficeTaker<'a, D: Desk + Drop, T: Trail<D>, L: Ledger, C: Clock, R: Wait + Log> {
    pub rt: &'a R,
    pub office: &'a Office<D, T, L>,
    pub shared: &'a Shared,
    pub clock: &'a C,
    pub pass: &'a mut Pass<L>,
}

fn take_step<D: Desk + Drop, T: Trail<D>, L: Ledger, C: Clock, R: Wait + Log>(
    rt: &R,
    office: &Office<D, T, L>,
    clock: &C,
    pass: &mut Pass<L>,
    command: &Command,
) -> Result<Answer, Refusal>
    ensures outcome { StepsInOffice office.now (C.tells clock.now) pass.old command.now result pass.new }
    ensures one { TakesOneAtMost pass.old pass.new }
{
    take_under_lock(
        rt,
        office,
        clock,
        pass,
        &mut Steps::new(),
        Call::Step(command),
    )
}

fn look<D: Desk + Drop, T: Trail<D>, L: Ledger, C: Clock, R: Wait + Log>(
    rt: &R,
    office: &Office<D, T, L>,
    clock: &C,
    pass: &mut Pass<L>,
    query: &Query,
) -> Result<Answer, Refusal>
    ensures outcome { LooksInOffice office.now pass.old query.now result pass.new }
    ensures one { TakesOneAtMost pass.old pass.new }
{
    take_under_lock(
        rt,
        office,
        clock,
        pass,
        &mut Steps::new(),
        Call::Look(query),
    )
}

/// Takes what is asked, under the lock. Nothing is asked without it.
fn ask_office<D: Desk + Drop, T: Trail<D>, L: Ledger, C: Clock, R: Wait + Log>(
    rt: &R,
    office: &Office<D, T, L>,
    clock: &C,
    pass: &mut Pass<L>,
    asked: &Asked,
) -> Result<Answer, Refusal>
    ensures outcome { AsksOffice office.now (C.tells clock.now) pass.old asked.now result pass.new }
    ensures one { TakesOneAtMost pass.old pass.new }
{
    match asked {
        Asked::Command(command) => take_step(rt, office, clock, pass, command),
        Asked::Page(command, _) => take_step(rt, office, clock, pass, command),
        Asked::Query(query) => look(rt, office, clock, pass, query),
        Asked::Nothing => Ok(Answer::Done),
    }
}

impl<'a, D: Desk + Drop, T: Trail<D>, L: Ledger, C: Clock, R: Wait + Log> Taker
    for OfficeTaker<'a, D, T, L, C, R> {
    ghost takes = { λ before asked outcome after.
        (after.pass.ghost_name ≡ before.pass.ghost_name)
        × (after.office ≡ before.office)
        × (after.clock ≡ before.clock)
        × AsksOffice before.office.now (C.tells before.clock.now) before.pass.now asked outcome after.pass.now
        × TakesOneAtMost before.pass.now after.pass.now };

    ghost client = { λ t. t.shared.now.client };

    fn take(&mut self, asked: &Asked) -> Result<Answer, Refusal> {
        tell_asked(self.rt, asked);
        let outcome = ask_office(self.rt, self.office, self.clock, self.pass, asked);
        let _ = halts(self.shared.halt(), &outcome);
        outcome
    }

    fn client(&self) -> &Name {
        &self.shared.client
    }
}

/// Serves one request at the office, with the pass that is lent there.
fn serve_lent<
    D: Desk + Drop,
    T: Trail<D>,
    L: Ledger,
    C: Clock,
    R: Wait + Log,
    S: Source,
    W: Sink,
    V: Witness,
>(
    shared: &Shared,
    routes: &Routes,
    taker: &mut OfficeTaker<'_, D, T, L, C, R>,
    source: &mut S,
    sink: &mut W,
    witness: &mut V,
) -> Result<(), ServeFault>
    ensures all { OnOk result (IfSome (S.left source.old) (λ bytes. ServesBy (AsksOffice taker.old.office.now (C.tells taker.old.clock.now)) taker.old.shared.now.client shared.now.roles taker.old.pass.now bytes taker.new.pass.now (W.written sink.old) (W.written sink.new))) }
    ensures part { result ≡ Err Write → IfSome (S.left source.old) (λ bytes. ServesPartBy (AsksOffice taker.old.office.now (C.tells taker.old.clock.now)) taker.old.shared.now.client shared.now.roles taker.old.pass.now bytes taker.new.pass.now (W.written sink.old) (W.written sink.new)) }
    ensures nothing { result ≡ Err Read → (sink.new ≡ sink.old) × (taker.new.pass.now ≡ taker.old.pass.now) }
    ensures once { TakesOnce (AsksOffice taker.old.office.now (C.tells taker.old.clock.now)) taker.old.pass.now taker.new.pass.now }
    ensures one { TakesOneAtMost taker.old.pass.now taker.new.pass.now }
    ensures same_pass { taker.new.pass.ghost_name ≡ taker.old.pass.ghost_name }
{
    serve(
        shared.alloc,
        &shared.roles,
        routes,
        taker,
        source,
        sink,
        witness,
    )
}

/// Serves one request at an office, whose lock is held for the taking alone: one turn at most. What is written is the reply
/// to what was read, and to an outcome that the book behind the lock may give.
pub fn serve_shared<
    D: Desk + Drop,
    T: Trail<D>,
    L: Ledger,
    C: Clock,
    R: Wait + Log,
    S: Source,
    W: Sink,
    V: Witness,
>(
    rt: &R,
    office: &Office<D, T, L>,
    shared: &Shared,
    routes: &Routes,
    clock: &C,
    pass: &mut Pass<L>,
    source: &mut S,
    sink: &mut W,
    witness: &mut V,
) -> Result<(), ServeFault>
    ensures all { OnOk result (IfSome (S.left source.old) (λ bytes. ServesBy (AsksOffice office.now (C.tells clock.now)) shared.now.client shared.now.roles pass.old bytes pass.new (W.written sink.old) (W.written sink.new))) }
    ensures part { result ≡ Err Write → IfSome (S.left source.old) (λ bytes. ServesPartBy (AsksOffice office.now (C.tells clock.now)) shared.now.client shared.now.roles pass.old bytes pass.new (W.written sink.old) (W.written sink.new)) }
    ensures nothing { result ≡ Err Read → (sink.new ≡ sink.old) × (pass.new ≡ pass.old) }
    ensures once { TakesOnce (AsksOffice office.now (C.tells clock.now)) pass.old pass.new }
    ensures one { TakesOneAtMost pass.old pass.new }
{
    let mut taker = OfficeTaker {
        rt,
        office,
        shared,
        clock,
        pass,
    };
    serve_lent(shared, routes, &mut taker, source, sink, witness)
}
