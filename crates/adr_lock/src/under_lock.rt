//! The one place where the lock of an office is taken.
ghost use Rattle.std.specs.Prelude.{◌≡◌, IfErr, OnErr};
ghost use Rattle.adr_book.specs.Words.{seen_by};
ghost use Rattle.adr_lock.specs.Outcomes.{InOffice, MayRefuseCall, TakesOneAtMost};
ghost use Rattle.adr_lock.specs.Steps.{with_call};

use crate::call::Call;
use crate::clock::Clock;
use crate::in_book::take_in_book;
use crate::steps::{Steps, note};
use crate::telling::tell;
use adr_book::{Office, Pass, Trail};
use adr_machine::{Answer, Desk};
use adr_text::Refusal;
use log::Log;
use std::sync::Wait;
use std::sync::ledger::Ledger;

/// Takes a step under the lock, or looks, once, at the moment that the clock tells under it. What the log is told of it
/// is told once the lock is free.
pub fn take_under_lock<D: Desk + Drop, T: Trail<D>, L: Ledger, C: Clock, R: Wait + Log>(
    rt: &R,
    office: &Office<D, T, L>,
    clock: &C,
    pass: &mut Pass<L>,
    steps: &mut Steps,
    call: Call<'_>,
) -> Result<Answer, Refusal>
    ensures outcome { InOffice office.now (C.tells clock.now) pass.old call.entry result pass.new }
    ensures steps { steps.new.items ≡ with_call steps.old.items call.entry result }
    ensures one { TakesOneAtMost pass.old pass.new }
    ensures listed { IfErr result (MayRefuseCall D.may_refuse (seen_by pass.old) call.entry) }
    ensures unchanged { OnErr result (pass.new ≡ pass.old) }
{
    let mut book = office.book.lock(rt);
    let now = clock.now(rt);
    let outcome = take_in_book(&mut *book, pass, now, call);
    drop(book);
    note(steps, call, &outcome);
    tell(rt, &outcome);
    outcome
}
