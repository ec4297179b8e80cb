//! What is asked of a book.
ghost use Rattle.std.specs.Prelude.{◌≡◌, IfErr, OnErr};
ghost use Rattle.adr_book.specs.Words.{seen_by};
ghost use Rattle.adr_lock.specs.Outcomes.{IsStep, IsLook, InBook, MayRefuseCall, TakesOneAtMost};

use crate::call::Call;
use adr_book::{Book, Pass, Trail};
use adr_machine::{Answer, Command, Desk, Query};
use adr_text::{Moment, Refusal};
use std::sync::ledger::Ledger;

fn step_in<D: Desk, T: Trail<D>, L: Ledger>(
    book: &mut Book<D, T, L>,
    pass: &mut Pass<L>,
    now: Moment,
    command: &Command,
) -> Result<Answer, Refusal>
    ensures step { IsStep book.old pass.old now command.now result book.new pass.new }
    ensures one { TakesOneAtMost pass.old pass.new }
{
    book.take(pass, now, command)
}

fn look_in<D: Desk, T: Trail<D>, L: Ledger>(
    book: &mut Book<D, T, L>,
    pass: &mut Pass<L>,
    query: &Query,
) -> Result<Answer, Refusal>
    ensures look { IsLook book.old pass.old query.now result book.new pass.new }
    ensures one { TakesOneAtMost pass.old pass.new }
{
    book.ask(pass, query)
}

/// Takes a step of a book at that moment, or looks.
pub fn take_in_book<D: Desk, T: Trail<D>, L: Ledger>(
    book: &mut Book<D, T, L>,
    pass: &mut Pass<L>,
    now: Moment,
    call: Call<'_>,
) -> Result<Answer, Refusal>
    ensures outcome { InBook book.old pass.old now call.entry result book.new pass.new }
    ensures one { TakesOneAtMost pass.old pass.new }
    ensures listed { IfErr result (MayRefuseCall D.may_refuse (seen_by pass.old) call.entry) }
    ensures unchanged { OnErr result (pass.new ≡ pass.old) }
{
    match call {
        Call::Step(command) => step_in(book, pass, now, command),
        Call::Look(query) => look_in(book, pass, query),
    }
}
