//! The way to the book, as a round takes it.
ghost use Rattle.adr_work.specs.Tellings.{accepted};
ghost use Rattle.adr_work.specs.Refused.{MayRefuseSome};

use crate::counted::Counted;
use crate::teller::Teller;
use adr_book::{Office, Pass, Trail};
use adr_lock::{Call, Clock, Steps, take_under_lock};
use adr_machine::{Answer, Command, Desk};
use adr_text::Refusal;
use log::Log;
use std::sync::Wait;
use std::sync::ledger::Ledger;

/// Tells the book of an office. The lock is taken anew for each command.
#[derive(Drop)]
pub(crate) struct OfficeTeller<
    'a,
    D: Desk + Drop,
    T: Trail<D>,
    L: Ledger,
    C: Clock,
    R: Wait + Log,
> {
    pub(crate) rt: &'a R,
    pub(crate) office: &'a Office<D, T, L>,
    pub(crate) clock: &'a C,
    pub(crate) pass: &'a mut Pass<L>,
    pub(crate) steps: Steps,
    pub(crate) counted: Counted,
}

impl<D: Desk + Drop, T: Trail<D>, L: Ledger, C: Clock, R: Wait + Log> Teller
    for OfficeTeller<'_, D, T, L, C, R> {
    ghost steps = { λ t. t.steps.items };

    ghost memory = { λ t. accepted t.steps.items };

    ghost refuses = { λ t command refusal. MayRefuseSome D.may_refuse command refusal };

    fn versions(&self) -> u64 {
        self.counted.versions
    }

    #[tactic(auto, using(crate::proofs::Accepting::told_alone, crate::proofs::Accepting::refused_alone))]
    fn tell(&mut self, command: &Command) -> Result<Answer, Refusal> {
        let answer = take_under_lock(
            self.rt,
            self.office,
            self.clock,
            self.pass,
            &mut self.steps,
            Call::Step(command),
        )?;
        self.counted.add(command, &answer);
        Ok(answer)
    }
}
