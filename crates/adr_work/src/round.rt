//! A round of polling by the office and the gate.
ghost use Rattle.std.specs.Prelude.{IfErr};
ghost use Rattle.adr_lock.specs.Halting.{by_store, EndsByStore};
ghost use Rattle.adr_work.specs.OfficeRounds.{TakesRound};
ghost use Rattle.adr_work.specs.Refused.{MayRefuseSome, EndsBy};

use crate::counted::Counted;
use crate::gate::Gate;
use crate::line::OfficeTeller;
use crate::page::PollEnd;
use crate::polling::poll;
use crate::round_log::RoundLog;
use adr_book::{Office, Pass, Trail};
use adr_link::Upstream;
use adr_lock::{Clock, Steps};
use adr_machine::Desk;
use adr_text::Refusal;
use log::Log;
use std::alloc::Global;
use std::sync::Wait;
use std::sync::ledger::Ledger;
use std::{mem, time};

/// One round (`poll`): what is asked goes through the gate, outside the lock, and each command is one step under it, at
/// the clock's moment then. What it came to is seen by who tells the log.
#[tactic(auto, using(crate::proofs::Taking::takes_round))]
pub fn poll_round<
    D: Desk + Drop,
    T: Trail<D>,
    L: Ledger,
    G: Gate,
    C: Clock,
    R: Wait + time::Clock + Log,
>(
    rt: &R,
    alloc: Global,
    office: &Office<D, T, L>,
    gate: &mut G,
    upstream: &Upstream,
    clock: &C,
    pass: &mut Pass<L>,
    steps: &mut Steps,
    log: &mut RoundLog<'_, R>,
) -> Result<PollEnd, Refusal>
    ensures round { TakesRound upstream.now (G.exchanges gate.old) (G.exchanges gate.new) steps.old.items steps.new.items result }
    ensures ends { EndsByStore (by_store result) steps.old.items steps.new.items }
    ensures refusal { IfErr result (λ refusal. EndsBy (MayRefuseSome D.may_refuse) refusal) }
{
    let mut teller = OfficeTeller {
        rt,
        office,
        clock,
        pass,
        steps: mem::replace(steps, Steps::new()),
        counted: Counted::none(),
    };
    let end = poll(alloc, gate, &mut teller, upstream, log);
    let OfficeTeller {
        steps: taken,
        counted,
        ..
    } = teller;
    log.count(counted);
    *steps = taken;
    end
}
