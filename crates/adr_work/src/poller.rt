//! The rounds in which the utility is asked.
ghost use Rattle.std.specs.Prelude.{is_some};
ghost use Rattle.adr_lock.specs.Halting.{HaltsByStep};
ghost use Rattle.adr_work.specs.OfficeRounds.{TakesRounds};

use crate::gate::Gate;
use crate::rest::Rests;
use crate::round::poll_round;
use crate::round_log::RoundLog;
use adr_book::{Office, Pass, Trail};
use adr_link::Upstream;
use adr_lock::{Clock, Steps, halts};
use adr_machine::Desk;
use log::Log;
use std::alloc::Global;
use std::sync::Wait;
use std::sync::atomic::{AtomicBool, Ordering};
use std::sync::ledger::Ledger;
use std::time::Duration;
use std::{thread, time};

/// What the poller hands back as it ends.
#[derive(Drop)]
pub struct Polled<L: Ledger> {
    pub pass: Pass<L>,
    /// Whether it ended because the store refused.
    pub halted: bool,
}

/// Waits so many seconds, and looks before each and behind the last whether it is to stop.
fn is_stopped_within<R: Wait + time::Clock>(rt: &R, seconds: u64, stopped: &AtomicBool) -> bool {
    for _ in 0..seconds {
        if stopped.load(Ordering::SeqCst) {
            return true;
        }
        thread::sleep(rt, Duration::from_secs(1));
    }
    stopped.load(Ordering::SeqCst)
}

/// Asks the utility in rounds, the first at once, until it is told to stop, or, with a flag to set, until the store refuses
/// a command. A round that is broken or otherwise refused is passed over: the next one asks for everything again.
/// Between two rounds it rests so many seconds, and behind such rounds 1, 2, 4 and so on up to these (`Rests`).
#[tactic(auto, using(crate::proofs::Taking::rounds_none, crate::proofs::Taking::rounds_more, crate::proofs::Halting::halts_none))]
pub fn poll_loop<
    D: Desk + Drop,
    T: Trail<D>,
    L: Ledger,
    G: Gate,
    C: Clock,
    R: Wait + time::Clock + Log,
>(
    rt: &R,
    alloc: Global,
    office: &Office<D, T, L>,
    gate: &mut G,
    upstream: &Upstream,
    clock: &C,
    seconds: u64,
    stopped: &AtomicBool,
    halt: Option<&AtomicBool>,
    mut pass: Pass<L>,
    steps: &mut Steps,
) -> Polled<L>
    ensures rounds { TakesRounds upstream.now (G.exchanges gate.old) (G.exchanges gate.new) steps.old.items steps.new.items }
    ensures halts { HaltsByStep (is_some halt.entry) result.halted steps.old.items steps.new.items }
{
    let mut log = RoundLog::new(rt, alloc);
    let mut rests = Rests::new(seconds);
    for _ in rt.forever() {
        log.begin();
        let end = poll_round(
            rt, alloc, office, gate, upstream, clock, &mut pass, steps, &mut log,
        );
        log.end(&end);
        let halted = halts(halt, &end);
        if halted {
            return Polled { pass, halted };
        }
        if is_stopped_within(rt, rests.behind(&end), stopped) {
            return Polled { pass, halted };
        }
    }
    unreachable!()
}
