//! What a sender does: it takes jobs, and sends and settles each.
ghost use Rattle.std.specs.Prelude.{◌<◌, is_some};
ghost use Rattle.crossbeam_queue.specs.Passes.{view};
ghost use Rattle.adr_lock.specs.Halting.{HaltsByStep};
ghost use Rattle.adr_work.specs.Seats.{IsSeatOf, OnlyTakes};
ghost use Rattle.adr_work.specs.Sending.{SendsTaken};

use crate::crew::Ended;
use crate::delivery::deliver;
use crate::gate::Gate;
use crate::peers::Peers;
use crate::queue::{JobQueue, Seat};
use adr_book::{Office, Pass, Trail};
use adr_lock::{Clock, Steps, halts};
use adr_machine::Desk;
use log::Log;
use std::alloc::Global;
use std::sync::Wait;
use std::sync::atomic::AtomicBool;
use std::sync::ledger::Ledger;
use std::time;

/// Takes a job, and sends and settles it; where there is none, waits until one is put behind those that were seen. Answers
/// whether the sender halts by it.
#[tactic(auto, using(crate::proofs::Delivering::sends_none, crate::proofs::Delivering::sends_more, crate::proofs::Delivering::sends_same, crate::proofs::Halting::halts_none))]
fn send_next<
    D: Desk + Drop,
    T: Trail<D>,
    L: Ledger,
    G: Gate,
    C: Clock,
    R: Wait + time::Clock + Log,
>(
    rt: &R,
    alloc: Global,
    office: &Office<D, T, L>,
    queue: &JobQueue,
    gate: &mut G,
    peers: &Peers,
    clock: &C,
    halt: Option<&AtomicBool>,
    pass: &mut Pass<L>,
    seat: &mut Seat,
    steps: &mut Steps,
    seen: u64,
) -> bool
    requires { IsSeatOf queue.now seat.old × (0 < (view seat.old).parts) }
    ensures takes { OnlyTakes seat.old seat.new }
    ensures sends { SendsTaken peers.now seat.old seat.new (G.exchanges gate.old) (G.exchanges gate.new) steps.old.items steps.new.items }
    ensures halts { HaltsByStep (is_some halt.entry) result steps.old.items steps.new.items }
{
    let Some(job) = queue.take(rt, seat) else {
        queue.wait_for_put(rt, seen);
        return false;
    };
    let settled = deliver(rt, alloc, office, gate, peers, clock, pass, steps, &job);
    queue.tell_end(rt);
    halts(halt, &settled)
}

/// Takes jobs, sends and settles them, until the queue is closed, or, with a flag to set, until the store refuses a
/// settlement. The job in hand is settled first, and then no further one is taken.
#[tactic(auto, using(crate::proofs::Delivering::sends_none, crate::proofs::Delivering::sends_both, crate::proofs::Halting::halts_none, crate::proofs::Halting::halts_then))]
pub fn send_loop<
    D: Desk + Drop,
    T: Trail<D>,
    L: Ledger,
    G: Gate,
    C: Clock,
    R: Wait + time::Clock + Log,
>(
    rt: &R,
    alloc: Global,
    office: &Office<D, T, L>,
    queue: &JobQueue,
    gate: &mut G,
    peers: &Peers,
    clock: &C,
    halt: Option<&AtomicBool>,
    mut pass: Pass<L>,
    mut seat: Seat,
    steps: &mut Steps,
) -> Ended<L>
    requires { IsSeatOf queue.now seat × (0 < (view seat).parts) }
    ensures takes { OnlyTakes seat result.seat }
    ensures sends { SendsTaken peers.now seat result.seat (G.exchanges gate.old) (G.exchanges gate.new) steps.old.items steps.new.items }
    ensures halts { HaltsByStep (is_some halt.entry) result.halted steps.old.items steps.new.items }
{
    for _ in rt.forever() {
        let Some(seen) = queue.puts(rt) else {
            return Ended {
                pass,
                seat,
                halted: false,
            };
        };
        let halted = send_next(
            rt, alloc, office, queue, gate, peers, clock, halt, &mut pass, &mut seat, steps, seen,
        );
        if halted {
            return Ended { pass, seat, halted };
        }
    }
    unreachable!()
}
