//! What the dispatcher does: it leases what is due, a job at a time, and puts it into the queue.
ghost use Rattle.std.specs.Prelude.{◌≡◌, ◌<◌, IfErr, is_some};
ghost use Rattle.crossbeam_queue.specs.Passes.{view};
ghost use Rattle.adr_machine.specs.declared.command.Command.TheVariants.{Lease};
ghost use Rattle.adr_book.specs.Refused.{MayRefuse};
ghost use Rattle.adr_book.specs.Words.{seen_by};
ghost use Rattle.adr_lock.specs.Halting.{by_store, EndsByStore, HaltsByCall};
ghost use Rattle.adr_work.specs.Leased.{LeasesOnce, OnlyLeases};
ghost use Rattle.adr_work.specs.Seats.{IsSeatOf, OnlyPuts};
ghost use Rattle.adr_work.specs.Waiting.{may_wait};

use crate::crew::Ended;
use crate::leased::job_in;
use crate::queue::{JobQueue, Seat};
use adr_book::{Office, Pass, Trail};
use adr_delivery::Job;
use adr_lock::{Call, Clock, Steps, halts, take_under_lock};
use adr_machine::{Answer, Command, Desk, Query, Role};
use adr_text::Refusal;
use log::Log;
use std::sync::Wait;
use std::sync::atomic::AtomicBool;
use std::sync::ledger::Ledger;
use std::time;

/// Leases the next entry, where one is due at the clock's moment, by one step under the lock.
#[tactic(auto, using(crate::proofs::Refusing::may_refuse_same, crate::proofs::Leasing::leases_ok, crate::proofs::Leasing::leases_err))]
pub(crate) fn lease<D: Desk + Drop, T: Trail<D>, L: Ledger, C: Clock, R: Wait + Log>(
    rt: &R,
    office: &Office<D, T, L>,
    clock: &C,
    pass: &mut Pass<L>,
    steps: &mut Steps,
) -> Result<Option<Job>, Refusal>
    ensures once { LeasesOnce steps.old.items steps.new.items result }
    ensures ends { EndsByStore (by_store result) steps.old.items steps.new.items }
    ensures refusal { IfErr result (MayRefuse D.may_refuse (seen_by pass.new) Lease) }
{
    let answer = take_under_lock(rt, office, clock, pass, steps, Call::Step(&Command::Lease))?;
    Ok(job_in(&answer)?)
}

/// Leases jobs and puts each into the queue, outside the lock, while the queue is open and has room and a job is due. A
/// refusal ends it and is handed back. A job that was leased and cannot be put is left: its lease expires.
#[tactic(auto, using(crate::proofs::Leasing::leases_none, crate::proofs::Leasing::leases_more, crate::proofs::Halting::ends_none, crate::proofs::Halting::ends_both))]
pub fn dispatch<D: Desk + Drop, T: Trail<D>, L: Ledger, C: Clock, R: Wait + Log>(
    rt: &R,
    office: &Office<D, T, L>,
    queue: &JobQueue,
    clock: &C,
    pass: &mut Pass<L>,
    seat: &mut Seat,
    steps: &mut Steps,
) -> Result<(), Refusal>
    requires { IsSeatOf queue.now seat.old × (0 < (view seat.old).parts) }
    ensures puts { OnlyPuts seat.old seat.new }
    ensures leases { OnlyLeases steps.old.items steps.new.items }
    ensures ends { EndsByStore (by_store result) steps.old.items steps.new.items }
    ensures refusal { IfErr result (MayRefuse D.may_refuse (seen_by pass.new) Lease) }
{
    for _ in rt.forever() {
        if queue.is_closed(rt) || queue.is_full(seat) {
            return Ok(());
        }
        let Some(job) = lease(rt, office, clock, pass, steps)? else {
            return Ok(());
        };
        let _ = queue.put(rt, seat, job);
    }
    unreachable!()
}

/// Whether an entry may wait, by what was answered to a look at the outbox. Where that is refused, one may.
fn may_wait(looked: &Result<Answer, Refusal>) -> bool
    ensures { result ≡ may_wait looked.now }
{
    match looked {
        Ok(Answer::Counts(counts)) => 0 < counts.pending,
        _ => true,
    }
}

/// Looks at the outbox. It takes no turn, as a lease does that finds none.
fn look<D: Desk + Drop, T: Trail<D>, L: Ledger, C: Clock, R: Wait + Log>(
    rt: &R,
    office: &Office<D, T, L>,
    clock: &C,
    pass: &mut Pass<L>,
    steps: &mut Steps,
) -> Result<Answer, Refusal>
    ensures { steps.new.items ≡ steps.old.items }
{
    let query = Query::Outbox {
        role: Role::Operator,
    };
    take_under_lock(rt, office, clock, pass, steps, Call::Look(&query))
}

/// Dispatches where an entry may wait. Answers whether the dispatcher halts, by the look or by a lease that the store
/// refused; any other refusal is passed over.
#[tactic(auto, using(crate::proofs::Leasing::leases_none, crate::proofs::Halting::calls_none, crate::proofs::Halting::calls_looked, crate::proofs::Halting::calls_one))]
fn dispatch_next<D: Desk + Drop, T: Trail<D>, L: Ledger, C: Clock, R: Wait + Log>(
    rt: &R,
    office: &Office<D, T, L>,
    queue: &JobQueue,
    clock: &C,
    halt: Option<&AtomicBool>,
    pass: &mut Pass<L>,
    seat: &mut Seat,
    steps: &mut Steps,
) -> bool
    requires { IsSeatOf queue.now seat.old × (0 < (view seat.old).parts) }
    ensures puts { OnlyPuts seat.old seat.new }
    ensures leases { OnlyLeases steps.old.items steps.new.items }
    ensures halts { HaltsByCall (is_some halt.entry) result steps.old.items steps.new.items }
{
    let looked = look(rt, office, clock, pass, steps);
    if halts(halt, &looked) {
        return true;
    }
    if !may_wait(&looked) {
        return false;
    }
    let dispatched = dispatch(rt, office, queue, clock, pass, seat, steps);
    halts(halt, &dispatched)
}

/// Dispatches again after each job that was taken or settled, and at least once a second, until the queue is closed, where
/// an entry waits; or, with a flag to set, until the store refuses a look or a lease. Any other refusal is passed over.
#[tactic(auto, using(crate::proofs::Leasing::leases_none, crate::proofs::Leasing::leases_both, crate::proofs::Halting::calls_none, crate::proofs::Halting::calls_then))]
pub fn dispatch_loop<D: Desk + Drop, T: Trail<D>, L: Ledger, C: Clock, R: Wait + time::Clock + Log>(
    rt: &R,
    office: &Office<D, T, L>,
    queue: &JobQueue,
    clock: &C,
    halt: Option<&AtomicBool>,
    mut pass: Pass<L>,
    mut seat: Seat,
    steps: &mut Steps,
) -> Ended<L>
    requires { IsSeatOf queue.now seat × (0 < (view seat).parts) }
    ensures puts { OnlyPuts seat result.seat }
    ensures leases { OnlyLeases steps.old.items steps.new.items }
    ensures halts { HaltsByCall (is_some halt.entry) result.halted steps.old.items steps.new.items }
{
    for _ in rt.forever() {
        let Some(seen) = queue.ends(rt) else {
            return Ended {
                pass,
                seat,
                halted: false,
            };
        };
        let halted = dispatch_next(rt, office, queue, clock, halt, &mut pass, &mut seat, steps);
        if halted {
            return Ended { pass, seat, halted };
        }
        queue.wait_for_end(rt, seen);
    }
    unreachable!()
}
