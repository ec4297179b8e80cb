//! Threads that run: one dispatcher and some senders, started and stopped together.
ghost use Rattle.std.specs.Prelude.{◌≡◌, ◌+◌, ◌<◌, ◌≤◌, [], IfOk, length};
ghost use Rattle.std.specs.Arc.{arc_value};
ghost use Rattle.crossbeam_queue.specs.Passes.{view};
ghost use Rattle.adr_work.specs.Fair.{hand, all_parts};
ghost use Rattle.adr_work.specs.Seats.{IsSeatOf, IsFresh, IsBack, IsShared};
ghost use Rattle.adr_work.specs.Crew.{threads_of, queue_of, IsWholeOf};

use crate::crew::{Ended, Halt, Handed, Stopped, Thread, Workers};
use crate::dispatcher::dispatch_loop;
use crate::gate::Gate;
use crate::peers::Peers;
use crate::queue::{JobQueue, Seat};
use crate::sender::send_loop;
use adr_book::{Office, Pass, Trail};
use adr_lock::{Clock, Steps};
use adr_machine::Desk;
use log::Log;
use std::alloc::{AllocError, Global};
use std::snapshot::Snapshot;
use std::sync::ledger::Ledger;
use std::sync::{Arc, Wait};
use std::thread::Threads;
use std::{thread, time};

/// The same flag, where there is one.
fn copy_of(halt: &Halt) -> Result<Halt, AllocError> {
    match halt {
        Some(flag) => Ok(Some(Arc::try_clone(flag)?)),
        None => Ok(None),
    }
}

/// Starts a sender.
fn sender<D, T, L, G, C, R>(
    rt: R,
    alloc: Global,
    office: &Arc<Office<D, T, L>, Global>,
    queue: &Arc<JobQueue, Global>,
    peers: &Arc<Peers, Global>,
    clock: &Arc<C, Global>,
    halt: &Halt,
    gate: G,
    pass: Pass<L>,
    seat: Seat,
) -> Result<Thread<L>, AllocError>
where
    D: Desk + Drop + Send + 'static,
    T: Trail<D> + Send + 'static,
    L: Ledger + Send + Sync + 'static,
    G: Gate + Drop + Send + 'static,
    C: Clock + Drop + Send + Sync + 'static,
    R: Threads + Wait + time::Clock + Log + Copy + Send + 'static,
    requires { IsFresh (arc_value queue.now) seat }
    ensures { IfOk result (λ t. t.promise.0.value ≡ seat) }
{
    let office = Arc::try_clone(office)?;
    let queue = Arc::try_clone(queue)?;
    let peers = Arc::try_clone(peers)?;
    let clock = Arc::try_clone(clock)?;
    let halt = copy_of(halt)?;
    let handed = Handed(Snapshot::of(&seat));
    let work = move || -> Ended<L>
        requires { IsFresh (arc_value queue) seat }
        ensures { IsBack seat result.seat }
    {
        let mut gate = gate;
        let mut steps = Steps::new();
        send_loop(
            &rt,
            alloc,
            &*office,
            &*queue,
            &mut gate,
            &*peers,
            &*clock,
            halt.as_deref(),
            pass,
            seat,
            &mut steps,
        )
    };
    Ok(thread::spawn_with(&rt, handed, work)?)
}

/// Starts a dispatcher.
fn dispatcher<D, T, L, C, R>(
    rt: R,
    office: &Arc<Office<D, T, L>, Global>,
    queue: &Arc<JobQueue, Global>,
    clock: &Arc<C, Global>,
    halt: &Halt,
    pass: Pass<L>,
    seat: Seat,
) -> Result<Thread<L>, AllocError>
where
    D: Desk + Drop + Send + 'static,
    T: Trail<D> + Send + 'static,
    L: Ledger + Send + Sync + 'static,
    C: Clock + Drop + Send + Sync + 'static,
    R: Threads + Wait + time::Clock + Log + Copy + Send + 'static,
    requires { IsFresh (arc_value queue.now) seat }
    ensures { IfOk result (λ t. t.promise.0.value ≡ seat) }
{
    let office = Arc::try_clone(office)?;
    let queue = Arc::try_clone(queue)?;
    let clock = Arc::try_clone(clock)?;
    let halt = copy_of(halt)?;
    let handed = Handed(Snapshot::of(&seat));
    let work = move || -> Ended<L>
        requires { IsFresh (arc_value queue) seat }
        ensures { IsBack seat result.seat }
    {
        let mut steps = Steps::new();
        dispatch_loop(
            &rt,
            &*office,
            &*queue,
            &*clock,
            halt.as_deref(),
            pass,
            seat,
            &mut steps,
        )
    };
    Ok(thread::spawn_with(&rt, handed, work)?)
}

/// Closes the queue and joins the threads.
fn abandon<L: Ledger, R: Threads + Wait>(rt: &R, queue: &JobQueue, threads: Vec<Thread<L>>) {
    let mut threads = threads;
    queue.close(rt);
    while let Some(thread) = threads.pop() {
        let _ = thread.join(rt);
    }
}

impl<L: Ledger> Workers<L> {
    /// Nobody works yet.
    fn none(alloc: Global, queue: JobQueue, whole: Seat) -> Result<Workers<L>, AllocError>
        requires { IsSeatOf queue whole × (view whole ≡ hand all_parts [] [] []) }
        ensures threads { IfOk result (λ w. threads_of w ≡ 0) }
        ensures queue { IfOk result (λ w. queue_of w ≡ queue) }
    {
        let queue = Arc::new(alloc, queue)?;
        Ok(Workers {
            queue,
            whole,
            threads: Vec::new(alloc),
        })
    }

    /// The same with one sender more; where its thread cannot be made, all are joined.
    fn with_sender<D, T, G, C, R>(
        self,
        rt: R,
        alloc: Global,
        office: &Arc<Office<D, T, L>, Global>,
        peers: &Arc<Peers, Global>,
        clock: &Arc<C, Global>,
        halt: &Halt,
        gate: G,
        pass: Pass<L>,
    ) -> Result<Workers<L>, AllocError>
    where
        D: Desk + Drop + Send + 'static,
        T: Trail<D> + Send + 'static,
        L: Send + Sync + 'static,
        G: Gate + Drop + Send + 'static,
        C: Clock + Drop + Send + Sync + 'static,
        R: Threads + Wait + time::Clock + Log + Copy + Send + 'static,
        requires { threads_of self < 60 }
        ensures threads { IfOk result (λ w. threads_of w ≡ threads_of self + 1) }
        ensures queue { IfOk result (λ w. queue_of w ≡ queue_of self) }
    {
        let Workers {
            queue,
            mut whole,
            mut threads,
        } = self;
        // There is room for the thread before it is made: one that is made is joined, come what may.
        if threads.reserve(1).is_err() {
            abandon(&rt, &queue, threads);
            return Err(AllocError);
        }
        let seat = queue.hand_out(&mut whole);
        let Ok(thread) = sender(
            rt, alloc, office, &queue, peers, clock, halt, gate, pass, seat,
        ) else {
            abandon(&rt, &queue, threads);
            return Err(AllocError);
        };
        threads.push_reserved(thread);
        Ok(Workers {
            queue,
            whole,
            threads,
        })
    }

    /// The same with a dispatcher; where its thread cannot be made, all are joined.
    fn with_dispatcher<D, T, C, R>(
        self,
        rt: R,
        office: &Arc<Office<D, T, L>, Global>,
        clock: &Arc<C, Global>,
        halt: &Halt,
        pass: Pass<L>,
    ) -> Result<Workers<L>, AllocError>
    where
        D: Desk + Drop + Send + 'static,
        T: Trail<D> + Send + 'static,
        L: Send + Sync + 'static,
        C: Clock + Drop + Send + Sync + 'static,
        R: Threads + Wait + time::Clock + Log + Copy + Send + 'static,
        requires { threads_of self < 60 }
        ensures threads { IfOk result (λ w. threads_of w ≡ threads_of self + 1) }
        ensures queue { IfOk result (λ w. queue_of w ≡ queue_of self) }
    {
        let Workers {
            queue,
            mut whole,
            mut threads,
        } = self;
        // There is room for the thread before it is made: one that is made is joined, come what may.
        if threads.reserve(1).is_err() {
            abandon(&rt, &queue, threads);
            return Err(AllocError);
        }
        let seat = queue.hand_out(&mut whole);
        let Ok(thread) = dispatcher(rt, office, &queue, clock, halt, pass, seat) else {
            abandon(&rt, &queue, threads);
            return Err(AllocError);
        };
        threads.push_reserved(thread);
        Ok(Workers {
            queue,
            whole,
            threads,
        })
    }
}

/// Starts a sender for each gate, and one dispatcher, each with a pass, and with the flag to halt by, where there is one.
/// Where a thread cannot be made, the queue is closed and those that were made are joined: that counts as want of memory.
pub fn start<D, T, L, G, C, R>(
    rt: R,
    alloc: Global,
    office: &Arc<Office<D, T, L>, Global>,
    queue: JobQueue,
    whole: Seat,
    peers: &Arc<Peers, Global>,
    clock: &Arc<C, Global>,
    passes: Vec<Pass<L>>,
    gates: Vec<G>,
    halt: Halt,
) -> Result<Workers<L>, AllocError>
where
    D: Desk + Drop + Send + 'static,
    T: Trail<D> + Send + 'static,
    L: Ledger + Send + Sync + 'static,
    G: Gate + Drop + Send + 'static,
    C: Clock + Drop + Send + Sync + 'static,
    R: Threads + Wait + time::Clock + Log + Copy + Send + 'static,
    requires queue { IsSeatOf queue whole × (view whole ≡ hand all_parts [] [] []) }
    requires gates { (0 < length gates.items) × (length gates.items ≤ 16) }
    requires passes { length passes.items ≡ length gates.items + 1 }
    ensures threads { IfOk result (λ w. threads_of w ≡ length passes.items) }
    ensures queue { IfOk result (λ w. queue_of w ≡ queue) }
{
    let mut passes = passes;
    let mut gates = gates;
    let mut workers = Workers::none(alloc, queue, whole)?;
    while let Some(gate) = gates.pop() {
        let Some(pass) = passes.pop() else {
            unreachable!()
        };
        workers = workers.with_sender(rt, alloc, office, peers, clock, &halt, gate, pass)?;
    }
    let Some(pass) = passes.pop() else {
        unreachable!()
    };
    workers.with_dispatcher(rt, office, clock, &halt, pass)
}

/// Closes the queue and joins the threads, each of which settles the job in its hands first. The jobs put are those
/// taken and those left, each as often as it was put. Tells whether one of them halted.
pub fn stop<L: Ledger, R: Threads + Wait>(
    rt: &R,
    alloc: Global,
    workers: Workers<L>,
) -> Result<Stopped<L>, AllocError>
    ensures passes { IfOk result (λ s. length s.passes.items ≡ threads_of workers) }
    ensures whole { IfOk result (λ s. IsWholeOf (queue_of workers) s.whole) }
    ensures jobs { IfOk result (λ s. IsShared (view s.whole).put (view s.whole).taken s.left.items) }
{
    let Workers {
        queue,
        mut whole,
        mut threads,
    } = workers;
    let Ok(mut passes) = Vec::with_capacity(alloc, threads.len()) else {
        abandon(rt, &queue, threads);
        return Err(AllocError);
    };
    queue.close(rt);
    let mut halted = false;
    while let Some(thread) = threads.pop() {
        let Ended {
            pass,
            seat,
            halted: this,
        } = thread.join(rt);
        queue.take_back(&mut whole, seat);
        passes.push_reserved(pass);
        halted |= this;
    }
    let left = queue.clear(rt, alloc, &mut whole)?;
    Ok(Stopped {
        whole,
        passes,
        left,
        halted,
    })
}
