//! The threads of a queue. What they do stands in other files, whose clauses cite definitions over these types.
ghost use Rattle.std.specs.Prelude.{◌≡◌, ◌+◌, ◌<◌, [], All, length};
ghost use Rattle.std.specs.Arc.{arc_value};
ghost use Rattle.crossbeam_queue.specs.Passes.{view};
ghost use Rattle.adr_work.specs.Fair.{all_parts};
ghost use Rattle.adr_work.specs.Seats.{IsSeatOf, IsFresh};

use crate::queue::{JobQueue, Seat};
use adr_book::Pass;
use adr_delivery::Job;
use std::alloc::Global;
use std::snapshot::Snapshot;
use std::sync::Arc;
use std::sync::atomic::AtomicBool;
use std::sync::ledger::Ledger;
use std::thread::{Promise, PromisedHandle};

/// The flag that a thread sets where the store refuses it, and ends: over a file. With none it goes on.
pub type Halt = Option<Arc<AtomicBool, Global>>;

/// What a thread hands back as it ends.
#[derive(Drop)]
pub struct Ended<L: Ledger> {
    pub pass: Pass<L>,
    pub seat: Seat,
    /// Whether it ended because the store refused.
    pub halted: bool,
}

/// The seat as a thread was handed it. The thread hands it back with all its parts.
#[derive(Drop)]
pub struct Handed(pub(crate) Snapshot<Seat>);

impl<L: Ledger> Promise<Ended<L>> for Handed {
    ghost use Rattle.adr_work.specs.Seats.{IsBack};

    ghost kept_by = { λ p r. IsBack p.0.value r.seat };
}

/// A thread that has a seat and a pass.
pub type Thread<L> = PromisedHandle<Ended<L>, Handed>;

/// The threads of a queue, and the seat with the parts that none of them has.
#[derive(Drop)]
pub struct Workers<L: Ledger> {
    pub(crate) queue: Arc<JobQueue, Global>,
    pub(crate) whole: Seat,
    pub(crate) threads: Vec<Thread<L>>,
    ghost seat: { IsSeatOf (arc_value queue) whole },
    ghost nothing: { (view whole).left ≡ [] },
    ghost parts: { (view whole).parts + length threads.items ≡ all_parts },
    ghost some: { 0 < (view whole).parts },
    ghost handed: { All (λ t. IsFresh (arc_value queue) t.promise.0.value) threads.items },
}

/// What is left when all threads have ended.
#[derive(Drop)]
pub struct Stopped<L: Ledger> {
    pub whole: Seat,
    /// The passes of the threads.
    pub passes: Vec<Pass<L>>,
    /// The jobs that were put and not taken.
    pub left: Vec<Job>,
    /// Whether a thread ended because the store refused. No clause says so: what a thread hands back is promised of its
    /// seat alone.
    pub halted: bool,
}
