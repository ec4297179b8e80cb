//! A bounded queue of jobs, over a rule that counts them. What a thread put and took stands in its seat, which has no bytes.
ghost use Rattle.std.specs.Prelude.{◌≡◌, ◌+◌, ◌-◌, ◌<◌, ◌≤◌, [], ◌∷◌, ◌++◌, IfOk, MatchOption, MatchResult};
ghost use Rattle.crossbeam_queue.specs.Passes.{view, IsSamePass};
ghost use Rattle.adr_work.specs.Fair.{hand, all_parts};
ghost use Rattle.adr_work.specs.Seats.{capacity_of, IsSeatOf, IsShared};

use crate::hand::Hand;
use crate::rule::{Clears, Cut, Fair, Puts, Takes};
use adr_delivery::Job;
use crossbeam_queue::{Pass, RuledArrayQueue};
use std::alloc::{AllocError, Global};
use std::sync::{Condvar, Mutex, Wait};
use std::time;
use std::time::Duration;

type Ring = RuledArrayQueue<Job, Hand, Fair>;

/// What one thread knows of the queue.
pub type Seat = Pass<Job, Hand>;

/// How long who dispatches waits at most before it looks again, in seconds.
const LONGEST_REST: u64 = 1;

/// What happened to the queue so far. The counts wrap: that one has changed is all that is asked of it.
#[derive(Drop)]
struct Moves {
    /// How many jobs were put.
    puts: u64,
    /// How many jobs were taken, and how many of them were settled.
    ends: u64,
    closed: bool,
}

/// A queue for one thread that puts jobs and some that take them.
#[derive(Drop)]
pub struct JobQueue {
    ring: Ring,
    moves: Mutex<Moves>,
    moved: Condvar,
}

impl JobQueue {
    /// An open queue for so many jobs, and the seat with all parts.
    pub fn new(alloc: Global, capacity: usize) -> Result<(JobQueue, Seat), AllocError>
        requires { (0 < capacity) × (capacity ≤ 64) }
        ensures seat { IfOk result (λ r. IsSeatOf r.0 r.1 × (view r.1 ≡ hand all_parts [] [] [])) }
        ensures capacity { IfOk result (λ r. capacity_of r.0 ≡ capacity) }
    {
        let (ring, seat) = Ring::ruled(alloc, capacity)?;
        let moves = Mutex::new(Moves {
            puts: 0,
            ends: 0,
            closed: false,
        });
        let queue = JobQueue {
            ring,
            moves,
            moved: Condvar::new(),
        };
        Ok((queue, seat))
    }

    /// A seat for one thread more.
    pub fn hand_out(&self, whole: &mut Seat) -> Seat
        requires { IsSeatOf self.now whole.old × (1 < (view whole.old).parts) }
        ensures new { IsSeatOf self.now result × (view result ≡ hand 1 [] [] []) }
        ensures rest { IsSamePass whole.old whole.new × (view whole.new ≡ hand ((view whole.old).parts - 1) (view whole.old).put (view whole.old).taken (view whole.old).left) }
    {
        self.ring.another::<Cut>(whole)
    }

    /// Takes the seat of a thread back, with what it put and took.
    pub fn take_back(&self, whole: &mut Seat, seat: Seat)
        requires { IsSeatOf self.now whole.old × IsSeatOf self.now seat × (0 < (view whole.old).parts) }
        ensures same { IsSamePass whole.old whole.new }
        ensures both { view whole.new ≡ hand ((view whole.old).parts + (view seat).parts) ((view whole.old).put ++ (view seat).put) ((view whole.old).taken ++ (view seat).taken) ((view whole.old).left ++ (view seat).left) }
    {
        self.ring.absorb::<Cut>(whole, seat)
    }

    /// Puts a job, or hands it back where the queue was full.
    pub fn put<R: Wait>(&self, rt: &R, seat: &mut Seat, job: Job) -> Result<(), Job>
        requires { IsSeatOf self.now seat.old × (0 < (view seat.old).parts) }
        ensures same { IsSamePass seat.old seat.new }
        ensures put { MatchResult result
            (λ _. view seat.new ≡ hand (view seat.old).parts ((view seat.old).put ++ job ∷ []) (view seat.old).taken (view seat.old).left)
            (λ back. (back ≡ job) × (view seat.new ≡ view seat.old)) }
    {
        let done = self.ring.push_as::<Puts, R>(rt, seat, job);
        self.tell_put(rt);
        done
    }

    /// Takes a job, or finds none. The ring gives the one that lay in it longest, which no clause says.
    pub fn take<R: Wait>(&self, rt: &R, seat: &mut Seat) -> Option<Job>
        requires { IsSeatOf self.now seat.old × (0 < (view seat.old).parts) }
        ensures same { IsSamePass seat.old seat.new }
        ensures taken { MatchOption result
            (view seat.new ≡ view seat.old)
            (λ job. view seat.new ≡ hand (view seat.old).parts (view seat.old).put ((view seat.old).taken ++ job ∷ []) (view seat.old).left) }
    {
        let job = self.ring.pop_as::<Takes, R>(rt, seat)?;
        self.tell_end(rt);
        Some(job)
    }

    /// Whether the queue was full. No other thread but the one that puts fills it.
    pub fn is_full(&self, seat: &mut Seat) -> bool
        requires { IsSeatOf self.now seat.old }
        ensures { IsSamePass seat.old seat.new × (view seat.new ≡ view seat.old) }
    {
        self.ring.is_full_as::<Puts>(seat)
    }

    /// The jobs that are left once all seats are back: with those taken, they are the jobs put, each as often as it was put.
    pub fn clear<R: Wait>(
        &self,
        rt: &R,
        alloc: Global,
        whole: &mut Seat,
    ) -> Result<Vec<Job>, AllocError>
        requires { IsSeatOf self.now whole.old × ((view whole.old).parts ≡ all_parts) × ((view whole.old).left ≡ []) }
        ensures jobs { IfOk result (λ left. IsShared (view whole.old).put (view whole.old).taken left.items) }
        ensures whole { IfOk result (λ left. view whole.new ≡ hand all_parts (view whole.old).put (view whole.old).taken left.items) }
        ensures same { IsSamePass whole.old whole.new }
    {
        let mut left = Vec::new(alloc);
        for _ in rt.forever() {
            left.reserve(1)?;
            let Some(job) = self.ring.pop_as::<Clears, R>(rt, whole) else {
                return Ok(left);
            };
            left.push_reserved(job);
        }
        unreachable!()
    }

    /// Counts a job that was put, and wakes those who wait for one.
    fn tell_put<R: Wait>(&self, rt: &R) {
        let mut moves = self.moves.lock(rt);
        moves.puts = moves.puts.wrapping_add(1);
        self.moved.notify_all();
    }

    /// Counts a job that was taken or settled, and wakes who dispatches: there may be room, and another entry of its
    /// destination may be due.
    pub fn tell_end<R: Wait>(&self, rt: &R) {
        let mut moves = self.moves.lock(rt);
        moves.ends = moves.ends.wrapping_add(1);
        self.moved.notify_all();
    }

    /// From now on no job is to be put or taken.
    pub fn close<R: Wait>(&self, rt: &R) {
        self.moves.lock(rt).closed = true;
        self.moved.notify_all();
    }

    /// Whether the queue was closed.
    pub fn is_closed<R: Wait>(&self, rt: &R) -> bool {
        self.moves.lock(rt).closed
    }

    /// What who takes jobs remembers before it looks for one. None once the queue is closed.
    pub fn puts<R: Wait>(&self, rt: &R) -> Option<u64> {
        let moves = self.moves.lock(rt);
        if moves.closed { None } else { Some(moves.puts) }
    }

    /// Waits until a job was put since then, or the queue is closed.
    pub fn wait_for_put<R: Wait>(&self, rt: &R, seen: u64) {
        let _ = self.moved.wait_while(rt, self.moves.lock(rt), |moves| {
            moves.puts == seen && !moves.closed
        });
    }

    /// What who dispatches remembers before it does. None once the queue is closed.
    pub fn ends<R: Wait>(&self, rt: &R) -> Option<u64> {
        let moves = self.moves.lock(rt);
        if moves.closed { None } else { Some(moves.ends) }
    }

    /// Waits until a job was taken or settled since then, or the queue is closed, and at most a second.
    pub fn wait_for_end<R: Wait + time::Clock>(&self, rt: &R, seen: u64) {
        let moves = self.moves.lock(rt);
        if moves.ends == seen && !moves.closed {
            let rest = Duration::from_secs(LONGEST_REST);
            let _ = self.moved.wait_timeout(rt, moves, rest);
        }
    }
}
