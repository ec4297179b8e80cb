//! A day of an office with senders, from start to stop.
ghost use Rattle.std.specs.Prelude.{◌≡◌, ◌+◌, ◌<◌, ◌≤◌, length};

use crate::peer::peers;
use crate::quiet::quiet;
use adr_book::{Office, Pass, RecordedTrail};
use adr_delivery::Job;
use adr_machine::{Answer, Desk, PlainDesk, Query, Role};
use adr_objects::OutboxCounts;
use adr_text::Refusal;
use adr_work::{Clock, Gate, Halt, JobQueue, Stopped, start, stop};
use std::alloc::Global;
use std::sync::ledger::{Blank, Ledger};
use std::sync::{Arc, Wait};
use std::thread::Threads;
use std::time::Duration;
use std::{thread, time};

/// How often a thread of a test looks before it gives up, letting others run in between.
pub const MOST_LOOKS: u32 = 20_000_000;

/// How often a test looks before it gives up, with a nap in between: for some 50 seconds.
pub const MOST_NAPS: u32 = 50_000;

/// What there is at the end of a day.
#[derive(Drop)]
pub struct Day {
    pub counts: OutboxCounts,
    pub left: Vec<Job>,
    pub turn: u64,
}

/// How many entries the outbox had, and what came of them.
pub fn counts<D: Desk + Drop, L: Ledger, R: Wait>(
    rt: &R,
    office: &Office<D, RecordedTrail, L>,
    pass: &mut Pass<L>,
) -> Result<OutboxCounts, Refusal> {
    let query = Query::Outbox {
        role: Role::Operator,
    };
    let (_, answer) = office.book.lock(rt).look(pass, query)?;
    match &answer {
        Answer::Counts(counts) => Ok(*counts),
        _ => Err(Refusal::NotFound),
    }
}

// Waits until no entry waits any more. It goes by time and not by turns of its own: whoever dispatches may rest for a second.
fn until_none_waits<D: Desk + Drop, L: Ledger, R: Wait + time::Clock>(
    rt: &R,
    office: &Office<D, RecordedTrail, L>,
    pass: &mut Pass<L>,
) {
    for _ in 0..MOST_NAPS {
        match counts(rt, office, pass) {
            Ok(counts) if counts.pending == 0 => break,
            _ => thread::sleep(rt, Duration::from_millis(1)),
        }
    }
}

/// What the one who waits does while the others work.
pub trait Meanwhile {
    fn pass_time<D: Desk + Drop, L: Ledger, R: Wait + time::Clock>(
        &self,
        rt: &R,
        office: &Office<D, RecordedTrail, L>,
        pass: &mut Pass<L>,
    );
}

/// Waits until no entry waits any more.
#[derive(Clone, Copy, Drop)]
pub struct UntilNoneWaits;

impl Meanwhile for UntilNoneWaits {
    fn pass_time<D: Desk + Drop, L: Ledger, R: Wait + time::Clock>(
        &self,
        rt: &R,
        office: &Office<D, RecordedTrail, L>,
        pass: &mut Pass<L>,
    ) {
        until_none_waits(rt, office, pass);
    }
}

/// A day of a desk with a sender for each gate, over a queue of that capacity. All passes come back, and their shares are
/// the turn.
pub fn run_day<L, G, C, M, R>(
    rt: R,
    alloc: Global,
    blank: Blank,
    desk: PlainDesk,
    gates: Vec<G>,
    clock: C,
    capacity: usize,
    meanwhile: &M,
) -> Result<Day, Refusal>
where
    L: Ledger + Send + Sync + 'static,
    G: Gate + Drop + Send + 'static,
    C: Clock + Drop + Send + Sync + 'static,
    M: Meanwhile,
    R: Threads + Wait + time::Clock + Copy + Send + 'static,
    requires name { blank.name ≡ L.name }
    requires parts { (blank.parts ≡ L.parts) × (blank.parts ≡ length gates.items + 2) }
    requires gates { (0 < length gates.items) × (length gates.items ≤ 16) }
    requires room { (0 < capacity) × (capacity ≤ 64) }
{
    let (day, _) = run_with::<L, PlainDesk, G, C, M, R>(
        rt, alloc, blank, desk, gates, clock, capacity, None, meanwhile,
    )?;
    Ok(day)
}

/// The same of any desk, with the flag to halt by, where there is one; and whether a thread halted.
pub fn run_with<L, D, G, C, M, R>(
    rt: R,
    alloc: Global,
    blank: Blank,
    desk: D,
    gates: Vec<G>,
    clock: C,
    capacity: usize,
    halt: Halt,
    meanwhile: &M,
) -> Result<(Day, bool), Refusal>
where
    L: Ledger + Send + Sync + 'static,
    D: Desk + Drop + Send + 'static,
    G: Gate + Drop + Send + 'static,
    C: Clock + Drop + Send + Sync + 'static,
    M: Meanwhile,
    R: Threads + Wait + time::Clock + Copy + Send + 'static,
    requires name { blank.name ≡ L.name }
    requires parts { (blank.parts ≡ L.parts) × (blank.parts ≡ length gates.items + 2) }
    requires gates { (0 < length gates.items) × (length gates.items ≤ 16) }
    requires room { (0 < capacity) × (capacity ≤ 64) }
{
    let (office, mut passes) = Office::<D, RecordedTrail, L>::open(
        alloc,
        blank,
        desk,
        gates.len() as u32 + 2,
    )?;
    let Some(mut mine) = passes.pop() else {
        unreachable!()
    };
    let office = Arc::new(alloc, office)?;
    let clock = Arc::new(alloc, clock)?;
    let (queue, whole) = JobQueue::new(alloc, capacity)?;
    let workers = start(
        quiet(rt),
        alloc,
        &office,
        queue,
        whole,
        &peers(alloc)?,
        &clock,
        passes,
        gates,
        halt,
    )?;
    meanwhile.pass_time(&rt, &office, &mut mine);
    let Stopped {
        whole: _,
        mut passes,
        left,
        halted,
    } = stop(&rt, alloc, workers)?;
    let counts = counts(&rt, &office, &mut mine)?;
    passes.push(mine)?;
    let Some(office) = Arc::into_inner(office) else {
        return Err(Refusal::Store);
    };
    let day = Day {
        counts,
        left,
        turn: office.gather(passes),
    };
    Ok((day, halted))
}
