//! Senders work side by side, and outside the lock.
ghost use Rattle.std.specs.Prelude.{◌≡◌, ◌<◌};

use crate::clock::{Still, Ticks};
use crate::day::{Day, Meanwhile, UntilNoneWaits, run_day};
use crate::desk::{desk_of_jobs, empty_desk, ten, ven};
use crate::peer::{Peer, PeerGate, reply};
use crate::quiet::quiet;
use adr_book::{Office, Pass, RecordedTrail};
use adr_link::{HttpReply, LinkFault};
use adr_machine::{Command, Desk, PlainDesk};
use adr_text::{Moment, Refusal};
use adr_work::{JobQueue, Request, Steps, dispatch};
use std::alloc::Global;
use std::marker::Brand;
use std::sync::atomic::{AtomicU64, Ordering};
use std::sync::ledger::{Blank, Ledger};
use std::sync::{Arc, Wait};
use std::test::*;
use std::time::Duration;
use std::{thread, time};

/// What has happened so far.
struct Seen {
    /// Job 4 was sent.
    fourth: AtomicU64,
    /// A step was answered under the lock.
    step: AtomicU64,
    /// The gate gave up.
    tired: AtomicU64,
}

impl Drop for Seen {
    fn drop(self) {
        let Seen {
            fourth: _,
            step: _,
            tired: _,
        } = self;
    }
}

fn is_set(flag: &AtomicU64) -> bool {
    flag.load(Ordering::SeqCst) != 0
}

fn set(flag: &AtomicU64) {
    flag.store(1, Ordering::SeqCst);
}

/// How often the gate looks before it gives up.
const MOST_TURNS: u32 = 1_000_000;

/// How long it naps in between, in microseconds: so it gives up after a minute at least, however busy the processors are.
const NAP: u64 = 50;

// Waits for a flag; gives up in the end.
fn wait_for<R: Wait + time::Clock>(rt: &R, flag: &AtomicU64, tired: &AtomicU64) {
    for _ in 0..MOST_TURNS {
        if is_set(flag) {
            return;
        }
        thread::sleep(rt, Duration::from_micros(NAP));
    }
    set(tired);
}

/// Holds job 3, which is that of the first subscription, until job 4 was sent and a step was answered.
#[derive(Drop)]
struct Holding<T: Wait + time::Clock + Drop> {
    rt: T,
    alloc: Global,
    seen: Arc<Seen, Global>,
}

impl<T: Wait + time::Clock + Drop> Peer for Holding<T> {
    fn reply(&self, request: &Request) -> Result<HttpReply, LinkFault> {
        if request.bytes.as_slice().starts_with(b"POST /n1 ") {
            wait_for(&self.rt, &self.seen.fourth, &self.seen.tired);
            wait_for(&self.rt, &self.seen.step, &self.seen.tired);
        } else {
            set(&self.seen.fourth);
        }
        reply(self.alloc, 200, "")
    }
}

/// Takes a step under the lock, and then waits until no entry waits any more.
struct Enrolling {
    at: Moment,
    command: Command,
    seen: Arc<Seen, Global>,
}

impl Drop for Enrolling {
    fn drop(self) {
        let Enrolling {
            at: _,
            command: _,
            seen: _,
        } = self;
    }
}

impl Meanwhile for Enrolling {
    fn pass_time<D: Desk + Drop, L: Ledger, R: Wait + time::Clock>(
        &self,
        rt: &R,
        office: &Office<D, RecordedTrail, L>,
        pass: &mut Pass<L>,
    ) {
        let taken = office.book.lock(rt).step(pass, self.at, &self.command);
        if taken.is_ok() {
            set(&self.seen.step);
        }
        UntilNoneWaits.pass_time(rt, office, pass);
    }
}

fn gates<T: Wait + time::Clock + Copy + Drop>(
    rt: T,
    alloc: Global,
    seen: &Arc<Seen, Global>,
) -> Result<Vec<PeerGate<Holding<T>>>, Refusal> {
    let mut gates = Vec::new(alloc);
    for _ in 0..2u32 {
        let seen = Arc::try_clone(seen)?;
        gates.push(PeerGate::new(Holding { rt, alloc, seen }))?;
    }
    Ok(gates)
}

/// Row 24: two jobs for two subscriptions, and two senders on a gate that holds the first until the second was sent and
/// a ven was enrolled under the lock: both are sent.
#[test]
fn two_senders_side_by_side(rt: HostRuntime) -> Result<(), Fail> {
    let alloc = rt.alloc();
    let seen = Arc::new(
        alloc,
        Seen {
            fourth: AtomicU64::new(0),
            step: AtomicU64::new(0),
            tired: AtomicU64::new(0),
        },
    )?;
    let gates = gates(rt, alloc, &seen)?;
    assert_eq!(rt; gates.len(), 2);
    let enrolling = Enrolling {
        at: ten()?,
        command: ven(alloc, "alpha")?,
        seen: Arc::try_clone(&seen)?,
    };
    let desk = desk_of_jobs(alloc, 2)?;
    // Each time that the clock is read it is a second later.
    let clock = Ticks {
        since: ten()?,
        count: AtomicU64::new(0),
    };
    let Ok(
        Day {
            counts,
            left,
            turn: _,
        },
    ) = run_day::<Brand, _, _, _, _>(rt, alloc, Blank::new(4), desk, gates, clock, 2, &enrolling)
    else {
        panic!(rt; "the day was refused")
    };
    assert!(rt; !is_set(&seen.tired));
    assert!(rt; is_set(&seen.step));
    assert_eq!(rt; (counts.made, counts.sent, counts.pending), (2, 2, 0));
    assert_eq!(rt; left.len(), 0);
    Ok(())
}

// Whether a dispatch puts nothing into a queue.
fn puts_none<L: Ledger, R: Wait>(
    rt: &R,
    alloc: Global,
    blank: Blank,
    desk: PlainDesk,
    at: Moment,
) -> Result<bool, Refusal>
    requires { (blank.name ≡ L.name) × (blank.parts ≡ L.parts) × (blank.parts ≡ 1) }
{
    let (office, mut passes) = Office::<PlainDesk, RecordedTrail, L>::open(alloc, blank, desk, 1)?;
    let Some(mut pass) = passes.pop() else {
        unreachable!()
    };
    let (queue, mut seat) = JobQueue::new(alloc, 1)?;
    let clock = Still(at);
    let mut steps = Steps::new();
    dispatch(
        &quiet(rt),
        &office,
        &queue,
        &clock,
        &mut pass,
        &mut seat,
        &mut steps,
    )?;
    Ok(queue.take(rt, &mut seat).is_none())
}

// How many steps two dispatches take over a queue that holds one job and may be closed, while nobody takes it.
fn steps_of_two<L: Ledger, R: Wait>(
    rt: &R,
    alloc: Global,
    blank: Blank,
    desk: PlainDesk,
    at: Moment,
    is_closed: bool,
) -> Result<u64, Refusal>
    requires { (blank.name ≡ L.name) × (blank.parts ≡ L.parts) × (blank.parts ≡ 1) }
{
    let (office, mut passes) = Office::<PlainDesk, RecordedTrail, L>::open(alloc, blank, desk, 1)?;
    let Some(mut pass) = passes.pop() else {
        unreachable!()
    };
    let (queue, mut seat) = JobQueue::new(alloc, 1)?;
    if is_closed {
        queue.close(rt);
    }
    let clock = Still(at);
    let mut steps = Steps::new();
    dispatch(
        &quiet(rt),
        &office,
        &queue,
        &clock,
        &mut pass,
        &mut seat,
        &mut steps,
    )?;
    dispatch(
        &quiet(rt),
        &office,
        &queue,
        &clock,
        &mut pass,
        &mut seat,
        &mut steps,
    )?;
    Ok(office.book.lock(rt).turn())
}

/// Of three jobs one is leased, for which there is room, and no other while it is not taken.
#[test]
fn nothing_is_leased_for_a_full_queue(rt: HostRuntime) -> Result<(), Fail> {
    let alloc = rt.alloc();
    let desk = desk_of_jobs(alloc, 3)?;
    assert_eq!(rt;
        steps_of_two::<Brand, _>(&rt, alloc, Blank::new(1), desk, ten()?, false)?,
        1
    );
    Ok(())
}

/// A job that is leased and not put would wait for the end of its lease.
#[test]
fn nothing_is_leased_for_a_closed_queue(rt: HostRuntime) -> Result<(), Fail> {
    let alloc = rt.alloc();
    let desk = desk_of_jobs(alloc, 1)?;
    assert_eq!(rt;
        steps_of_two::<Brand, _>(&rt, alloc, Blank::new(1), desk, ten()?, true)?,
        0
    );
    Ok(())
}

/// Row 24: a dispatch over an empty outbox puts nothing.
#[test]
fn an_empty_outbox_puts_nothing(rt: HostRuntime) -> Result<(), Fail> {
    let alloc = rt.alloc();
    let desk = empty_desk(alloc)?;
    assert!(rt; puts_none::<Brand, _>(&rt, alloc, Blank::new(1), desk, ten()?)?);
    let desk = desk_of_jobs(alloc, 1)?;
    assert!(rt; !puts_none::<Brand, _>(&rt, alloc, Blank::new(1), desk, ten()?)?);
    Ok(())
}
