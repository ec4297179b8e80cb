//! Workers over a store that refuses one call: with a flag to set they set it and end, and without one they go on.
ghost use Rattle.std.specs.Prelude.{◌≡◌};

use crate::clock::Still;
use crate::day::{Day, MOST_NAPS, Meanwhile, UntilNoneWaits, counts, run_with};
use crate::desk::{desk_of_jobs, empty_desk, ten};
use crate::peer::{Peer, PeerGate, peers, reply};
use crate::quiet::quiet;
use adr_book::{Office, Pass, RecordedTrail};
use adr_link::{HttpReply, LinkFault};
use adr_machine::Desk;
use adr_text::Refusal;
use adr_work::{Halt, Polled, Request, Steps, poll_loop};
use ailing_desk::{Ailing, Refused};
use std::alloc::Global;
use std::marker::Brand;
use std::sync::atomic::{AtomicBool, AtomicU64, Ordering};
use std::sync::ledger::{Blank, Ledger};
use std::sync::{Arc, Wait};
use std::test::*;
use std::thread::Threads;
use std::time::Duration;
use std::{thread, time};

/// Takes whatever comes.
#[derive(Clone, Copy, Drop)]
struct Taking {
    alloc: Global,
}

impl Peer for Taking {
    fn reply(&self, _request: &Request) -> Result<HttpReply, LinkFault> {
        reply(self.alloc, 200, "")
    }
}

/// Waits until the flag is set and so many steps were accepted.
#[derive(Drop)]
struct UntilSet {
    flag: Arc<AtomicBool, Global>,
    turn: u64,
}

impl Meanwhile for UntilSet {
    fn pass_time<D: Desk + Drop, L: Ledger, R: Wait + time::Clock>(
        &self,
        rt: &R,
        office: &Office<D, RecordedTrail, L>,
        _pass: &mut Pass<L>,
    ) {
        for _ in 0..MOST_NAPS {
            if self.flag.load(Ordering::SeqCst) && self.turn <= office.book.lock(rt).turn() {
                break;
            }
            thread::sleep(rt, Duration::from_millis(1));
        }
    }
}

/// Waits until an entry was sent.
#[derive(Clone, Copy, Drop)]
struct UntilSent;

impl Meanwhile for UntilSent {
    fn pass_time<D: Desk + Drop, L: Ledger, R: Wait + time::Clock>(
        &self,
        rt: &R,
        office: &Office<D, RecordedTrail, L>,
        pass: &mut Pass<L>,
    ) {
        for _ in 0..MOST_NAPS {
            match counts(rt, office, pass) {
                Ok(counts) if counts.sent == 1 => break,
                _ => thread::sleep(rt, Duration::from_millis(1)),
            }
        }
    }
}

// A day with two jobs and one sender, over a store that refuses such a call once; and whether a thread halted.
fn day_of<M, R>(
    rt: R,
    alloc: Global,
    refused: Refused,
    halt: Halt,
    meanwhile: &M,
) -> Result<(Day, bool), Refusal>
where
    M: Meanwhile,
    R: Threads + Wait + time::Clock + Copy + Send + 'static,
{
    let desk = Ailing::new(desk_of_jobs(alloc, 2)?, refused);
    let mut gates = Vec::new(alloc);
    gates.push(PeerGate::new(Taking { alloc }))?;
    run_with::<Brand, _, _, _, _, _>(
        rt,
        alloc,
        Blank::new(3),
        desk,
        gates,
        Still(ten()?),
        2,
        halt,
        meanwhile,
    )
}

// The same with a flag, until that is set and so many steps were accepted: what there is then, and whether it is set and a
// thread halted.
fn halted_day<R>(rt: R, alloc: Global, refused: Refused, turn: u64) -> Result<(Day, bool), Refusal>
where
    R: Threads + Wait + time::Clock + Copy + Send + 'static,
{
    let flag = Arc::new(alloc, AtomicBool::new(false))?;
    let until = UntilSet {
        flag: Arc::try_clone(&flag)?,
        turn,
    };
    let (day, halted) = day_of(rt, alloc, refused, Some(Arc::try_clone(&flag)?), &until)?;
    Ok((day, halted && flag.load(Ordering::SeqCst)))
}

/// How many entries were sent and wait, and how many jobs are left in the queue.
fn told(day: &Day) -> (u64, u64, usize) {
    (day.counts.sent, day.counts.pending, day.left.len())
}

/// A sender whose settlement the store refuses takes no further job; without a flag it does.
#[test]
fn a_sender_that_the_store_refuses(rt: HostRuntime) -> Result<(), Fail> {
    let alloc = rt.alloc();
    // Both jobs are leased; one is in the queue.
    let (day, halted) = halted_day(rt, alloc, Refused::Sent, 2)?;
    assert!(rt; halted);
    assert_eq!(rt; told(&day), (0, 2, 1));
    let (day, halted) = day_of(rt, alloc, Refused::Sent, None, &UntilSent)?;
    assert!(rt; !halted);
    assert_eq!(rt; told(&day), (1, 1, 0));
    Ok(())
}

/// A dispatcher that the store refuses a lease asks for no further one; without a flag it does.
#[test]
fn a_dispatcher_that_the_store_refuses(rt: HostRuntime) -> Result<(), Fail> {
    let alloc = rt.alloc();
    let (day, halted) = halted_day(rt, alloc, Refused::Leases, 0)?;
    assert!(rt; halted);
    assert_eq!(rt; day.turn, 0);
    assert_eq!(rt; told(&day), (0, 2, 0));
    let (day, halted) = day_of(rt, alloc, Refused::Leases, None, &UntilNoneWaits)?;
    assert!(rt; !halted);
    assert_eq!(rt; told(&day), (2, 0, 0));
    Ok(())
}

/// The same of a look, by which it asks for no lease.
#[test]
fn a_look_that_the_store_refuses(rt: HostRuntime) -> Result<(), Fail> {
    let alloc = rt.alloc();
    let (day, halted) = halted_day(rt, alloc, Refused::Looks, 0)?;
    assert!(rt; halted);
    assert_eq!(rt; day.turn, 0);
    assert_eq!(rt; told(&day), (0, 2, 0));
    Ok(())
}

/// The utility, which has nothing; it stops the rounds as soon as it is asked.
#[derive(Drop)]
struct Stopping {
    alloc: Global,
    asked: Arc<AtomicU64, Global>,
    stopped: Arc<AtomicBool, Global>,
}

impl Peer for Stopping {
    fn reply(&self, _request: &Request) -> Result<HttpReply, LinkFault> {
        self.asked.fetch_add(1, Ordering::SeqCst);
        self.stopped.store(true, Ordering::SeqCst);
        reply(self.alloc, 200, "[]")
    }
}

// Whether a poller halts whose store refuses the first beginning of a scan, and how often it asked the utility by its end.
fn polled<L: Ledger, R: Wait + time::Clock>(
    rt: &R,
    alloc: Global,
    blank: Blank,
    halt: Option<&AtomicBool>,
) -> Result<(bool, u64), Refusal>
    requires { (blank.name ≡ L.name) × (blank.parts ≡ L.parts) × (blank.parts ≡ 1) }
{
    let desk = Ailing::new(empty_desk(alloc)?, Refused::Scans);
    let (office, mut passes) = Office::<Ailing, RecordedTrail, L>::open(alloc, blank, desk, 1)?;
    let Some(pass) = passes.pop() else {
        unreachable!()
    };
    let asked = Arc::new(alloc, AtomicU64::new(0))?;
    let stopped = Arc::new(alloc, AtomicBool::new(false))?;
    let mut gate = PeerGate::new(Stopping {
        alloc,
        asked: Arc::try_clone(&asked)?,
        stopped: Arc::try_clone(&stopped)?,
    });
    let peers = peers(alloc)?;
    let mut steps = Steps::new();
    let Polled { pass: _, halted } = poll_loop(
        &quiet(rt),
        alloc,
        &office,
        &mut gate,
        &peers.upstream,
        &Still(ten()?),
        0,
        &*stopped,
        halt,
        pass,
        &mut steps,
    );
    Ok((halted, asked.load(Ordering::SeqCst)))
}

/// A poller whose command the store refuses begins no further round; without a flag it does.
#[test]
fn a_poller_that_the_store_refuses(rt: HostRuntime) -> Result<(), Fail> {
    let alloc = rt.alloc();
    let flag = AtomicBool::new(false);
    assert_eq!(rt;
        polled::<Brand, _>(&rt, alloc, Blank::new(1), Some(&flag))?,
        (true, 0)
    );
    assert!(rt; flag.load(Ordering::SeqCst));
    // A page of programs, and one of events.
    assert_eq!(rt;
        polled::<Brand, _>(&rt, alloc, Blank::new(1), None)?,
        (false, 2)
    );
    Ok(())
}
