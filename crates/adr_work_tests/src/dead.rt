//! A day with one sender, twenty destinations that are dead, and one that is healthy.
ghost use Rattle.std.specs.Prelude.{◌≡◌};

use crate::clock::{Moving, Seconds};
use crate::day::{Day, UntilNoneWaits, run_day};
use crate::desk::{desk_of_jobs, ten};
use crate::peer::{Peer, PeerGate, reply};
use adr_link::{HttpReply, LinkFault};
use adr_text::Refusal;
use adr_work::{ROOM, Request};
use std::alloc::Global;
use std::marker::Brand;
use std::sync::atomic::{AtomicU64, Ordering};
use std::sync::ledger::Blank;
use std::sync::{Arc, Wait};
use std::test::*;
use std::time::Duration;
use std::{thread, time};

/// How many subscriptions there are.
const ALL: u64 = 21;

/// What is sent to the destination that is healthy: that of the last of them.
const TO_HEALTHY: &[u8] = b"POST /n21 HTTP/1.1\r\n";

/// How many destinations are dead.
const DEAD: u64 = 20;

/// How many seconds pass while a job is sent, and between two readings of the clock.
const STEP: u64 = 2;

/// How often the healthy destination was called, and dead ones.
#[derive(Drop)]
struct Called {
    healthy: AtomicU64,
    dead: AtomicU64,
}

/// How long a call takes in truth, in milliseconds: whoever dispatches fills the queue meanwhile.
const NAP: u64 = 3;

/// One healthy destination, which is that of the last subscription; each call takes its time.
#[derive(Drop)]
struct OneHealthy<T: Wait + time::Clock + Drop> {
    rt: T,
    alloc: Global,
    seconds: Arc<Seconds, Global>,
    called: Arc<Called, Global>,
}

impl<T: Wait + time::Clock + Drop> Peer for OneHealthy<T> {
    fn reply(&self, request: &Request) -> Result<HttpReply, LinkFault> {
        thread::sleep(&self.rt, Duration::from_millis(NAP));
        self.seconds.pass(STEP);
        if request.bytes.as_slice().starts_with(TO_HEALTHY) {
            self.called.healthy.fetch_add(1, Ordering::SeqCst);
            return reply(self.alloc, 204, "");
        }
        self.called.dead.fetch_add(1, Ordering::SeqCst);
        Err(LinkFault::Read)
    }
}

fn gates<T: Wait + time::Clock + Copy + Drop>(
    rt: T,
    alloc: Global,
    seconds: &Arc<Seconds, Global>,
    called: &Arc<Called, Global>,
) -> Result<Vec<PeerGate<OneHealthy<T>>>, Refusal> {
    let mut gates = Vec::new(alloc);
    gates.push(PeerGate::new(OneHealthy {
        rt,
        alloc,
        seconds: Arc::try_clone(seconds)?,
        called: Arc::try_clone(called)?,
    }))?;
    Ok(gates)
}

/// The healthy destination is called, and each dead one given up at its eighth failure. Where more jobs are leased than
/// there are senders for, leases end while they wait, and nothing is ever settled.
#[test]
fn one_healthy_among_twenty_dead(rt: HostRuntime) -> Result<(), Fail> {
    let alloc = rt.alloc();
    let seconds = Arc::new(alloc, Seconds::new())?;
    let called = Arc::new(
        alloc,
        Called {
            healthy: AtomicU64::new(0),
            dead: AtomicU64::new(0),
        },
    )?;
    let gates = gates(rt, alloc, &seconds, &called)?;
    assert_eq!(rt; gates.len(), 1);
    let clock = Moving {
        since: ten()?,
        seconds: Arc::try_clone(&seconds)?,
        each: STEP,
    };
    let desk = desk_of_jobs(alloc, ALL)?;
    let Ok(
        Day {
            counts,
            left,
            turn: _,
        },
    ) = run_day::<Brand, _, _, _, _>(
        rt,
        alloc,
        Blank::new(3),
        desk,
        gates,
        clock,
        ROOM,
        &UntilNoneWaits,
    )
    else {
        panic!(rt; "the day was refused")
    };
    assert_eq!(rt;
        (
            counts.made,
            counts.sent,
            counts.given_up,
            counts.dropped,
            counts.pending
        ),
        (ALL, 1, DEAD, 0, 0)
    );
    assert_eq!(rt; left.len(), 0);
    assert_eq!(rt; called.healthy.load(Ordering::SeqCst), 1);
    assert_eq!(rt; called.dead.load(Ordering::SeqCst), 8 * DEAD);
    Ok(())
}
