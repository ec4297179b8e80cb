//! A stop while jobs are left.
ghost use Rattle.std.specs.Prelude.{◌≡◌};

use crate::clock::Still;
use crate::day::{Day, MOST_LOOKS, Meanwhile, run_day};
use crate::desk::{desk_of_jobs, ten};
use crate::peer::{Peer, PeerGate, reply};
use adr_book::{Office, Pass, RecordedTrail};
use adr_link::{HttpReply, LinkFault};
use adr_machine::Desk;
use adr_text::Refusal;
use adr_work::Request;
use std::alloc::Global;
use std::marker::Brand;
use std::sync::atomic::{AtomicU64, Ordering};
use std::sync::ledger::{Blank, Ledger};
use std::sync::{Arc, Wait};
use std::test::*;
use std::{thread, time};

/// How often the gate looks on once it may go on, so that the stop comes first.
const LONGER: u32 = 200_000;

/// Holds each job until it is told to go on, and then a while longer.
#[derive(Drop)]
struct Slow {
    alloc: Global,
    go: Arc<AtomicU64, Global>,
}

impl Peer for Slow {
    fn reply(&self, _request: &Request) -> Result<HttpReply, LinkFault> {
        for _ in 0..MOST_LOOKS {
            if self.go.load(Ordering::SeqCst) != 0 {
                break;
            }
            thread::yield_now();
        }
        for _ in 0..LONGER {
            thread::yield_now();
        }
        reply(self.alloc, 200, "")
    }
}

/// Waits until so many leases were taken, and lets the gate go on.
#[derive(Drop)]
struct UntilLeased {
    leases: u64,
    go: Arc<AtomicU64, Global>,
}

impl Meanwhile for UntilLeased {
    fn pass_time<D: Desk + Drop, L: Ledger, R: Wait + time::Clock>(
        &self,
        rt: &R,
        office: &Office<D, RecordedTrail, L>,
        _pass: &mut Pass<L>,
    ) {
        for _ in 0..MOST_LOOKS {
            if self.leases <= office.book.lock(rt).turn() {
                break;
            }
            thread::yield_now();
        }
        self.go.store(1, Ordering::SeqCst);
    }
}

fn gates(alloc: Global, go: &Arc<AtomicU64, Global>) -> Result<Vec<PeerGate<Slow>>, Refusal> {
    let mut gates = Vec::new(alloc);
    let go = Arc::try_clone(go)?;
    gates.push(PeerGate::new(Slow { alloc, go }))?;
    Ok(gates)
}

#[test]
fn a_stop_while_jobs_are_left(rt: HostRuntime) -> Result<(), Fail> {
    let alloc = rt.alloc();
    let go = Arc::new(alloc, AtomicU64::new(0))?;
    let gates = gates(alloc, &go)?;
    assert_eq!(rt; gates.len(), 1);
    let until = UntilLeased {
        leases: 5,
        go: Arc::try_clone(&go)?,
    };
    let desk = desk_of_jobs(alloc, 6)?;
    let clock = Still(ten()?);
    let Ok(
        Day {
            counts,
            left,
            turn: _,
        },
    ) = run_day::<Brand, _, _, _, _>(rt, alloc, Blank::new(3), desk, gates, clock, 4, &until)
    else {
        panic!(rt; "the day was refused")
    };
    // What wasn't sent waits, and among it are those that were left in the queue.
    assert!(rt; counts.sent.checked_add(counts.pending) == Some(6));
    assert!(rt; 0 < left.len());
    assert!(rt; left.len() as u64 <= counts.pending);
    Ok(())
}
