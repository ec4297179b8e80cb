//! A job is settled at a moment behind its exchange.
ghost use Rattle.std.specs.Prelude.{◌≡◌};

use crate::clock::{Moving, Seconds};
use crate::day::{Day, Meanwhile, UntilNoneWaits, run_day};
use crate::desk::{desk_of_jobs, ten};
use crate::peer::{Peer, PeerGate, reply};
use adr_book::{Office, Pass, RecordedTrail};
use adr_link::{HttpReply, LinkFault};
use adr_machine::{Command, Desk};
use adr_text::{Moment, Refusal};
use adr_work::Request;
use std::alloc::Global;
use std::marker::Brand;
use std::sync::atomic::{AtomicU64, Ordering};
use std::sync::ledger::{Blank, Ledger};
use std::sync::{Arc, Wait};
use std::test::*;
use std::time;

/// How many seconds an exchange takes.
const EXCHANGE: u32 = 7;

/// Takes whatever comes, in its time.
#[derive(Drop)]
struct Slow {
    alloc: Global,
    seconds: Arc<Seconds, Global>,
}

impl Peer for Slow {
    fn reply(&self, _request: &Request) -> Result<HttpReply, LinkFault> {
        self.seconds.pass(EXCHANGE as u64);
        reply(self.alloc, 200, "")
    }
}

/// Waits until no entry waits any more, and counts the settlements of the day, and those at the moment behind the exchange.
#[derive(Drop)]
struct Settlements {
    behind: Moment,
    all: AtomicU64,
    in_time: AtomicU64,
}

impl Meanwhile for Settlements {
    fn pass_time<D: Desk + Drop, L: Ledger, R: Wait + time::Clock>(
        &self,
        rt: &R,
        office: &Office<D, RecordedTrail, L>,
        pass: &mut Pass<L>,
    ) {
        UntilNoneWaits.pass_time(rt, office, pass);
        for (moment, command) in office.book.lock(rt).trail() {
            if matches!(command, Command::Sent { .. }) {
                self.all.fetch_add(1, Ordering::SeqCst);
                if moment.nanos() == self.behind.nanos() {
                    self.in_time.fetch_add(1, Ordering::SeqCst);
                }
            }
        }
    }
}

fn gates(alloc: Global, seconds: &Arc<Seconds, Global>) -> Result<Vec<PeerGate<Slow>>, Refusal> {
    let mut gates = Vec::new(alloc);
    let seconds = Arc::try_clone(seconds)?;
    gates.push(PeerGate::new(Slow { alloc, seconds }))?;
    Ok(gates)
}

#[test]
fn a_job_is_settled_behind_its_exchange(rt: HostRuntime) -> Result<(), Fail> {
    let alloc = rt.alloc();
    let seconds = Arc::new(alloc, Seconds::new())?;
    let gates = gates(alloc, &seconds)?;
    assert_eq!(rt; gates.len(), 1);
    let settlements = Settlements {
        behind: ten()?.plus_seconds(EXCHANGE),
        all: AtomicU64::new(0),
        in_time: AtomicU64::new(0),
    };
    let clock = Moving {
        since: ten()?,
        seconds: Arc::try_clone(&seconds)?,
        each: 0,
    };
    let desk = desk_of_jobs(alloc, 1)?;
    let Ok(Day { counts, .. }) = run_day::<Brand, _, _, _, _>(
        rt,
        alloc,
        Blank::new(3),
        desk,
        gates,
        clock,
        1,
        &settlements,
    ) else {
        panic!(rt; "the day was refused")
    };
    assert_eq!(rt; (counts.sent, counts.pending), (1, 0));
    assert_eq!(rt; settlements.all.load(Ordering::SeqCst), 1);
    assert_eq!(rt; settlements.in_time.load(Ordering::SeqCst), 1);
    Ok(())
}
