//! Destinations that fail in each way, and the reports of a day.
ghost use Rattle.std.specs.Prelude.{◌≡◌};

use crate::clock::Ticks;
use crate::day::{Day, UntilNoneWaits, run_day};
use crate::desk::{desk_of_jobs, ten};
use crate::peer::{Peer, PeerGate, reply};
use adr_link::{HttpReply, LinkFault};
use adr_text::Refusal;
use adr_work::Request;
use std::alloc::Global;
use std::marker::Brand;
use std::sync::atomic::{AtomicU64, Ordering};
use std::sync::ledger::Blank;
use std::test::*;

/// Fails twice for the first subscription, by a status, and twice for the second, by no reply, and tells the third an id,
/// as the utility does for a report.
struct Failing {
    alloc: Global,
    first: AtomicU64,
    second: AtomicU64,
}

impl Drop for Failing {
    fn drop(self) {
        let Failing {
            alloc: _,
            first: _,
            second: _,
        } = self;
    }
}

// Whether this is at least the third time.
fn is_third_time(tries: &AtomicU64) -> bool {
    1 < tries.fetch_add(1, Ordering::SeqCst)
}

impl Peer for Failing {
    fn reply(&self, request: &Request) -> Result<HttpReply, LinkFault> {
        let bytes = request.bytes.as_slice();
        if bytes.starts_with(b"POST /n1 ") && !is_third_time(&self.first) {
            return reply(self.alloc, 404, "");
        }
        if bytes.starts_with(b"POST /n2 ") && !is_third_time(&self.second) {
            return Err(LinkFault::BadReply);
        }
        if bytes.starts_with(b"POST /n3 ") {
            return reply(self.alloc, 201, "{\"id\":\"x7\"}");
        }
        reply(self.alloc, 200, "")
    }
}

fn gates(alloc: Global) -> Result<Vec<PeerGate<Failing>>, Refusal> {
    let mut gates = Vec::new(alloc);
    gates.push(PeerGate::new(Failing {
        alloc,
        first: AtomicU64::new(0),
        second: AtomicU64::new(0),
    }))?;
    Ok(gates)
}

#[test]
fn destinations_that_fail_in_each_way(rt: HostRuntime) -> Result<(), Fail> {
    let alloc = rt.alloc();
    let gates = gates(alloc)?;
    assert_eq!(rt; gates.len(), 1);
    let desk = desk_of_jobs(alloc, 4)?;
    let clock = Ticks {
        since: ten()?,
        count: AtomicU64::new(0),
    };
    let Ok(Day { counts, left, turn }) = run_day::<Brand, _, _, _, _>(
        rt,
        alloc,
        Blank::new(3),
        desk,
        gates,
        clock,
        4,
        &UntilNoneWaits,
    ) else {
        panic!(rt; "the day was refused")
    };
    assert_eq!(rt;
        (counts.made, counts.sent, counts.given_up, counts.pending),
        (4, 4, 0, 0)
    );
    assert_eq!(rt; left.len(), 0);
    // Eight leases that gave a job, and as many settlements.
    assert!(rt; 16 <= turn);
    Ok(())
}
