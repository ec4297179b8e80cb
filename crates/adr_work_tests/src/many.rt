//! Many senders over a queue that holds one job.
ghost use Rattle.std.specs.Prelude.{◌≡◌};

use crate::clock::Still;
use crate::day::{Day, UntilNoneWaits, run_day};
use crate::desk::{desk_of_jobs, ten};
use crate::peer::{Peer, PeerGate, reply};
use adr_link::{HttpReply, LinkFault};
use adr_text::Refusal;
use adr_work::Request;
use std::alloc::Global;
use std::marker::Brand;
use std::sync::Arc;
use std::sync::atomic::{AtomicU64, Ordering};
use std::sync::ledger::Blank;
use std::test::*;

/// Sends all, and counts them.
#[derive(Drop)]
struct Counting {
    alloc: Global,
    sent: Arc<AtomicU64, Global>,
}

impl Peer for Counting {
    fn reply(&self, _request: &Request) -> Result<HttpReply, LinkFault> {
        self.sent.fetch_add(1, Ordering::SeqCst);
        reply(self.alloc, 200, "")
    }
}

fn gates(alloc: Global, sent: &Arc<AtomicU64, Global>) -> Result<Vec<PeerGate<Counting>>, Refusal> {
    let mut gates = Vec::new(alloc);
    for _ in 0..16u32 {
        let sent = Arc::try_clone(sent)?;
        gates.push(PeerGate::new(Counting { alloc, sent }))?;
    }
    Ok(gates)
}

#[test]
fn sixteen_senders_over_a_queue_of_one(rt: HostRuntime) -> Result<(), Fail> {
    let alloc = rt.alloc();
    let sent = Arc::new(alloc, AtomicU64::new(0))?;
    let gates = gates(alloc, &sent)?;
    assert_eq!(rt; gates.len(), 16);
    let desk = desk_of_jobs(alloc, 40)?;
    let clock = Still(ten()?);
    let Ok(Day { counts, left, turn }) = run_day::<Brand, _, _, _, _>(
        rt,
        alloc,
        Blank::new(18),
        desk,
        gates,
        clock,
        1,
        &UntilNoneWaits,
    ) else {
        panic!(rt; "the day was refused")
    };
    assert_eq!(rt; (counts.made, counts.sent, counts.pending), (40, 40, 0));
    assert_eq!(rt; left.len(), 0);
    assert_eq!(rt; sent.load(Ordering::SeqCst), 40);
    assert!(rt; 80 <= turn);
    Ok(())
}
