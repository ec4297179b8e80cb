//! Rounds of polling of which one fetch fails, each in turn.
ghost use Rattle.std.specs.Prelude.{◌≡◌};

use crate::desk::ONE_EVENT;
use crate::peer::Peer;
use crate::polled::{BOTH, Upstreams, enrolled_and_subscribed, made, round};
use adr_book::{Office, Pass, RecordedTrail};
use adr_link::{HttpReply, LinkFault};
use adr_machine::{PlainDesk, Query};
use adr_text::Refusal;
use adr_work::{PollEnd, Request};
use std::alloc::Global;
use std::marker::Brand;
use std::sync::Wait;
use std::sync::atomic::{AtomicU64, Ordering};
use std::sync::ledger::{Blank, Ledger};
use std::test::*;
use std::time;

/// A utility whose fetch of that number fails, from 1 on; of none where it is 0.
#[derive(Drop)]
struct FailsOnce {
    utility: Upstreams,
    left: AtomicU64,
}

impl Peer for FailsOnce {
    fn reply(&self, request: &Request) -> Result<HttpReply, LinkFault> {
        if self.left.fetch_sub(1, Ordering::SeqCst) == 1 {
            return Err(LinkFault::BadReply);
        }
        self.utility.reply(request)
    }
}

// Whether a scan is open.
fn is_scanning<L: Ledger, R: Wait>(
    rt: &R,
    office: &Office<PlainDesk, RecordedTrail, L>,
    pass: &mut Pass<L>,
) -> Result<bool, Refusal> {
    match office.book.lock(rt).look(pass, Query::Probes { limit: 1 }) {
        Ok(_) => Ok(true),
        Err(Refusal::NoScan) => Ok(false),
        Err(refusal) => Err(refusal),
    }
}

/// How a round ended, how many entries were made by then, and whether its scan was left open.
type Ended = ((PollEnd, u64), bool);

// A round in which one event is gone upstream, of which the fetch of that number fails.
fn failing_round<L: Ledger, R: Wait + time::Clock>(
    rt: &R,
    alloc: Global,
    office: &Office<PlainDesk, RecordedTrail, L>,
    pass: &mut Pass<L>,
    fetch: u64,
) -> Result<Ended, Refusal> {
    let utility = Upstreams {
        alloc,
        events: ONE_EVENT,
        behind: "/events?skip=1&limit=50",
        fails: false,
    };
    let left = AtomicU64::new(fetch);
    let ended = round(rt, alloc, office, pass, FailsOnce { utility, left })?;
    Ok((made(&ended), is_scanning(rt, office, pass)?))
}

// The same behind a whole round with both events, and how the next round ends, in which none fails.
fn two_rounds<L: Ledger, R: Wait + time::Clock>(
    rt: &R,
    alloc: Global,
    blank: Blank,
    fetch: u64,
) -> Result<[Ended; 2], Refusal>
    requires { (blank.name ≡ L.name) × (blank.parts ≡ L.parts) × (blank.parts ≡ 1) }
{
    let (office, mut passes) = Office::<PlainDesk, RecordedTrail, L>::open(
        alloc,
        blank,
        enrolled_and_subscribed(alloc)?,
        1,
    )?;
    let Some(mut pass) = passes.pop() else {
        unreachable!()
    };
    let both = Upstreams {
        alloc,
        events: BOTH,
        behind: "/events?skip=2&limit=50",
        fails: false,
    };
    round(rt, alloc, &office, &mut pass, both)?;
    let first = failing_round(rt, alloc, &office, &mut pass, fetch)?;
    let next = failing_round(rt, alloc, &office, &mut pass, 0)?;
    Ok([first, next])
}

/// A round asks for a page of programs, two pages of events, and the event that is on none of them. Where a page fails, it
/// is broken, and its scan stays open; where the probe fails, it is passed over. The next round finds what is gone.
#[test]
fn each_fetch_fails(rt: HostRuntime) -> Result<(), Fail> {
    let alloc = rt.alloc();
    let found = ((PollEnd::Whole, 9), false);
    for page in 1..4 {
        let [first, next] = two_rounds::<Brand, _>(&rt, alloc, Blank::new(1), page)?;
        assert!(rt; first == ((PollEnd::Broken, 6), true));
        assert!(rt; next == found);
    }
    let [first, next] = two_rounds::<Brand, _>(&rt, alloc, Blank::new(1), 4)?;
    assert!(rt; first == ((PollEnd::Whole, 6), false));
    assert!(rt; next == found);
    let [first, _] = two_rounds::<Brand, _>(&rt, alloc, Blank::new(1), 5)?;
    assert!(rt; first == found);
    Ok(())
}
