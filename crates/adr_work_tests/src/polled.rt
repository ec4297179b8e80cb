//! Rounds of polling over a gate of fixed replies: an event that is gone upstream, of which nobody was told, is found.
ghost use Rattle.std.specs.Prelude.{◌≡◌};

use crate::clock::{Still, Ticks};
use crate::day::counts;
use crate::desk::{ONE_EVENT, desk_with_keys, enrolled, subscription, ten};
use crate::peer::{Peer, PeerGate, peers, reply};
use crate::quiet::quiet;
use adr_book::{Office, Pass, RecordedTrail};
use adr_link::{HttpReply, LinkFault};
use adr_machine::{Desk, PlainDesk};
use adr_objects::OutboxCounts;
use adr_text::Refusal;
use adr_work::{Callee, PollEnd, Request, RoundLog, Steps, poll_round};
use std::alloc::Global;
use std::marker::Brand;
use std::sync::Wait;
use std::sync::atomic::{AtomicU64, Ordering};
use std::sync::ledger::{Blank, Ledger};
use std::test::*;
use std::time;

const TO_EVENTS: &str =
    "{\"clientName\":\"ops\",\"objectOperations\":[{\"objects\":[\"EVENT\"],\"operations\":[\"POST\",\"PUT\",\"DELETE\"],\"callbackUrl\":\"http://127.0.0.1:9000/n\"}]}";

/// A page with two events.
pub const BOTH: &str =
    "[{\"id\":\"e1\",\"modificationDateTime\":\"2024-07-01T09:00:00Z\",\"programID\":\"p1\",\"intervals\":[{\"id\":0,\"payloads\":[{\"type\":\"DISPATCH_SETPOINT\",\"values\":[100]}]}]},{\"id\":\"e5\",\"modificationDateTime\":\"2024-07-01T09:00:00Z\",\"programID\":\"p1\",\"intervals\":[{\"id\":0,\"payloads\":[{\"type\":\"DISPATCH_SETPOINT\",\"values\":[100]}]}]}]";

/// The utility at some time: its first page of events, how many are on it, and whether its pages of events fail.
#[derive(Clone, Copy, Drop)]
pub struct Upstreams {
    pub alloc: Global,
    pub events: &'static str,
    pub behind: &'static str,
    pub fails: bool,
}

// What the utility is asked for, in full.
const REST: &str =
    " HTTP/1.1\r\nHost: 127.0.0.1:8081\r\nAuthorization: Bearer up\r\nAccept: application/json\r\nConnection: close\r\n\r\n";

// Whether a request asks for that target, and is otherwise as it has to be, to the last byte.
fn asks_for(request: &Request, target: &str) -> bool {
    let Some(rest) = request.bytes.as_slice().strip_prefix(b"GET /openadr3") else {
        return false;
    };
    matches!(request.to, Callee::Utility)
        && rest.strip_prefix(target.as_bytes()) == Some(REST.as_bytes())
}

impl Peer for Upstreams {
    fn reply(&self, request: &Request) -> Result<HttpReply, LinkFault> {
        if asks_for(request, "/programs?skip=0&limit=50") {
            return reply(self.alloc, 200, "[]");
        }
        if self.fails {
            return Err(LinkFault::BadReply);
        }
        if asks_for(request, "/events?skip=0&limit=50") {
            return reply(self.alloc, 200, self.events);
        }
        if asks_for(request, self.behind) {
            return reply(self.alloc, 200, "[]");
        }
        if asks_for(request, "/events/e5") {
            return reply(self.alloc, 404, "{}");
        }
        // Whoever asks for anything else has a round that breaks.
        reply(self.alloc, 500, "{}")
    }
}

/// The desk with three resources, and a subscription to events.
pub fn enrolled_and_subscribed(alloc: Global) -> Result<PlainDesk, Refusal> {
    let mut desk = enrolled(alloc)?;
    desk.apply(ten()?, &subscription(alloc, TO_EVENTS)?)?;
    Ok(desk)
}

/// What a round ended with, and how many entries there are then.
pub fn round<L: Ledger, U: Peer + Drop, R: Wait + time::Clock>(
    rt: &R,
    alloc: Global,
    office: &Office<PlainDesk, RecordedTrail, L>,
    pass: &mut Pass<L>,
    utility: U,
) -> Result<(PollEnd, OutboxCounts), Refusal> {
    let peers = peers(alloc)?;
    let clock = Still(ten()?);
    let mut gate = PeerGate::new(utility);
    let mut steps = Steps::new();
    let quiet = quiet(rt);
    let end = poll_round(
        &quiet,
        alloc,
        office,
        &mut gate,
        &peers.upstream,
        &clock,
        pass,
        &mut steps,
        &mut RoundLog::new(&quiet, alloc),
    )?;
    Ok((end, counts(rt, office, pass)?))
}

/// What it ended with, and how many entries were made by then.
pub fn made(round: &(PollEnd, OutboxCounts)) -> (PollEnd, u64) {
    (round.0, round.1.made)
}

// How each of three rounds ended, with how many entries were made by then: two events come; the pages fail; one is gone.
fn rounds<L: Ledger, R: Wait + time::Clock>(
    rt: &R,
    alloc: Global,
    blank: Blank,
) -> Result<[(PollEnd, u64); 3], Refusal>
    requires { (blank.name ≡ L.name) × (blank.parts ≡ L.parts) × (blank.parts ≡ 1) }
{
    let (office, mut passes) = Office::<PlainDesk, RecordedTrail, L>::open(
        alloc,
        blank,
        enrolled_and_subscribed(alloc)?,
        1,
    )?;
    let Some(mut pass) = passes.pop() else {
        unreachable!()
    };
    let both = Upstreams {
        alloc,
        events: BOTH,
        behind: "/events?skip=2&limit=50",
        fails: false,
    };
    let none = Upstreams {
        fails: true,
        ..both
    };
    let one = Upstreams {
        alloc,
        events: ONE_EVENT,
        behind: "/events?skip=1&limit=50",
        fails: false,
    };
    let first = round(rt, alloc, &office, &mut pass, both)?;
    let second = round(rt, alloc, &office, &mut pass, none)?;
    let third = round(rt, alloc, &office, &mut pass, one)?;
    Ok([made(&first), made(&second), made(&third)])
}

/// Row 13, by two rounds of `poll_round`, the second of which finds what is gone; between them is one that breaks.
#[test]
fn a_scan_finds_what_is_gone(rt: HostRuntime) -> Result<(), Fail> {
    let alloc = rt.alloc();
    let [first, second, third] = rounds::<Brand, _>(&rt, alloc, Blank::new(1))?;
    assert!(rt; first == (PollEnd::Whole, 6));
    assert!(rt; second == (PollEnd::Broken, 6));
    assert!(rt; third == (PollEnd::Whole, 9));
    Ok(())
}

// How often a round reads the clock, which it does once for each step, where the book refuses the page of events.
fn steps_to_refusal<L: Ledger, R: Wait + time::Clock>(
    rt: &R,
    alloc: Global,
    blank: Blank,
) -> Result<u64, Refusal>
    requires { (blank.name ≡ L.name) × (blank.parts ≡ L.parts) × (blank.parts ≡ 1) }
{
    let desk = desk_with_keys(alloc, 1)?;
    let (office, mut passes) = Office::<PlainDesk, RecordedTrail, L>::open(alloc, blank, desk, 1)?;
    let Some(mut pass) = passes.pop() else {
        unreachable!()
    };
    let peers = peers(alloc)?;
    let clock = Ticks {
        since: ten()?,
        count: AtomicU64::new(0),
    };
    let mut gate = PeerGate::new(Upstreams {
        alloc,
        events: BOTH,
        behind: "/events?skip=2&limit=50",
        fails: false,
    });
    let mut steps = Steps::new();
    let quiet = quiet(rt);
    let end = poll_round(
        &quiet,
        alloc,
        &office,
        &mut gate,
        &peers.upstream,
        &clock,
        &mut pass,
        &mut steps,
        &mut RoundLog::new(&quiet, alloc),
    );
    match end {
        Ok(_) => Err(Refusal::NotFound),
        Err(_) => Ok(clock.count.load(Ordering::SeqCst)),
    }
}

/// A page that the book refuses ends the round, and is not told again.
#[test]
fn a_refused_page_is_told_once(rt: HostRuntime) -> Result<(), Fail> {
    let alloc = rt.alloc();
    // The beginning of the scan, and the page of events.
    assert_eq!(rt; steps_to_refusal::<Brand, _>(&rt, alloc, Blank::new(1))?, 2);
    Ok(())
}
