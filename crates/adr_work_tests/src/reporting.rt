//! Reports for the utility: a new one, one in the place of that, and a new one again where the utility has none any more.
ghost use Rattle.std.specs.Prelude.{◌≡◌};

use crate::clock::Ticks;
use crate::day::{Day, UntilNoneWaits, run_day};
use crate::desk::{ONE_EVENT, enrolled, page, ten};
use crate::peer::{Peer, PeerGate, reply};
use adr_link::{HttpReply, LinkFault};
use adr_machine::{Command, Desk, PlainDesk, Role};
use adr_objects::Kind;
use adr_schema::read_report;
use adr_text::{ObjectId, Refusal};
use adr_work::{Callee, Request};
use std::alloc::Global;
use std::marker::Brand;
use std::sync::Arc;
use std::sync::atomic::{AtomicU64, Ordering};
use std::sync::ledger::Blank;
use std::test::*;

const FORTY: &str =
    "{\"programID\":\"p1\",\"eventID\":\"r3-e1\",\"clientName\":\"c\",\"resources\":[{\"resourceName\":\"a1\",\"intervals\":[{\"id\":0,\"payloads\":[{\"type\":\"USAGE\",\"values\":[40]}]}]}]}";

const FIFTY: &str =
    "{\"programID\":\"p1\",\"eventID\":\"r3-e1\",\"clientName\":\"c\",\"resources\":[{\"resourceName\":\"a1\",\"intervals\":[{\"id\":0,\"payloads\":[{\"type\":\"USAGE\",\"values\":[50]}]}]}]}";

/// What has come to the utility: new reports, and those in the place of the first and of the second that it took.
#[derive(Drop)]
struct Heard {
    new: AtomicU64,
    first: AtomicU64,
    second: AtomicU64,
    others: AtomicU64,
}

/// The utility: it fails at the first report, takes the second as `u1`, and has lost that one when it is put again; it
/// takes the next as `u2`, and what is put in its place.
#[derive(Drop)]
struct Forgetful {
    alloc: Global,
    heard: Arc<Heard, Global>,
}

impl Forgetful {
    fn take_new(&self) -> Result<HttpReply, LinkFault> {
        match self.heard.new.fetch_add(1, Ordering::SeqCst) {
            0 => reply(self.alloc, 500, "{}"),
            1 => reply(self.alloc, 201, "{\"id\":\"u1\"}"),
            _ => reply(self.alloc, 201, "{\"id\":\"u2\"}"),
        }
    }
}

impl Peer for Forgetful {
    fn reply(&self, request: &Request) -> Result<HttpReply, LinkFault> {
        let bytes = request.bytes.as_slice();
        if !matches!(request.to, Callee::Utility) {
            self.heard.others.fetch_add(1, Ordering::SeqCst);
            return Err(LinkFault::Read);
        }
        if bytes.starts_with(b"POST /openadr3/reports HTTP/1.1\r\n") {
            return self.take_new();
        }
        if bytes.starts_with(b"PUT /openadr3/reports/u1 HTTP/1.1\r\n") {
            self.heard.first.fetch_add(1, Ordering::SeqCst);
            return reply(self.alloc, 404, "{}");
        }
        if bytes.starts_with(b"PUT /openadr3/reports/u2 HTTP/1.1\r\n") {
            self.heard.second.fetch_add(1, Ordering::SeqCst);
            return reply(self.alloc, 200, "{}");
        }
        self.heard.others.fetch_add(1, Ordering::SeqCst);
        reply(self.alloc, 400, "{}")
    }
}

// A desk on which the sum of an event changed three times, so that three reports wait.
fn reported(alloc: Global) -> Result<PlainDesk, Refusal> {
    let mut desk = enrolled(alloc)?;
    desk.apply(ten()?, &page(alloc, Kind::Event, ONE_EVENT)?)?;
    let role = Role::Ven(ObjectId::new(alloc, "v1")?);
    let report = read_report(alloc, FORTY.as_bytes())?;
    desk.apply(ten()?, &Command::ReportPost { role, report })?;
    for text in [FIFTY, FORTY] {
        let put = Command::ReportPut {
            role: Role::Ven(ObjectId::new(alloc, "v1")?),
            id: ObjectId::new(alloc, "p6")?,
            report: read_report(alloc, text.as_bytes())?,
        };
        desk.apply(ten()?, &put)?;
    }
    Ok(desk)
}

fn gates(alloc: Global, heard: &Arc<Heard, Global>) -> Result<Vec<PeerGate<Forgetful>>, Refusal> {
    let mut gates = Vec::new(alloc);
    let heard = Arc::try_clone(heard)?;
    gates.push(PeerGate::new(Forgetful { alloc, heard }))?;
    Ok(gates)
}

#[test]
fn reports_in_the_place_of_others(rt: HostRuntime) -> Result<(), Fail> {
    let alloc = rt.alloc();
    let heard = Arc::new(
        alloc,
        Heard {
            new: AtomicU64::new(0),
            first: AtomicU64::new(0),
            second: AtomicU64::new(0),
            others: AtomicU64::new(0),
        },
    )?;
    let gates = gates(alloc, &heard)?;
    assert_eq!(rt; gates.len(), 1);
    let clock = Ticks {
        since: ten()?,
        count: AtomicU64::new(0),
    };
    let desk = reported(alloc)?;
    let Ok(Day { counts, .. }) = run_day::<Brand, _, _, _, _>(
        rt,
        alloc,
        Blank::new(3),
        desk,
        gates,
        clock,
        1,
        &UntilNoneWaits,
    ) else {
        panic!(rt; "the day was refused")
    };
    assert_eq!(rt; (counts.made, counts.sent, counts.pending), (3, 3, 0));
    assert_eq!(rt; heard.new.load(Ordering::SeqCst), 3);
    assert_eq!(rt; heard.first.load(Ordering::SeqCst), 1);
    assert_eq!(rt; heard.second.load(Ordering::SeqCst), 1);
    assert_eq!(rt; heard.others.load(Ordering::SeqCst), 0);
    Ok(())
}
